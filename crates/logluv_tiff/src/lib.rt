// Strict reading of a whole file: inspection, decode of the handle that it gives, and both in one call.
#![tactic(auto)]

ghost use Rattle.std.specs.Prelude.{◌≡◌, [], length};
ghost use Rattle.checks.specs.Checks.{run};
ghost use Rattle.seen.specs.Seen.{seen};
ghost use Rattle.inspection.specs.Inspection.{inspected_of};
ghost use Rattle.decoding.specs.Strict.{show_checks, decoded_of, both_of, output_decoded, scratch_decoded, output_read, scratch_read};
ghost use Rattle.decoding.specs.Inner.{HandleShowable};

use checks::Refused;
use handle::{Handle, Inspected};
use header::Limits;

// Limits, header, directories, profile and all segments of a page, in order. Every charge is taken before what it pays for.
pub fn inspect(file: &[u8], page: usize, limits: Limits, left: usize) -> Result<Inspected, Refused>
    ensures { result ≡ inspected_of (seen file.now []) page limits left }
{
    // No map: the file came whole.
    inspection::inspect_seen(file, &[], page, limits, left)
}

// The picture of a handle that an inspection gave: short buffers 6, the sum of the fees 7; then the picture, and scratch zeroed.
pub fn show_inspected(
    file: &[u8],
    handle: Handle,
    left: usize,
    output: &mut [u8],
    scratch: &mut [u8],
) -> Result<usize, Refused>
    requires { HandleShowable (seen file.now []) handle }
    ensures answer { result ≡ run (show_checks handle (length output.old) (length scratch.old)) left }
    ensures picture { output.new ≡ output_decoded (seen file.now []) handle result output.old }
    ensures cleared { scratch.new ≡ scratch_decoded handle result scratch.old }
{
    // No map: the file came whole.
    decoding::show_handle(file, &[], handle, left, output, scratch)
}

// A handle that is not what inspection gives 2, then as of one that is.
pub fn decode(
    file: &[u8],
    limits: Limits,
    handle: Handle,
    left: usize,
    output: &mut [u8],
    scratch: &mut [u8],
) -> Result<usize, Refused>
    ensures answer { result ≡ decoded_of (seen file.now []) limits handle output.old scratch.old left }
    ensures picture { output.new ≡ output_decoded (seen file.now []) handle result output.old }
    ensures cleared { scratch.new ≡ scratch_decoded handle result scratch.old }
{
    // No map: the file came whole.
    decoding::decode_seen(file, &[], limits, handle, left, output, scratch)
}

// Inspection and decode in one call, for callers who want no handle: all that inspection checks and charges, then what decode does.
pub fn read(
    file: &[u8],
    page: usize,
    limits: Limits,
    left: usize,
    output: &mut [u8],
    scratch: &mut [u8],
) -> Result<Inspected, Refused>
    ensures answer { result ≡ both_of (seen file.now []) page limits (length output.old) (length scratch.old) left }
    ensures picture { output.new ≡ output_read (seen file.now []) page result output.old }
    ensures cleared { scratch.new ≡ scratch_read (seen file.now []) page result scratch.old }
{
    let found = inspect(file, page, limits, left)?;
    let rest = show_inspected(file, found.handle, found.left, output, scratch)?;
    Ok(Inspected {
        handle: found.handle,
        left: rest,
    })
}
