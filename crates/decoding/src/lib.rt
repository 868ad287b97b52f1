// Strict decode over what is seen of a file: the handle, the buffers, the charge, then the picture.
#![tactic(auto)]

ghost use Rattle.std.specs.Prelude.{◌≡◌, length, replicate};
ghost use Rattle.lists.specs.Lists.{overlay};
ghost use Rattle.checks.specs.Checks.{run};
ghost use Rattle.seen.specs.Seen.{seen};
ghost use Rattle.decoding.specs.Strict.{show_checks, decoded_of, decoded_over, output_decoded, scratch_decoded};
ghost use Rattle.decoding.specs.Inner.{PictureAccepted, HandleShowable, RoomFor};

use checks::{Refusal, Refused};
use handle::Handle;
use header::Limits;
use picture::Format;

// All segments of a picture, shown.
mod segments;

// All segments, by way of the part of scratch that is needed, which is then zeroed.
fn show_picture(
    file: &[u8],
    map: &[u8],
    format: Format,
    needed: usize,
    output: &mut [u8],
    scratch: &mut [u8],
)
    requires { PictureAccepted (seen file.now map.now) format × RoomFor format needed (length output.old) (length scratch.old) }
    ensures picture { output.new ≡ decoded_over (seen file.now map.now) format output.old }
    ensures cleared { scratch.new ≡ overlay (replicate needed 0) scratch.old }
{
    segments::show_segments(file, map, format, &mut scratch[..needed], output);
    clearing::clear(&mut scratch[..needed]);
}

// The buffers, the charge, then the picture of a handle that an inspection gave.
pub fn show_handle(
    file: &[u8],
    map: &[u8],
    handle: Handle,
    left: usize,
    output: &mut [u8],
    scratch: &mut [u8],
) -> Result<usize, Refused>
    requires { HandleShowable (seen file.now map.now) handle }
    ensures answer { result ≡ run (show_checks handle (length output.old) (length scratch.old)) left }
    ensures picture { output.new ≡ output_decoded (seen file.now map.now) handle result output.old }
    ensures cleared { scratch.new ≡ scratch_decoded handle result scratch.old }
{
    if output.len() < handle.format.output || scratch.len() < handle.scratch {
        return Err(Refusal::OutputTooSmall.leaving(left));
    }
    let rest = checks::spend(left, handle.work)?;
    show_picture(file, map, handle.format, handle.scratch, output, scratch);
    Ok(rest)
}

// A handle that is not what an inspection gives 2, then as of one that is.
pub fn decode_seen(
    file: &[u8],
    map: &[u8],
    limits: Limits,
    handle: Handle,
    left: usize,
    output: &mut [u8],
    scratch: &mut [u8],
) -> Result<usize, Refused>
    ensures answer { result ≡ decoded_of (seen file.now map.now) limits handle output.old scratch.old left }
    ensures picture { output.new ≡ output_decoded (seen file.now map.now) handle result output.old }
    ensures cleared { scratch.new ≡ scratch_decoded handle result scratch.old }
{
    if !inspection::is_handle(file, map, limits, handle) {
        return Err(Refusal::Invalid.leaving(left));
    }
    show_handle(file, map, handle, left, output, scratch)
}
