// Strict inspection over what is seen of a file: all that can refuse a page, in order, and its handle; and whether a handle is what it gives.
#![tactic(auto)]

ghost use Rattle.std.specs.Prelude.{◌≡◌, ◌-◌, ◌≤◌};
ghost use Rattle.checks.specs.Checks.{run};
ghost use Rattle.seen.specs.Seen.{seen};
ghost use Rattle.picture.specs.Inner.{Valid, Readable};
ghost use Rattle.inspection.specs.Inspection.{segments_checks, handle_with, inspected_of, is_handle};
ghost use Rattle.inspection.specs.Inner.{inspected_format, inspected_page};

use checks::Refused;
use handle::{Handle, Inspected};
use header::Limits;
use picture::Format;

// Each segment in turn; the first that is refused ends it.
fn check_segments(
    file: &[u8],
    map: &[u8],
    format: Format,
    max_output: usize,
    left: usize,
) -> Result<usize, Refused>
    requires { Readable (seen file.now map.now) format }
    ensures { result ≡ run (segments_checks (seen file.now map.now) format max_output) left }
{
    let mut rest = left;
    for k in 0..format.segments {
        rest = logluv_segment::check_segment(file, map, format, max_output, k, rest)?;
    }
    Ok(rest)
}

// The handle after the last segment: what the segments took of the units is the sum of their fees.
#[tactic(auto, using(crate::proofs::Inspecting::making))]
fn handle_after(format: Format, page: usize, left: usize, rest: usize) -> Handle
    requires { Valid format × (rest ≤ left) }
    ensures { result ≡ handle_with format page (left - rest) }
{
    Handle {
        format,
        page,
        scratch: picture::scratch_of(format),
        work: left - rest,
    }
}

// All segments of a format, then the handle.
fn inspect_segments(
    file: &[u8],
    map: &[u8],
    format: Format,
    page: usize,
    max_output: usize,
    left: usize,
) -> Result<Inspected, Refused>
    requires { Readable (seen file.now map.now) format }
    ensures { result ≡ inspected_format (seen file.now map.now) format page max_output left }
{
    let rest = check_segments(file, map, format, max_output, left)?;
    Ok(Inspected {
        handle: handle_after(format, page, left, rest),
        left: rest,
    })
}

// Header, directories and profile, then the segments.
fn inspect_page(
    file: &[u8],
    map: &[u8],
    page: usize,
    limits: Limits,
    left: usize,
) -> Result<Inspected, Refused>
    ensures { result ≡ inspected_page (seen file.now map.now) page limits left }
{
    let found = front::read_format(file, map, page, limits, left)?;
    inspect_segments(file, map, found.format, page, limits.max_output, found.left)
}

// The two limits on the whole file, then the page.
pub fn inspect_seen(
    file: &[u8],
    map: &[u8],
    page: usize,
    limits: Limits,
    left: usize,
) -> Result<Inspected, Refused>
    ensures { result ≡ inspected_of (seen file.now map.now) page limits left }
{
    header::check_limits(file.len(), page, limits).map_err(|refusal| refusal.leaving(left))?;
    inspect_page(file, map, page, limits, left)
}

// Whether an inspection of the handle's page, with units for any charge, gives this handle.
pub fn is_handle(file: &[u8], map: &[u8], limits: Limits, handle: Handle) -> bool
    ensures { result ≡ is_handle (seen file.now map.now) limits handle }
{
    match inspect_seen(file, map, handle.page, limits, usize::MAX) {
        Ok(found) => handle::same_handle(found.handle, handle),
        Err(_) => false,
    }
}
