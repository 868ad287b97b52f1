// Everything that can refuse a patchy reading, in order, before anything is written: the format to read, and the units left.
#![tactic(auto)]

ghost use Rattle.std.specs.Prelude.{◌≡◌, length};
ghost use Rattle.checks.specs.Checks.{run, verdict};
ghost use Rattle.seen.specs.Seen.{seen};
ghost use Rattle.picture.specs.Inner.{Valid, Readable};
ghost use Rattle.admission.specs.Admission.{admitted};
ghost use Rattle.admission.specs.Inner.{room_checks, charge_checks, admitted_format, admitted_page};

use checks::{Refusal, Refused};
use front::Found;
use header::Limits;
use picture::Format;

// The one charge for all segments.
mod charges;

// The lengths of the lent buffers.
#[derive(Clone, Copy, Debug, PartialEq, Eq)]
pub struct Room {
    pub output: usize,
    pub scratch: usize,
    pub quality: usize,
}

// Scratch within max_output, then room in each buffer.
#[tactic(auto, using(crate::proofs::Admitting::rooms))]
fn check_room(format: Format, max_output: usize, room: Room) -> Result<(), Refusal>
    requires { Valid format }
    ensures { result ≡ verdict (room_checks format max_output room) }
{
    let needed = picture::scratch_of(format);
    if max_output < needed {
        return Err(Refusal::Limit);
    }
    if room.output < format.output || room.scratch < needed || room.quality < format.segments {
        return Err(Refusal::OutputTooSmall);
    }
    Ok(())
}

// The one charge: its sum above 2^64-1 is 4, units below it 7.
fn charge(file: &[u8], map: &[u8], format: Format, left: usize) -> Result<usize, Refused>
    requires { Readable (seen file.now map.now) format }
    ensures { result ≡ run (charge_checks (seen file.now map.now) format) left }
{
    let work = charges::charge_all(file, map, format).ok_or(Refusal::Limit.leaving(left))?;
    checks::spend(left, work)
}

// The buffers, then the charge.
fn admit_format(
    file: &[u8],
    map: &[u8],
    format: Format,
    max_output: usize,
    room: Room,
    left: usize,
) -> Result<Found, Refused>
    requires { Readable (seen file.now map.now) format }
    ensures { result ≡ admitted_format (seen file.now map.now) format max_output room left }
{
    check_room(format, max_output, room).map_err(|refusal| refusal.leaving(left))?;
    let rest = charge(file, map, format, left)?;
    Ok(Found { format, left: rest })
}

// Header, directories and profile, then the format.
fn admit_page(
    file: &[u8],
    map: &[u8],
    page: usize,
    limits: Limits,
    room: Room,
    left: usize,
) -> Result<Found, Refused>
    ensures { result ≡ admitted_page (seen file.now map.now) page limits room left }
{
    let found = front::read_format(file, map, page, limits, left)?;
    admit_format(file, map, found.format, limits.max_output, room, found.left)
}

// The two limits on the whole file, the length of the map, then the page.
pub fn admit(
    file: &[u8],
    map: &[u8],
    page: usize,
    limits: Limits,
    room: Room,
    left: usize,
) -> Result<Found, Refused>
    ensures { result ≡ admitted (seen file.now map.now) (length map.now) page limits room left }
{
    header::check_limits(file.len(), page, limits).map_err(|refusal| refusal.leaving(left))?;
    seen::check_map(file, map).map_err(|refusal| refusal.leaving(left))?;
    admit_page(file, map, page, limits, room, left)
}
