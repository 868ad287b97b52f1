// The front part of every reading: header, directories and profile, from a file's bytes to the format of its picture.
#![tactic(auto)]

ghost use Rattle.std.specs.Prelude.{◌≡◌};
ghost use Rattle.seen.specs.Seen.{seen};
ghost use Rattle.tags.specs.Inner.{SlotsThere};
ghost use Rattle.front.specs.Front.{found_of};
ghost use Rattle.front.specs.Inner.{found_paid, found_page};

use checks::Refused;
use header::Limits;
use picture::Format;

// The picture's format, and the units left.
#[derive(Clone, Copy, Debug, PartialEq, Eq)]
pub struct Found {
    pub format: Format,
    pub left: usize,
}

// The charge for the profile, then the profile.
fn read_paid(
    file: &[u8],
    map: &[u8],
    big: bool,
    entries: usize,
    slots: [usize; 19],
    limits: Limits,
    left: usize,
) -> Result<Found, Refused>
    requires { SlotsThere (seen file.now map.now) slots }
    ensures { result ≡ found_paid (seen file.now map.now) big entries slots limits left }
{
    let rest = checks::spend(left, 128)?;
    let format = logluv_format::read_profile(file, map, big, entries, slots, limits).map_err(
        |refusal| refusal.leaving(rest),
    )?;
    Ok(Found { format, left: rest })
}

// The directories up to the page, then its profile.
fn read_page(
    file: &[u8],
    map: &[u8],
    big: bool,
    first: usize,
    page: usize,
    limits: Limits,
    left: usize,
) -> Result<Found, Refused>
    ensures { result ≡ found_page (seen file.now map.now) big first page limits left }
{
    let d = tiff::find_page(file, map, big, limits.max_tags, page, first, left)?;
    read_paid(file, map, big, d.entries, d.slots, limits, d.left)
}

// Header, directories and profile of a page, over what is seen of the file under the map. With no map all of it came.
pub fn read_format(
    file: &[u8],
    map: &[u8],
    page: usize,
    limits: Limits,
    left: usize,
) -> Result<Found, Refused>
    ensures { result ≡ found_of (seen file.now map.now) page limits left }
{
    let start = header::read_header(file, map).map_err(|refusal| refusal.leaving(left))?;
    read_page(file, map, start.big, start.first, page, limits, left)
}
