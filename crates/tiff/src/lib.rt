// The walk over directories to a page.
#![tactic(auto)]

ghost use Rattle.seen.specs.Seen.{seen};
ghost use Rattle.tiff.specs.Walk.{PlaceIs, PageIs};

use checks::{Refusal, Refused};
use directory::Directory;

// The directory at an offset: an offset of 0 is 5.
#[tactic(auto, using(crate::proofs::Pages::places))]
fn read_at(
    file: &[u8],
    map: &[u8],
    big: bool,
    max_tags: usize,
    at: usize,
    left: usize,
) -> Result<Directory, Refused>
    ensures { PlaceIs (seen file.now map.now) big max_tags at left result }
{
    if at == 0 {
        return Err(Refusal::PageNotFound.leaving(left));
    }
    directory::read_directory(file, map, big, max_tags, at, left)
}

// Every directory up to that of the page. Loops are allowed, as each directory is charged.
#[tactic(auto, using(crate::proofs::Pages::walks))]
pub fn find_page(
    file: &[u8],
    map: &[u8],
    big: bool,
    max_tags: usize,
    page: usize,
    first: usize,
    left: usize,
) -> Result<Directory, Refused>
    ensures { PageIs (seen file.now map.now) big max_tags page first left result }
{
    let mut at = first;
    let mut rest = left;
    let mut ahead = page;
    // By hand, so that a directory is read in one place: with a second one after a `for`, each call has a frame more on the stack.
    loop {
        let found = read_at(file, map, big, max_tags, at, rest)?;
        if ahead == 0 {
            return Ok(found);
        }
        at = found.next;
        rest = found.left;
        ahead -= 1;
    }
}
