// One directory: its count, its entries by slot, the next offset and its charge.
#![tactic(auto)]

ghost use Rattle.std.specs.Prelude.{◌≡◌};
ghost use Rattle.checks.specs.Checks.{verdict};
ghost use Rattle.seen.specs.Seen.{seen};
ghost use Rattle.directory.specs.Directory.{DirectoryIs};
ghost use Rattle.directory.specs.Inner.{number_checks, counted};

use checks::{Refusal, Refused};

// What a directory gives: the number of its entries, their places by slot, the next offset, and the units left.
#[derive(Clone, Copy, Debug, PartialEq, Eq)]
pub struct Directory {
    pub entries: usize,
    pub slots: [usize; 19],
    pub next: usize,
    pub left: usize,
}

// A number of entries: none 2, above the limit 4.
#[tactic(auto, using(checks::proofs::Rules::verdicts))]
fn check_number(entries: usize, max_tags: usize) -> Result<(), Refusal>
    ensures { result ≡ verdict (number_checks entries max_tags) }
{
    if entries == 0 {
        return Err(Refusal::Invalid);
    }
    if max_tags < entries {
        return Err(Refusal::Limit);
    }
    Ok(())
}

// The number of entries, where they and the next offset are there: outside 1, not arrived 8.
fn count_entries(
    file: &[u8],
    map: &[u8],
    big: bool,
    max_tags: usize,
    at: usize,
) -> Result<usize, Refusal>
    ensures { result ≡ counted (seen file.now map.now) big max_tags at }
{
    seen::need(file, map, at, 2)?;
    let entries = words::word2(file, map, big, at);
    check_number(entries, max_tags)?;
    seen::need(file, map, at + 2, 12 * entries + 4)?;
    Ok(entries)
}

// One directory. It charges one unit an entry, and one more; an entry that may not stand is 2.
#[tactic(auto, using(crate::proofs::Directories::directories))]
pub fn read_directory(
    file: &[u8],
    map: &[u8],
    big: bool,
    max_tags: usize,
    at: usize,
    left: usize,
) -> Result<Directory, Refused>
    ensures { DirectoryIs (seen file.now map.now) big max_tags at left result }
{
    let entries = count_entries(file, map, big, max_tags, at).map_err(|why| why.leaving(left))?;
    let left = checks::spend(left, entries + 1)?;
    let first = at + 2;
    let invalid = Refusal::Invalid.leaving(left);
    let slots = tags::read_tags(file, map, big, first, entries).ok_or(invalid)?;
    let next = words::word4(file, map, big, first + 12 * entries);
    Ok(Directory {
        entries,
        slots,
        next,
        left,
    })
}
