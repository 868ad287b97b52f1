// The slots that may hold several values: step 4 of the profile, bits and format of the samples, and step 8, offsets and counts.
#![tactic(auto)]

ghost use Rattle.std.specs.Prelude.{◌≡◌};
ghost use Rattle.checks.specs.Checks.{verdict};
ghost use Rattle.seen.specs.Seen.{seen, There};
ghost use Rattle.tags.specs.Inner.{EntryThere, SlotsThere};
ghost use Rattle.entries.specs.Values.{count_at};
ghost use Rattle.profile.specs.Profile.{carries, each_is, sample_checks, step4, step8};

use checks::Refusal;
use tags::{BITS_PER_SAMPLE, SAMPLE_FORMAT};

// The values of an entry, in order: outside 1, not arrived 8, another number than wanted 3.
fn check_each(
    file: &[u8],
    map: &[u8],
    big: bool,
    samples: usize,
    entry: usize,
    wanted: usize,
) -> Result<(), Refusal>
    requires { There (seen file.now map.now) entry 12 × (count_at (seen file.now map.now) big entry ≡ samples) }
    ensures { result ≡ verdict (each_is (seen file.now map.now) big entry wanted 0 samples) }
{
    for i in 0..samples {
        if entries::value_at(file, map, big, entry, i)? != wanted {
            return Err(Refusal::Unsupported);
        }
    }
    Ok(())
}

// Whether an entry is present and has n values of type 3 or 4.
#[tactic(auto, using(crate::proofs::Steps::arrays))]
fn is_list(file: &[u8], map: &[u8], big: bool, entry: usize, n: usize) -> bool
    requires { EntryThere (seen file.now map.now) entry }
    ensures { result ≡ carries (seen file.now map.now) big entry n }
{
    entry != 0 && entries::has_values(file, map, big, entry, n)
}

// A value for each sample, all of one number.
#[tactic(auto, using(crate::proofs::Steps::arrays), unfolding(profile::specs::Profile::sample_checks))]
fn check_samples(
    file: &[u8],
    map: &[u8],
    big: bool,
    samples: usize,
    entry: usize,
    wanted: usize,
) -> Result<(), Refusal>
    requires { EntryThere (seen file.now map.now) entry }
    ensures { result ≡ verdict (sample_checks (seen file.now map.now) big samples entry wanted) }
{
    if !is_list(file, map, big, entry, samples) {
        return Err(Refusal::Unsupported);
    }
    check_each(file, map, big, samples, entry, wanted)
}

// Step 4: for each sample 16 in slot 2, then 2 in slot 18.
pub fn check_depths(
    file: &[u8],
    map: &[u8],
    big: bool,
    samples: usize,
    slots: [usize; 19],
) -> Result<(), Refusal>
    requires { SlotsThere (seen file.now map.now) slots }
    ensures { result ≡ verdict (step4 (seen file.now map.now) big samples slots) }
{
    check_samples(file, map, big, samples, slots[BITS_PER_SAMPLE], 16)?;
    check_samples(file, map, big, samples, slots[SAMPLE_FORMAT], 2)
}

// Step 8: offsets and counts, as many as segments.
#[tactic(auto, using(crate::proofs::Steps::arrays), unfolding(profile::specs::Profile::step8))]
pub fn check_lists(
    file: &[u8],
    map: &[u8],
    big: bool,
    offsets: usize,
    counts: usize,
    segments: usize,
) -> Result<(), Refusal>
    requires { EntryThere (seen file.now map.now) offsets × EntryThere (seen file.now map.now) counts }
    ensures { result ≡ verdict (step8 (seen file.now map.now) big offsets counts segments) }
{
    if !is_list(file, map, big, offsets, segments) || !is_list(file, map, big, counts, segments) {
        return Err(Refusal::Invalid);
    }
    Ok(())
}
