// The profile: from the slots of the page's directory to the format of a LogLuv picture, in eight steps, each with the number of its refusal.
#![tactic(auto)]

ghost use Rattle.std.specs.Prelude.{◌≡◌, ◌<◌};
ghost use Rattle.lists.specs.Lists.{pick};
ghost use Rattle.seen.specs.Seen.{seen};
ghost use Rattle.tags.specs.Slots.{entry_in};
ghost use Rattle.tags.specs.Inner.{SlotsThere};
ghost use Rattle.profile.specs.Profile.{profile_found};
ghost use Rattle.profile.specs.Inner.{Sided, SoundShape, found_from7, found_from5, found_from2};

use checks::Refusal;
use header::Limits;
use picture::Format;
use profile::{Numbers, Shape};
use tags::{EXTRA_SAMPLES, STRIP_BYTE_COUNTS, STRIP_OFFSETS, TILE_BYTE_COUNTS, TILE_OFFSETS};

// The entry of one of two slots: that of tiles, or that of strips.
fn entry_of(slots: [usize; 19], tiled: bool, tiles: usize, strips: usize) -> usize
    requires { (tiles < 19) × (strips < 19) }
    ensures { result ≡ pick tiled (entry_in slots tiles) (entry_in slots strips) }
{
    if tiled { slots[tiles] } else { slots[strips] }
}

// Steps 7 and 8.
fn read_segments(
    file: &[u8],
    map: &[u8],
    big: bool,
    entries: usize,
    slots: [usize; 19],
    s: Shape,
    limits: Limits,
) -> Result<Format, Refusal>
    requires { SlotsThere (seen file.now map.now) slots × SoundShape s }
    ensures { result ≡ found_from7 (seen file.now map.now) big entries slots s limits }
{
    let sizes = layout::count_segments(s, limits.max_segments, limits.max_output)?;
    let offsets = entry_of(slots, s.tiled, TILE_OFFSETS, STRIP_OFFSETS);
    let counts = entry_of(slots, s.tiled, TILE_BYTE_COUNTS, STRIP_BYTE_COUNTS);
    arrays::check_lists(file, map, big, offsets, counts, sizes.segments)?;
    Ok(Format {
        width: s.width,
        height: s.height,
        block_width: s.block_width,
        block_height: s.block_height,
        tiled: s.tiled,
        across: sizes.across,
        segments: sizes.segments,
        output: sizes.output,
        big,
        offsets,
        counts,
        entries,
        mono: s.mono,
    })
}

// Steps 5 to 8.
fn read_blocks(
    file: &[u8],
    map: &[u8],
    big: bool,
    entries: usize,
    slots: [usize; 19],
    n: Numbers,
    limits: Limits,
) -> Result<Format, Refusal>
    requires { SlotsThere (seen file.now map.now) slots × Sided n }
    ensures { result ≡ found_from5 (seen file.now map.now) big entries slots n limits }
{
    let s = layout::shape_of(n, slots[TILE_OFFSETS] != 0);
    layout::check_layout(s, slots)?;
    read_segments(file, map, big, entries, slots, s, limits)
}

// Steps 2 to 8.
fn read_samples(
    file: &[u8],
    map: &[u8],
    big: bool,
    entries: usize,
    slots: [usize; 19],
    n: Numbers,
    limits: Limits,
) -> Result<Format, Refusal>
    requires { SlotsThere (seen file.now map.now) slots }
    ensures { result ≡ found_from2 (seen file.now map.now) big entries slots n limits }
{
    layout::check_numbers(n, slots[EXTRA_SAMPLES], limits.max_dimension)?;
    let samples = head::channels_of(layout::is_mono(n));
    arrays::check_depths(file, map, big, samples, slots)?;
    read_blocks(file, map, big, entries, slots, n, limits)
}

// The eight steps.
pub fn read_profile(
    file: &[u8],
    map: &[u8],
    big: bool,
    entries: usize,
    slots: [usize; 19],
    limits: Limits,
) -> Result<Format, Refusal>
    requires { SlotsThere (seen file.now map.now) slots }
    ensures { result ≡ profile_found (seen file.now map.now) big entries slots limits }
{
    scalars::check_scalars(file, map, big, slots)?;
    let n = scalars::read_numbers(file, map, big, slots);
    read_samples(file, map, big, entries, slots, n, limits)
}
