// The profile's steps over numbers and the shape alone: 2 and 3, then 5, 6 and 7.
#![tactic(auto)]

ghost use Rattle.std.specs.Prelude.{◌≡◌, ◌<◌};
ghost use Rattle.checks.specs.Checks.{verdict};
ghost use Rattle.profile.specs.Profile.{kind_is, has_head, head_in, step2, step3, shape_of, step5, step6};
ghost use Rattle.profile.specs.Inner.{SoundShape, number_checks, layout_checks};
ghost use Rattle.layout.specs.Inner.{counted_of};

use checks::Refusal;
use profile::{Numbers, Shape};
use tags::{STRIP_BYTE_COUNTS, STRIP_OFFSETS, TILE_BYTE_COUNTS, TILE_LENGTH, TILE_WIDTH};

// Segments across and in all, and the bytes of the output.
#[derive(Clone, Copy, Debug, PartialEq, Eq)]
pub struct Counts {
    pub across: usize,
    pub segments: usize,
    pub output: usize,
}

// Whether slots 4 and 8 are those of a head's pictures: the monochrome one's, or those of the one for colour.
#[tactic(auto, using(crate::proofs::HeadKinds::kinds))]
fn is_kind(n: Numbers, mono: bool) -> bool
    ensures { result ≡ kind_is n mono }
{
    n.photometric == head::photometric_of(mono) && n.samples == head::channels_of(mono)
}

// Whether they are those of one of the two heads.
#[tactic(auto, using(crate::proofs::HeadKinds::kinds))]
fn has_head(n: Numbers) -> bool
    ensures { result ≡ has_head n }
{
    is_kind(n, false) || is_kind(n, true)
}

// The head whose pictures have these numbers; where there is none, it is not asked for.
#[tactic(auto, using(crate::proofs::HeadKinds::kinds))]
pub fn is_mono(n: Numbers) -> bool
    ensures { result ≡ head_in n }
{
    is_kind(n, true)
}

// Step 2: the picture's sides and the kind of its samples.
#[tactic(auto, using(checks::proofs::Rules::verdicts), unfolding(profile::specs::Profile::step2))]
fn check_kind(n: Numbers, max_dimension: usize) -> Result<(), Refusal>
    ensures { result ≡ verdict (step2 n max_dimension) }
{
    if n.width == 0 || max_dimension < n.width || n.height == 0 || max_dimension < n.height {
        return Err(Refusal::Unsupported);
    }
    if n.compression != 34676 || !has_head(n) {
        return Err(Refusal::Unsupported);
    }
    Ok(())
}

// Step 3: nothing out of the ordinary, and no extra samples.
#[tactic(auto, using(checks::proofs::Rules::verdicts), unfolding(profile::specs::Profile::step3))]
fn check_plain(n: Numbers, extra: usize) -> Result<(), Refusal>
    ensures { result ≡ verdict (step3 n extra) }
{
    if n.fill_order != 1 || n.orientation != 1 || n.planar != 1 || n.predictor != 1 || extra != 0 {
        return Err(Refusal::Unsupported);
    }
    Ok(())
}

// Steps 2 and 3.
pub fn check_numbers(n: Numbers, extra: usize, max_dimension: usize) -> Result<(), Refusal>
    ensures { result ≡ verdict (number_checks n extra max_dimension) }
{
    check_kind(n, max_dimension)?;
    check_plain(n, extra)
}

// Step 5: tiles by their own sides, strips by the picture's width and the rows of a strip.
#[tactic(auto, using(crate::proofs::HeadKinds::kinds), unfolding(profile::specs::Profile::shape_of))]
pub fn shape_of(n: Numbers, tiled: bool) -> Shape
    ensures { result ≡ shape_of n tiled }
{
    let block_width = if tiled { n.tile_width } else { n.width };
    let block_height = if tiled {
        n.tile_height
    } else {
        n.strip_rows.min(n.height)
    };
    Shape {
        width: n.width,
        height: n.height,
        block_width,
        block_height,
        tiled,
        mono: is_mono(n),
    }
}

// Step 5: the block's sides.
#[tactic(auto, using(checks::proofs::Rules::verdicts), unfolding(profile::specs::Profile::step5))]
fn check_sides(s: Shape) -> Result<(), Refusal>
    ensures { result ≡ verdict (step5 s) }
{
    if s.block_width == 0 || 16384 < s.block_width {
        return Err(Refusal::Unsupported);
    }
    if s.block_height == 0 || 16384 < s.block_height {
        return Err(Refusal::Unsupported);
    }
    Ok(())
}

// Step 6: tiles have no strip's tags, and sides that are multiples of 16; strips have no tile's tags.
#[tactic(auto, using(checks::proofs::Rules::verdicts), unfolding(profile::specs::Profile::step6))]
fn check_tags(s: Shape, slots: [usize; 19]) -> Result<(), Refusal>
    ensures { result ≡ verdict (step6 s slots) }
{
    let mixed = if s.tiled {
        slots[STRIP_OFFSETS] != 0
            || slots[STRIP_BYTE_COUNTS] != 0
            || s.block_width % 16 != 0
            || s.block_height % 16 != 0
    } else {
        slots[TILE_WIDTH] != 0 || slots[TILE_LENGTH] != 0 || slots[TILE_BYTE_COUNTS] != 0
    };
    if mixed {
        return Err(Refusal::Invalid);
    }
    Ok(())
}

// Steps 5 and 6.
pub fn check_layout(s: Shape, slots: [usize; 19]) -> Result<(), Refusal>
    ensures { result ≡ verdict (layout_checks s slots) }
{
    check_sides(s)?;
    check_tags(s, slots)
}

// Step 7: a number above 2^64-1 is above every limit.
pub fn count_segments(s: Shape, max_segments: usize, max_output: usize) -> Result<Counts, Refusal>
    requires { SoundShape s }
    ensures { result ≡ counted_of s max_segments max_output }
{
    let across = geometry::pieces_of(s.width, s.block_width);
    let down = geometry::pieces_of(s.height, s.block_height);
    let segments = checks::product(across, down).ok_or(Refusal::Limit)?;
    if max_segments < segments {
        return Err(Refusal::Limit);
    }
    let size = head::bytes_of(s.mono);
    let output = checks::product3(size, s.width, s.height).ok_or(Refusal::Limit)?;
    if max_output < output {
        return Err(Refusal::Limit);
    }
    Ok(Counts {
        across,
        segments,
        output,
    })
}
