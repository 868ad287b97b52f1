// A picture whose profile is read: its format, and what it says of a segment: rows, area, scratch, and the part that is visible.
#![tactic(auto)]

ghost use Rattle.std.specs.Prelude.{◌≡◌, ◌<◌, ◌≤◌};
ghost use Rattle.geometry.specs.Geometry.{most_area};
ghost use Rattle.picture.specs.Picture.{rows_in, area_of, needed_of, scratch_of};
ghost use Rattle.picture.specs.Inner.{Valid, visible_of};

// A picture as its page's directory describes it: sizes, the places of the entries that hold the segments' offsets and counts,
// the number of the directory's entries; tiles or strips, the file's byte order and the head that made it. These three stand
// together, as a format that is handed on then takes less of the stack.
#[derive(Clone, Copy, Debug, PartialEq, Eq)]
pub struct Format {
    pub width: usize,
    pub height: usize,
    pub block_width: usize,
    pub block_height: usize,
    pub across: usize,
    pub segments: usize,
    pub output: usize,
    pub offsets: usize,
    pub counts: usize,
    pub entries: usize,
    pub tiled: bool,
    pub big: bool,
    pub mono: bool,
}

// The part of a segment that lies in the picture: its columns and rows, and the output byte that it begins with.
#[derive(Clone, Copy, Debug, PartialEq, Eq)]
pub struct Visible {
    pub columns: usize,
    pub rows: usize,
    pub first: usize,
}

// Rows of a segment: tiles are always full, the last strip may be short.
#[tactic(auto, using(crate::proofs::Sizes::sizes))]
pub fn rows_in(format: Format, k: usize) -> usize
    requires { Valid format × (k < format.segments) }
    ensures { (result ≡ rows_in format k) × (result ≤ format.block_height) }
{
    geometry::rows_of(
        format.tiled,
        format.height,
        format.block_height,
        format.across,
        k,
    )
}

// Its area: block width × rows.
#[tactic(auto, using(crate::proofs::Sizes::sizes))]
pub fn area_of(format: Format, k: usize) -> usize
    requires { Valid format × (k < format.segments) }
    ensures { (result ≡ area_of format k) × (result ≤ most_area) }
{
    geometry::area(format.block_width, rows_in(format, k))
}

// The bytes that its packets must fill.
#[tactic(auto, using(crate::proofs::Sizes::sizes))]
pub fn needed_of(format: Format, k: usize) -> usize
    requires { Valid format × (k < format.segments) }
    ensures { result ≡ needed_of format k }
{
    geometry::needed_for(format.mono, area_of(format, k))
}

// The scratch that the segments of a format need, by way of which they are shown.
#[tactic(auto, using(crate::proofs::Sizes::sizes))]
pub fn scratch_of(format: Format) -> usize
    requires { Valid format }
    ensures { result ≡ scratch_of format }
{
    geometry::scratch_for(
        format.mono,
        geometry::area(format.block_width, format.block_height),
    )
}

// What stands over the picture's edge is not visible.
#[tactic(auto, using(crate::proofs::Placing::places))]
pub fn visible_of(format: Format, k: usize) -> Visible
    requires { Valid format × (k < format.segments) }
    ensures { result ≡ visible_of format k }
{
    let top = k / format.across * format.block_height;
    let start = k % format.across * format.block_width;
    Visible {
        columns: (format.width - start).min(format.block_width),
        rows: (format.height - top).min(format.block_height),
        first: head::bytes_of(format.mono) * (top * format.width + start),
    }
}
