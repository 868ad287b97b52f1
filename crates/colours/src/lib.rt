// The number of each pixel's colour: a grey where its segment is good, else the colour of what came of the segment.
#![tactic(auto)]

ghost use Rattle.std.specs.Prelude.{ℕ, ◌≡◌, ◌≤◌, length, get_or, MatchOption};
ghost use Rattle.lists.specs.Lists.{tabulate, overlay};
ghost use Rattle.geometry.specs.Geometry.{pieces};
ghost use Rattle.summary.specs.Grey.{whole_pixels};
ghost use Rattle.colours.specs.Colours.{tone_of, colour_of, pixel_segment, colour_at, coloured_in, colours_in};
ghost use Rattle.colours.specs.Inner.{Gridded};

use summary::grey;
use summary::grey::Picture;

// Rows of pixels that are cut into blocks, so many across.
#[derive(Clone, Copy)]
struct Grid {
    width: usize,
    block_width: usize,
    block_height: usize,
    across: usize,
    ghost sides: { Gridded width block_width block_height },
    ghost pieces_across: { (across ≡ pieces width block_width) × (across ≤ width) },
}

impl Grid {
    #[tactic(auto, using(crate::proofs::Colouring::segments))]
    fn segment_of(&self, p: usize) -> usize
        ensures { result ≡ pixel_segment self.now.width self.now.block_width self.now.block_height p }
    {
        p / self.width / self.block_height * self.across + p % self.width / self.block_width
    }

    // How many pixels so many rows have, or 0, as the definition says, where they are more than can be.
    #[tactic(auto, using(crate::proofs::Colouring::counting), unfolding(crate::specs::Colours::coloured_in))]
    fn count(&self, height: usize, most: usize) -> usize
        ensures all { result ≡ coloured_in self.now.width height self.now.block_width self.now.block_height most }
        ensures few { result ≤ most }
    {
        let Some(n) = checks::product(self.width, height) else {
            return 0;
        };
        if most < n { 0 } else { n }
    }
}

// None where a side is 0.
#[tactic(auto, unfolding(crate::specs::Colours::coloured_in))]
fn grid_of(width: usize, block_width: usize, block_height: usize) -> Option<Grid>
    ensures { MatchOption result ((height most : ℕ) → coloured_in width height block_width block_height most ≡ 0)
        (λ grid. (grid.width ≡ width) × (grid.block_width ≡ block_width) × (grid.block_height ≡ block_height)) }
{
    if width == 0 || block_width == 0 || block_height == 0 {
        return None;
    }
    Some(Grid {
        width,
        block_width,
        block_height,
        across: geometry::pieces_of(width, block_width),
    })
}

#[tactic(auto, unfolding(crate::specs::Colours::tone_of))]
fn tone_of(l: usize) -> usize
    ensures { result ≡ tone_of l }
{
    if l < 32768 {
        l.saturating_sub(12288) / 32
    } else {
        0
    }
}

#[tactic(auto, unfolding(crate::specs::Colours::colour_of))]
fn colour_of(code: u8, tone: usize) -> u8
    ensures { result ≡ colour_of code tone }
{
    match code {
        1 => tone.min(252) as u8,
        3 => 254,
        4 => 255,
        _ => 253,
    }
}

// A segment's code, 0 where there is none.
fn code_at(quality: &[u8], k: usize) -> u8
    ensures { result ≡ get_or quality.now k 0 }
{
    quality.get(k).copied().unwrap_or(0)
}

// The colours of the first pixels, as many as are lent.
#[tactic(auto, using(crate::proofs::Colouring::filling), unfolding(crate::specs::Colours::colour_at))]
fn fill(picture: &Picture, quality: &[u8], grid: &Grid, out: &mut [u8])
    requires { length out.old ≤ whole_pixels picture.now.size (length picture.now.bytes.now) }
    ensures { out.new ≡ tabulate (length out.old)
        (colour_at picture.now.size picture.now.bytes.now quality.now grid.now.width grid.now.block_width grid.now.block_height) }
{
    for (p, colour) in out.iter_mut().enumerate() {
        let code = code_at(quality, grid.segment_of(p));
        *colour = colour_of(code, tone_of(grey::light_at(picture, p)));
    }
}

// The colours of all pixels at the start of the buffer, and how many there are. Where there are none the buffer stays.
#[tactic(auto, using(crate::proofs::Colouring::coloured))]
pub fn put_colours(
    picture: &Picture,
    quality: &[u8],
    block_width: usize,
    block_height: usize,
    out: &mut [u8],
) -> usize
    ensures answer { result ≡ colours_in picture.now.size picture.now.width picture.now.height block_width block_height
        (length picture.now.bytes.now) (length out.old) }
    ensures buffer { out.new ≡ overlay
        (tabulate result (colour_at picture.now.size picture.now.bytes.now quality.now picture.now.width block_width block_height))
        out.old }
{
    let Some(grid) = grid_of(picture.width, block_width, block_height) else {
        return 0;
    };
    let most = records::least(
        grey::whole_pixels(picture.size, picture.bytes.len()),
        out.len(),
    );
    let n = grid.count(picture.height, most);
    fill(picture, quality, &grid, &mut out[..n]);
    n
}
