// A segment put into its place in the picture: its planes as pixels, or zeros where it is blank.
#![tactic(auto)]

ghost use Rattle.std.specs.Prelude.{◌≡◌, [], ◌<◌, ◌≤◌, length};
ghost use Rattle.picture.specs.Picture.{needed_of, painted};
ghost use Rattle.picture.specs.Inner.{Valid};
ghost use Rattle.paint.specs.Paint.{pixels_of};

use picture::Format;

// A segment's planes as pixels in the picture: what stands over the picture's edge goes nowhere.
#[tactic(auto, using(crate::proofs::Parts::parts))]
pub fn paint(planes: &[u8], format: Format, k: usize, out: &mut [u8])
    requires { Valid format × (k < format.segments) × (needed_of format k ≤ length planes.now) × (format.output ≤ length out.old) }
    ensures { out.new ≡ painted format k (pixels_of format k planes.now) out.old }
{
    let visible = picture::visible_of(format, k);
    luv::scatter(
        format.mono,
        planes,
        format.block_width,
        visible.columns,
        visible.rows,
        visible.first,
        head::bytes_of(format.mono) * format.width,
        out,
    );
}

// A segment that shows nothing: a pixel's zero bytes for each of its pixels in the picture, and nothing else touched.
#[tactic(auto, using(crate::proofs::Parts::parts))]
pub fn blank(format: Format, k: usize, out: &mut [u8])
    requires { Valid format × (k < format.segments) × (format.output ≤ length out.old) }
    ensures { out.new ≡ painted format k [] out.old }
{
    let size = head::bytes_of(format.mono);
    let visible = picture::visible_of(format, k);
    clearing::clear_rows(
        size * visible.columns,
        visible.rows,
        visible.first,
        size * format.width,
        out,
    );
}
