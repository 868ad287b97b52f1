// The picture as a file for a browser (PNG): grey where a segment is good, a colour where it is not.
ghost use Rattle.std.specs.Prelude.{◌≡◌, length, take};
ghost use Rattle.io.specs.Counts.{IsPrefixLen};
ghost use Rattle.report.specs.PngFile.{png_file_of};
ghost use Rattle.report.specs.Pixels.{bytes_for};

use crate::picture_of;
use patchy::Sizes;

// The file's bytes in the place of the picture, and how many there are. Scratch has the pixels' colours then.
#[tactic(auto, using(crate::proofs::ColourFile::colour_file))]
pub fn put_file(sizes: Sizes, quality: &[u8], picture: &mut [u8], scratch: &mut [u8]) -> usize
    ensures prefix_len { IsPrefixLen result picture.new }
    ensures picture_after { take result picture.new ≡ png_file_of (bytes_for sizes.channels) sizes.width sizes.height
        sizes.block_width sizes.block_height picture.old quality.now (length scratch.old) }
{
    let n = colours::put_colours(
        &picture_of(sizes, picture),
        quality,
        sizes.block_width,
        sizes.block_height,
        scratch,
    );
    png::put(&scratch[..n], sizes.width, sizes.height, picture)
}
