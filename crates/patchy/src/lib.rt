// Patchy reading: a picture of which not every block came. Each segment is marked, and one that is not good is blank.
#![tactic(auto)]

ghost use Rattle.std.specs.Prelude.{◌≡◌, replicate};
ghost use Rattle.lists.specs.Lists.{overlay};
ghost use Rattle.seen.specs.Seen.{seen};
ghost use Rattle.picture.specs.Picture.{scratch_of};
ghost use Rattle.admission.specs.Admission.{room_in};
ghost use Rattle.patchy.specs.Patchy.{sizes_of, reading, codes_over, output_after, scratch_after, quality_after};
ghost use Rattle.marking.specs.Marks.{shown_over};
ghost use Rattle.marking.specs.Inner.{Held};

use admission::Room;
use checks::Refused;
use header::Limits;
use picture::Format;

// The sides of a picture and of its blocks, the number of its segments, and the samples of a pixel.
#[derive(Clone, Copy, Debug, PartialEq, Eq)]
pub struct Sizes {
    pub width: usize,
    pub height: usize,
    pub block_width: usize,
    pub block_height: usize,
    pub segments: usize,
    pub channels: usize,
}

// The picture's sizes, and the units left.
#[derive(Clone, Copy, Debug, PartialEq, Eq)]
pub struct Reading {
    pub sizes: Sizes,
    pub left: usize,
}

#[tactic(auto, using(crate::proofs::Answers::sizes_told))]
fn sizes_of(format: Format) -> Sizes
    ensures { result ≡ sizes_of format }
{
    Sizes {
        width: format.width,
        height: format.height,
        block_width: format.block_width,
        block_height: format.block_height,
        segments: format.segments,
        channels: head::channels_of(format.mono),
    }
}

// All segments, by way of the part of scratch that is needed, which is then zeroed. Quality is zero after the last segment.
fn show_picture(
    file: &[u8],
    map: &[u8],
    format: Format,
    output: &mut [u8],
    scratch: &mut [u8],
    quality: &mut [u8],
)
    requires { Held (seen file.now map.now) format (room_in output.old scratch.old quality.old) }
    ensures picture { output.new ≡ shown_over (seen file.now map.now) format output.old }
    ensures cleared { scratch.new ≡ overlay (replicate (scratch_of format) 0) scratch.old }
    ensures marks { quality.new ≡ codes_over (seen file.now map.now) format quality.old }
{
    let needed = picture::scratch_of(format);
    marking::read_segments(file, map, format, output, &mut scratch[..needed], quality);
    clearing::clear(&mut scratch[..needed]);
    clearing::clear(&mut quality[format.segments..]);
}

// The limits, the map, header, directories and profile, the buffers and the charge, in order; then every segment gets its quality
// byte and its pixels. With no map the file came whole.
pub fn read(
    file: &[u8],
    map: &[u8],
    page: usize,
    limits: Limits,
    left: usize,
    output: &mut [u8],
    scratch: &mut [u8],
    quality: &mut [u8],
) -> Result<Reading, Refused>
    ensures value { result ≡ reading file.now map.now page limits output.old scratch.old quality.old left }
    ensures picture { output.new ≡ output_after (seen file.now map.now) page result output.old }
    ensures cleared { scratch.new ≡ scratch_after (seen file.now map.now) page result scratch.old }
    ensures marks { quality.new ≡ quality_after (seen file.now map.now) page result quality.old }
{
    let room = Room {
        output: output.len(),
        scratch: scratch.len(),
        quality: quality.len(),
    };
    match admission::admit(file, map, page, limits, room, left) {
        Err(refused) => {
            clearing::clear(quality);
            Err(refused)
        }
        Ok(found) => {
            show_picture(file, map, found.format, output, scratch, quality);
            Ok(Reading {
                sizes: sizes_of(found.format),
                left: found.left,
            })
        }
    }
}
