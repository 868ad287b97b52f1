// What the programs share that show a picture to a person: names and files taken in, the picture read and reported on, and L
// written as a file.
#![tactic(auto)]

ghost use Rattle.std.specs.Prelude.{◌≡◌};
ghost use Rattle.report.specs.Pixels.{bytes_for};

use arguments::{Kind, Target};
use buffers::filled;
use checks::Refused;
use complain::{Complained, Complaints};
use header::Limits;
use patchy::{Reading, Sizes};
use piecewise::Piecewise;
use std::rt::Files;
use summary::grey::Picture;

// The names that a program is given.
pub mod arguments;

// What went wrong.
pub mod complain;

// What came of a reading, for a caller who must know whether its output took it.
pub mod lines;

// A file's bytes.
pub mod load;

// The picture with colours.
mod png_file;

// The refusals in words.
mod refusal;

// A file that is written.
mod save;

// What came of a reading, as the programs put it.
pub mod pieces;

// Text and bytes, each piece tried.
pub mod piecewise;

// The lines on an output that takes so many calls and no more.
#[cfg(test)]
mod tests;

// The most bytes of a picture's file, of the picture and of scratch.
pub const MOST: usize = 2097152;

// As many as there are quality bytes.
const SEGMENTS: usize = 65536;

fn limits() -> Limits {
    Limits {
        max_input: MOST,
        max_output: MOST,
        max_dimension: 65535,
        max_directories: 1,
        max_tags: 4096,
        max_segments: SEGMENTS,
    }
}

// The bytes of a pixel: two for L, and in a colour picture two more for each of u and v.
#[tactic(auto, using(crate::proofs::PixelBytes::two_bytes, crate::proofs::PixelBytes::six_bytes))]
fn bytes_a_pixel(channels: usize) -> usize
    ensures { result ≡ bytes_for channels }
{
    if channels == 1 { 2 } else { 6 }
}

// The picture that was read, for what shows it.
fn picture_of(sizes: Sizes, bytes: &[u8]) -> Picture<'_>
    ensures bytes { result.bytes.now ≡ bytes.now }
    ensures size { result.size ≡ bytes_for sizes.channels }
    ensures sides { (result.width ≡ sizes.width) × (result.height ≡ sizes.height) }
{
    Picture {
        bytes,
        size: bytes_a_pixel(sizes.channels),
        width: sizes.width,
        height: sizes.height,
    }
}

// The blocks, the refusal and the charge. There is nothing to write then.
fn report_refusal(
    out: &Piecewise<impl Print>,
    target: Option<Target>,
    map: &[u8],
    refused: Refused,
) {
    pieces::put_blocks(out, map);
    refusal::put(out, refused.refusal, limits());
    pieces::put_charge(out, refused.left);
    pieces::put_unwritten(out, target);
}

// The sizes, the blocks, the quality of each segment, what to mind there, and the charge.
fn report_picture(
    out: &Piecewise<impl Print>,
    map: &[u8],
    sizes: Sizes,
    quality: &[u8],
    left: usize,
) {
    let n = sizes.segments.min(quality.len());
    pieces::put_sizes(out, sizes);
    pieces::put_blocks(out, map);
    pieces::put_quality(out, &quality[..n]);
    pieces::put_caution(out, sizes);
    pieces::put_charge(out, left);
}

// The bytes of the file, in the place of the picture or in scratch; none where there is no room for them.
fn file_of<'a>(
    kind: Kind,
    sizes: Sizes,
    quality: &[u8],
    picture: &'a mut [u8],
    scratch: &'a mut [u8],
) -> &'a [u8] {
    match kind {
        Kind::Png => {
            let n = png_file::put_file(sizes, quality, picture, scratch);
            &picture[..n]
        }
        Kind::Pgm => {
            let n = pgm::put(&picture_of(sizes, picture), scratch);
            &scratch[..n]
        }
    }
}

fn write_picture(
    rt: &(impl Print + Files),
    complaints: &Complaints<impl Print>,
    target: Target,
    sizes: Sizes,
    quality: &[u8],
    picture: &mut [u8],
    scratch: &mut [u8],
) -> Result<(), Complained> {
    let kind = target.kind;
    let file = file_of(kind, sizes, quality, picture, scratch);
    if file.is_empty() {
        return Err(complaints.own_about(
            "cannot write '",
            target.name,
            format_args!("': there is no room here for so large a {kind} file\n"),
        ));
    }
    save::save(rt, complaints, target, sizes, file)
}

// Reads the picture, reports what came of it, and writes it where that is asked for. What standard output does not take of the report
// is lost, and the rest of it is still tried.
pub fn show(
    rt: &(impl Print + Files),
    complaints: &Complaints<impl Print>,
    target: Option<Target>,
    file: &[u8],
    map: &[u8],
) -> Result<(), Complained> {
    let mut output = filled::<MOST>(0);
    let mut scratch = filled::<MOST>(0);
    let mut quality = filled::<SEGMENTS>(0);
    match patchy::read(
        file,
        map,
        0,
        limits(),
        usize::MAX,
        &mut output,
        &mut scratch,
        &mut quality,
    ) {
        Err(refused) => {
            report_refusal(&Piecewise(rt), target, map, refused);
            Ok(())
        }
        Ok(Reading { sizes, left }) => {
            report_picture(&Piecewise(rt), map, sizes, &quality, left);
            match target {
                Some(target) => write_picture(
                    rt,
                    complaints,
                    target,
                    sizes,
                    &quality,
                    &mut output,
                    &mut scratch,
                ),
                None => Ok(()),
            }
        }
    }
}
