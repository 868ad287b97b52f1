// One segment of a patchy reading: its number, and its pixels or zeros put into the picture.
#![tactic(auto)]

ghost use Rattle.std.specs.Prelude.{◌≡◌, ◌<◌, ◌≤◌, length};
ghost use Rattle.lists.specs.Lists.{overlay};
ghost use Rattle.seen.specs.Seen.{seen};
ghost use Rattle.picture.specs.Picture.{painted};
ghost use Rattle.quality.specs.Quality.{code_of, shows_of};
ghost use Rattle.reading.specs.Inner.{planes_read, SegmentReadable};

use picture::Format;
use quality::Quality;

// The number of a segment, whose pixels are put into the picture where it is good and made zero where it is not.
#[tactic(auto, using(crate::proofs::Reading::reads))]
pub fn read_segment(
    file: &[u8],
    map: &[u8],
    format: Format,
    k: usize,
    scratch: &mut [u8],
    output: &mut [u8],
) -> u8
    requires { SegmentReadable (seen file.now map.now) format k (length scratch.old) (length output.old) }
    ensures code { result ≡ code_of (seen file.now map.now) format k }
    ensures planes { scratch.new ≡ overlay (planes_read (seen file.now map.now) format k) scratch.old }
    ensures picture { output.new ≡ painted format k (shows_of (seen file.now map.now) format k) output.old }
{
    let quality = quality::quality_of(file, map, format, k);
    let code = u8::from(quality);
    match quality {
        Quality::Good(stored) => showing::show_segment(file, format, k, stored, scratch, output),
        Quality::Missing | Quality::Outside | Quality::Rejected => paint::blank(format, k, output),
    }
    code
}
