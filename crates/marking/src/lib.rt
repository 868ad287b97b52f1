// All segments of a patchy reading: each is read into its place and marked.
#![tactic(auto)]

ghost use Rattle.std.specs.Prelude.{◌≡◌, length};
ghost use Rattle.lists.specs.Lists.{overlay};
ghost use Rattle.seen.specs.Seen.{seen};
ghost use Rattle.admission.specs.Admission.{room_in};
ghost use Rattle.marking.specs.Inner.{Held};
ghost use Rattle.marking.specs.Marks.{codes_of, shown_over};

use picture::Format;

#[tactic(auto, using(crate::proofs::Marking::marking))]
pub fn read_segments(
    file: &[u8],
    map: &[u8],
    format: Format,
    output: &mut [u8],
    scratch: &mut [u8],
    quality: &mut [u8],
)
    requires { Held (seen file.now map.now) format (room_in output.old scratch.old quality.old) }
    ensures picture { output.new ≡ shown_over (seen file.now map.now) format output.old }
    ensures room { length scratch.new ≡ length scratch.old }
    ensures marks { quality.new ≡ overlay (codes_of (seen file.now map.now) format) quality.old }
{
    for k in 0..format.segments {
        quality[k] = reading::read_segment(file, map, format, k, scratch, output);
    }
}
