// The walk over an accepted picture's segments: all of them are shown.
ghost use Rattle.std.specs.Prelude.{◌≡◌, ◌≤◌, length};
ghost use Rattle.decoding.specs.Strict.{decoded_over};
ghost use Rattle.seen.specs.Seen.{seen};
ghost use Rattle.picture.specs.Picture.{scratch_of};
ghost use Rattle.showing.specs.Shown.{shown};
ghost use Rattle.decoding.specs.Inner.{PictureAccepted};

use picture::Format;

// Each segment in turn, by way of scratch into its place in the picture.
pub(crate) fn show_segments(
    file: &[u8],
    map: &[u8],
    format: Format,
    scratch: &mut [u8],
    output: &mut [u8],
)
    requires { PictureAccepted (seen file.now map.now) format × (scratch_of format ≤ length scratch.old) × (format.output ≤ length output.old) }
    ensures room { length scratch.new ≡ length scratch.old }
    ensures picture { output.new ≡ decoded_over (seen file.now map.now) format output.old }
{
    for k in 0..format.segments {
        // Its checks hold, so a refusal is never met.
        let Ok(stored) = plan::locate(file, map, format, k) else {
            return;
        };
        showing::show_segment(file, format, k, stored, scratch, output);
    }
}
