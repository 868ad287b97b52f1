// A segment whose packets are accepted, shown: by way of scratch into its place in the picture.
#![tactic(auto)]

ghost use Rattle.std.specs.Prelude.{◌≡◌, ◌≤◌, length};
ghost use Rattle.lists.specs.Lists.{overlay};
ghost use Rattle.packets.specs.Packets.{part};
ghost use Rattle.picture.specs.Picture.{needed_of, painted};
ghost use Rattle.showing.specs.Shown.{planes_in, shown_by};
ghost use Rattle.showing.specs.Inner.{SegmentShowable};

use picture::Format;
use plan::Stored;

// Bytes whose packets are accepted: their planes into scratch, their pixels into the picture.
#[tactic(auto, using(crate::proofs::Showing::showing))]
pub fn show_segment(
    file: &[u8],
    format: Format,
    k: usize,
    stored: Stored,
    scratch: &mut [u8],
    output: &mut [u8],
)
    requires { SegmentShowable file.now format k stored.offset stored.count × (needed_of format k ≤ length scratch.old) × (format.output ≤ length output.old) }
    ensures planes { scratch.new ≡ overlay (planes_in (part file.now stored.offset stored.count)) scratch.old }
    ensures picture { output.new ≡ painted format k (shown_by format k (part file.now stored.offset stored.count)) output.old }
{
    let Stored { offset, count } = stored;
    let needed = picture::needed_of(format, k);
    logluv::expand_part(&file[offset..offset + count], needed, scratch);
    paint::paint(&scratch[..needed], format, k, output);
}
