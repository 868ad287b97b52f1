// The quality of one segment under a delivery map, its number, and what it is charged.
#![tactic(auto)]

ghost use Rattle.std.specs.Prelude.{◌≡◌, ◌<◌};
ghost use Rattle.checks.specs.Sizes.{within};
ghost use Rattle.seen.specs.Seen.{seen};
ghost use Rattle.picture.specs.Inner.{Readable};
ghost use Rattle.quality.specs.Quality.{code_is, quality_is, segment_charge};

use checks::Refusal;
use picture::Format;
use plan::Stored;

// Good, with its stored bytes; bytes in the file that did not come; bytes outside the file; packets that are not accepted.
#[derive(Clone, Copy, Debug, PartialEq, Eq)]
pub enum Quality {
    Good(Stored),
    Missing,
    Outside,
    Rejected,
}

// What stands in the quality buffer for a segment.
impl From<Quality> for u8 {
    ghost from_gives = { λ quality number. number ≡ code_is quality };

    fn from(quality: Quality) -> u8 {
        match quality {
            Quality::Good(_) => 1,
            Quality::Missing => 2,
            Quality::Outside => 3,
            Quality::Rejected => 4,
        }
    }
}

// The entries and the range, then the packets: the first that applies.
#[tactic(auto, using(crate::proofs::Judging::judging))]
pub fn quality_of(file: &[u8], map: &[u8], format: Format, k: usize) -> Quality
    requires { Readable (seen file.now map.now) format × (k < format.segments) }
    ensures { result ≡ quality_is (seen file.now map.now) format k }
{
    match plan::locate(file, map, format, k) {
        Err(refusal) if refusal == Refusal::Truncated => Quality::Outside,
        Err(_) => Quality::Missing,
        Ok(stored) => match logluv_segment::check_packets(file, format, k, stored) {
            Ok(()) => Quality::Good(stored),
            Err(_) => Quality::Rejected,
        },
    }
}

// One unit, or the fee where the stored bytes are there, be their packets accepted or not.
#[tactic(auto, using(crate::proofs::Judging::judging))]
pub fn charge_of(file: &[u8], map: &[u8], format: Format, k: usize) -> Option<usize>
    requires { Readable (seen file.now map.now) format × (k < format.segments) }
    ensures { result ≡ within (segment_charge (seen file.now map.now) format k) }
{
    match plan::locate(file, map, format, k) {
        Err(_) => Some(1),
        Ok(stored) => geometry::fee_of(format.mono, stored.count, picture::area_of(format, k)),
    }
}
