// The one charge for all segments, which is known before any is read.
ghost use Rattle.std.specs.Prelude.{◌≡◌};
ghost use Rattle.checks.specs.Sizes.{within};
ghost use Rattle.seen.specs.Seen.{seen};
ghost use Rattle.picture.specs.Inner.{Readable};
ghost use Rattle.admission.specs.Admission.{picture_charge};

use picture::Format;

// What the segments are charged, each in turn; a sum above 2^64-1 is over.
pub(crate) fn charge_all(file: &[u8], map: &[u8], format: Format) -> Option<usize>
    requires { Readable (seen file.now map.now) format }
    ensures { result ≡ within (picture_charge (seen file.now map.now) format) }
{
    let mut total: usize = 0;
    for k in 0..format.segments {
        let charge = quality::charge_of(file, map, format, k)?;
        total = checks::sum(total, charge)?;
    }
    Some(total)
}
