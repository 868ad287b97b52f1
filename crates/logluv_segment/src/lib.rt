// The strict check of a segment of a LogLuv picture: its plan, its fee, its packets.
#![tactic(auto)]

ghost use Rattle.std.specs.Prelude.{◌≡◌, ◌<◌};
ghost use Rattle.checks.specs.Checks.{run, verdict};
ghost use Rattle.seen.specs.Seen.{seen};
ghost use Rattle.packets.specs.Packets.{part};
ghost use Rattle.picture.specs.Inner.{Readable};
ghost use Rattle.logluv_segment.specs.Segment.{fill_checks, segment_checks};
ghost use Rattle.logluv_segment.specs.Inner.{InFile};

use checks::{Refusal, Refused};
use picture::Format;
use plan::Stored;

// The packets of bytes that are to fill a segment.
#[tactic(auto, using(crate::proofs::Checking::packets))]
pub fn check_packets(file: &[u8], format: Format, k: usize, stored: Stored) -> Result<(), Refusal>
    requires { InFile file.now format k stored.offset stored.count }
    ensures { result ≡ verdict (fill_checks format k (part file.now stored.offset stored.count)) }
{
    let Stored { offset, count } = stored;
    packets::check_part(
        &file[offset..offset + count],
        format.block_width,
        picture::needed_of(format, k),
    )
}

// One segment of a strict inspection: its plan, its fee, its packets.
pub fn check_segment(
    file: &[u8],
    map: &[u8],
    format: Format,
    max_output: usize,
    k: usize,
    left: usize,
) -> Result<usize, Refused>
    requires { Readable (seen file.now map.now) format × (k < format.segments) }
    ensures { result ≡ run (segment_checks (seen file.now map.now) format max_output k) left }
{
    let plan = plan::plan_segment(file, map, format, max_output, k).map_err(
        |refusal| refusal.leaving(left),
    )?;
    let rest = checks::spend(left, plan.fee)?;
    check_packets(file, format, k, plan.stored).map_err(|refusal| refusal.leaving(rest))?;
    Ok(rest)
}
