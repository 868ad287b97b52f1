// The plan of a segment: where its stored bytes lie and what it costs, or the number of the check that refuses it.
#![tactic(auto)]

ghost use Rattle.std.specs.Prelude.{◌≡◌, ◌<◌};
ghost use Rattle.seen.specs.Seen.{seen};
ghost use Rattle.picture.specs.Inner.{Readable};
ghost use Rattle.plan.specs.Plan.{place_is, plan_is};

use checks::Refusal;
use picture::Format;

// Where a segment's stored bytes lie in the file, and how many there are.
#[derive(Clone, Copy, Debug, PartialEq, Eq)]
pub struct Stored {
    pub offset: usize,
    pub count: usize,
}

// A segment's stored bytes and its fee.
#[derive(Clone, Copy, Debug, PartialEq, Eq)]
pub struct Plan {
    pub stored: Stored,
    pub fee: usize,
}

// The entry of the offset, that of the count, then the range: outside 1, not arrived 8.
pub fn locate(file: &[u8], map: &[u8], format: Format, k: usize) -> Result<Stored, Refusal>
    requires { Readable (seen file.now map.now) format × (k < format.segments) }
    ensures { result ≡ place_is (seen file.now map.now) format k }
{
    let offset = entries::value_at(file, map, format.big, format.offsets, k)?;
    let count = entries::value_at(file, map, format.big, format.counts, k)?;
    seen::need(file, map, offset, count)?;
    Ok(Stored { offset, count })
}

// Then the scratch of its area within max_output, and the fee.
pub fn plan_segment(
    file: &[u8],
    map: &[u8],
    format: Format,
    max_output: usize,
    k: usize,
) -> Result<Plan, Refusal>
    requires { Readable (seen file.now map.now) format × (k < format.segments) }
    ensures { result ≡ plan_is (seen file.now map.now) format max_output k }
{
    let stored = locate(file, map, format, k)?;
    let area = picture::area_of(format, k);
    if max_output < geometry::scratch_for(format.mono, area) {
        return Err(Refusal::Limit);
    }
    let fee = geometry::fee_of(format.mono, stored.count, area).ok_or(Refusal::Limit)?;
    Ok(Plan { stored, fee })
}
