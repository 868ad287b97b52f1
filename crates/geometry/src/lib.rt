// How a picture is cut into segments, and what a segment of some area needs and costs: numbers alone.
#![tactic(auto)]

ghost use Rattle.std.specs.Prelude.{◌≡◌, ◌*◌, ◌<◌, ◌≤◌};
ghost use Rattle.checks.specs.Sizes.{within};
ghost use Rattle.geometry.specs.Geometry.{most_side, most_area, pieces, rows_of};
ghost use Rattle.geometry.specs.Costs.{needed_for, scratch_for, fee};
ghost use Rattle.geometry.specs.Inner.{Cut};

// Blocks along a side, the last of which may stand over.
#[tactic(auto, using(crate::proofs::Cutting::cutting))]
pub fn pieces_of(side: usize, block: usize) -> usize
    requires { (0 < side) × (0 < block) }
    ensures { (result ≡ pieces side block) × (result ≤ side) }
{
    (side - 1) / block + 1
}

// Rows of a segment: tiles are always full, the last strip may be short.
#[tactic(auto, using(crate::proofs::Cutting::cutting))]
pub fn rows_of(
    tiled: bool,
    height: usize,
    block_height: usize,
    across: usize,
    segment: usize,
) -> usize
    requires { Cut height block_height across segment }
    ensures { result ≡ rows_of tiled height block_height across segment }
{
    if tiled {
        return block_height;
    }
    (height - segment / across * block_height).min(block_height)
}

// Width × rows, neither above the greatest side of a block, so it is small.
#[tactic(auto, using(crate::proofs::Costing::costs))]
pub fn area(width: usize, rows: usize) -> usize
    requires { (width ≤ most_side) × (rows ≤ most_side) }
    ensures { (result ≡ width * rows) × (result ≤ most_area) }
{
    width * rows
}

// The bytes that packets must fill for an area.
#[tactic(auto, using(crate::proofs::Costing::costs))]
pub fn needed_for(mono: bool, area: usize) -> usize
    requires { area ≤ most_area }
    ensures { result ≡ needed_for mono area }
{
    head::planes_of(mono) * area
}

// The scratch by way of which an area is shown.
#[tactic(auto, using(crate::proofs::Costing::costs))]
pub fn scratch_for(mono: bool, area: usize) -> usize
    requires { area ≤ most_area }
    ensures { (result ≡ scratch_for mono area) × (result ≤ 10 * most_area) }
{
    (head::planes_of(mono) + head::bytes_of(mono)) * area
}

// What so many stored bytes and such an area cost.
#[tactic(auto, using(crate::proofs::Costing::costs))]
pub fn fee_of(mono: bool, count: usize, area: usize) -> Option<usize>
    requires { area ≤ most_area }
    ensures { result ≡ within (fee mono count area) }
{
    checks::sum(count, 2 * scratch_for(mono, area) + 1)
}
