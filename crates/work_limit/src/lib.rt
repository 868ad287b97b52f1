// Upstream's bound on what an inspection charges, from the page and the limits alone: one part for the directories and the profile, one
// for the segments.
#![tactic(auto)]

ghost use Rattle.std.specs.Prelude.{◌≡◌, ◌+◌, ◌*◌};
ghost use Rattle.checks.specs.Sizes.{within};
ghost use Rattle.work_limit.specs.WorkLimit.{work_bound};

use header::Limits;

// As many directories as lie up to the page, each with as many entries as are allowed, and the profile.
fn front_bound(page: usize, max_tags: usize) -> Option<usize>
    ensures { result ≡ within ((page + 1) * (max_tags + 1) + 128) }
{
    let directories = checks::sum(page, 1)?;
    let fee = checks::sum(max_tags, 1)?;
    checks::sum(checks::product(directories, fee)?, 128)
}

// One segment: a file of stored bytes, and two units for each byte of output.
fn segment_bound(max_input: usize, max_output: usize) -> Option<usize>
    ensures { result ≡ within (max_input + 2 * max_output + 1) }
{
    let twice = checks::product(2, max_output)?;
    checks::sum(checks::sum(max_input, twice)?, 1)
}

// As many segments as are allowed: where none is, nothing is charged for them, however large one may be.
fn segments_bound(max_segments: usize, max_input: usize, max_output: usize) -> Option<usize>
    ensures { result ≡ within (max_segments * (max_input + 2 * max_output + 1)) }
{
    if max_segments == 0 {
        return Some(0);
    }
    checks::product(max_segments, segment_bound(max_input, max_output)?)
}

// Where it answers, at least what an accepted inspection of the page charges under these limits; above 2^64-1 there is none.
pub fn logluv_inspection_work_limit(page: usize, limits: Limits) -> Option<usize>
    ensures { result ≡ within (work_bound page limits) }
{
    let front = front_bound(page, limits.max_tags)?;
    let segments = segments_bound(limits.max_segments, limits.max_input, limits.max_output)?;
    checks::sum(front, segments)
}
