// The calls of the C face that read no file: the bound on inspection's charge and both predictors. They answer with numbers and take their
// arguments one by one, as C has them.
#![tactic(auto)]

ghost use Rattle.face_leaves.specs.Leaves.{WorkLimit, Predictor64, Predictor3};

use checks::Refusal;
use header::Limits;

// Upstream's bound on what inspection charges: above 2^64-1 it is 4.
#[tactic(auto, using(crate::proofs::Answered::bounding))]
pub fn bound(page: usize, limits: Limits, limit: &mut usize) -> usize
    ensures { WorkLimit page limits limit.old result limit.new }
{
    match work_limit::logluv_inspection_work_limit(page, limits) {
        Some(bound) => {
            *limit = bound;
            0
        }
        None => face_words::word_of(Refusal::Limit),
    }
}

// The 64-bit integer predictor.
#[tactic(auto, using(crate::proofs::Answered::predicting))]
pub fn predictor64(
    raw: &[u8],
    width: usize,
    height: usize,
    channels: usize,
    reset_width: usize,
    little_endian: bool,
    predict: bool,
    output: &mut [u8],
) -> usize
    ensures { Predictor64 raw.now width height channels reset_width little_endian predict
        output.old result output.new }
{
    face_words::number_of(float64::convert(
        raw,
        width,
        height,
        channels,
        reset_width,
        little_endian,
        predict,
        output,
    ))
}

// The floating predictor.
#[tactic(auto, using(crate::proofs::Answered::predicting))]
pub fn predictor3(
    raw: &[u8],
    row: usize,
    channels: usize,
    sample_bytes: usize,
    little_endian: bool,
    scratch: &mut [u8],
    output: &mut [u8],
) -> usize
    ensures { Predictor3 raw.now row channels sample_bytes little_endian
        scratch.old output.old result scratch.new output.new }
{
    face_words::number_of(native_fp::decode(
        raw,
        row,
        channels,
        sample_bytes,
        little_endian,
        scratch,
        output,
    ))
}
