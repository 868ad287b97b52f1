// The C face of the reader: each function of include/chelmesut.h is one call of the proved library, with numbers for its answers.
// The crate chelmesut_c exports them to C; crates in Rattle, and the theorems of promises, stand on these.
#![tactic(auto)]

ghost use Rattle.face_words.specs.Words.{limits_of};
ghost use Rattle.chelmesut.specs.Face.{Inspect, Decode, ReadPatchy};
ghost use Rattle.face_leaves.specs.Leaves.{WorkLimit, Predictor64, Predictor3};
ghost use Rattle.trace.specs.Trace.{start, block};
ghost use Rattle.face_receiver.specs.Reception.{Receive, Replay};

use checks::Refusal;

// Strict inspection.
pub fn chelmesut_inspect(
    file: &[u8],
    page: usize,
    max_input: usize,
    max_output: usize,
    max_dimension: usize,
    max_directories: usize,
    max_tags: usize,
    max_segments: usize,
    budget: &mut usize,
    handle: &mut [usize; 17],
) -> usize
    ensures { Inspect file.now page
        (limits_of max_input max_output max_dimension max_directories max_tags max_segments)
        budget.old handle.old result budget.new handle.new }
{
    let limits = face_words::limits_of(
        max_input,
        max_output,
        max_dimension,
        max_directories,
        max_tags,
        max_segments,
    );
    match logluv_tiff::inspect(file, page, limits, *budget) {
        Ok(found) => {
            *budget = found.left;
            *handle = face_words::words_of(found.handle);
            0
        }
        Err(refused) => {
            *budget = refused.left;
            face_words::word_of(refused.refusal)
        }
    }
}

// Strict decode: words that are not a handle's 2, short buffers 6, the sum of the fees 7.
pub fn chelmesut_decode(
    file: &[u8],
    page: usize,
    max_input: usize,
    max_output: usize,
    max_dimension: usize,
    max_directories: usize,
    max_tags: usize,
    max_segments: usize,
    handle: &[usize; 17],
    budget: &mut usize,
    output: &mut [u8],
    scratch: &mut [u8],
) -> usize
    ensures { Decode file.now page
        (limits_of max_input max_output max_dimension max_directories max_tags max_segments)
        handle.now budget.old output.old scratch.old
        result budget.new output.new scratch.new }
{
    let limits = face_words::limits_of(
        max_input,
        max_output,
        max_dimension,
        max_directories,
        max_tags,
        max_segments,
    );
    // The inspection that the words are held to is not charged.
    let Ok(found) = logluv_tiff::inspect(file, page, limits, usize::MAX) else {
        return face_words::word_of(Refusal::Invalid);
    };
    if !face_words::same_words(&face_words::words_of(found.handle), handle) {
        return face_words::word_of(Refusal::Invalid);
    }
    match logluv_tiff::show_inspected(file, found.handle, *budget, output, scratch) {
        Ok(rest) => {
            *budget = rest;
            0
        }
        Err(refused) => {
            *budget = refused.left;
            face_words::word_of(refused.refusal)
        }
    }
}

// The reading with a delivery map.
pub fn chelmesut_read_patchy(
    file: &[u8],
    map: &[u8],
    page: usize,
    max_input: usize,
    max_output: usize,
    max_dimension: usize,
    max_directories: usize,
    max_tags: usize,
    max_segments: usize,
    budget: &mut usize,
    output: &mut [u8],
    scratch: &mut [u8],
    quality: &mut [u8],
    answer: &mut [usize; 6],
) -> usize
    ensures { ReadPatchy file.now page
        (limits_of max_input max_output max_dimension max_directories max_tags max_segments)
        map.now budget.old
        output.old scratch.old quality.old answer.old
        result budget.new output.new scratch.new quality.new answer.new }
{
    let limits = face_words::limits_of(
        max_input,
        max_output,
        max_dimension,
        max_directories,
        max_tags,
        max_segments,
    );
    match patchy::read(file, map, page, limits, *budget, output, scratch, quality) {
        Ok(reading) => {
            *budget = reading.left;
            *answer = [
                reading.sizes.width,
                reading.sizes.height,
                reading.sizes.block_width,
                reading.sizes.block_height,
                reading.sizes.segments,
                reading.sizes.channels,
            ];
            0
        }
        Err(refused) => {
            *budget = refused.left;
            face_words::word_of(refused.refusal)
        }
    }
}

// Upstream's bound on what inspection charges: above 2^64-1 it is 4.
pub fn chelmesut_work_limit(
    page: usize,
    max_input: usize,
    max_output: usize,
    max_dimension: usize,
    max_directories: usize,
    max_tags: usize,
    max_segments: usize,
    limit: &mut usize,
) -> usize
    ensures { WorkLimit page
        (limits_of max_input max_output max_dimension max_directories max_tags max_segments)
        limit.old result limit.new }
{
    let limits = face_words::limits_of(
        max_input,
        max_output,
        max_dimension,
        max_directories,
        max_tags,
        max_segments,
    );
    face_leaves::bound(page, limits, limit)
}

// The receiver: a picture begins.
pub fn chelmesut_receive_start(
    file: &mut [u8],
    map: &mut [u8],
    receiver: &mut [usize; 2],
    length: usize,
) -> usize
    ensures { Receive file.old map.old receiver.old (start length)
        result file.new map.new receiver.new }
{
    face_receiver::start(file, map, receiver, length)
}

// The receiver: a block comes.
pub fn chelmesut_receive_block(
    file: &mut [u8],
    map: &mut [u8],
    receiver: &mut [usize; 2],
    number: usize,
    bytes: &[u8],
) -> usize
    ensures { Receive file.old map.old receiver.old (block number bytes.now)
        result file.new map.new receiver.new }
{
    face_receiver::block(file, map, receiver, number, bytes)
}

// The receiver: a recorded trace, message by message.
pub fn chelmesut_replay(
    trace: &[u8],
    file: &mut [u8],
    map: &mut [u8],
    receiver: &mut [usize; 2],
) -> usize
    ensures { Replay file.old map.old receiver.old trace.now
        result file.new map.new receiver.new }
{
    face_receiver::replay(trace, file, map, receiver)
}

// The 64-bit integer predictor.
pub fn chelmesut_predictor64(
    raw: &[u8],
    width: usize,
    height: usize,
    channels: usize,
    reset_width: usize,
    little_endian: bool,
    predict: bool,
    output: &mut [u8],
) -> usize
    ensures { Predictor64 raw.now width height channels reset_width little_endian predict
        output.old result output.new }
{
    face_leaves::predictor64(
        raw,
        width,
        height,
        channels,
        reset_width,
        little_endian,
        predict,
        output,
    )
}

// The floating predictor.
pub fn chelmesut_predictor3(
    raw: &[u8],
    row: usize,
    channels: usize,
    sample_bytes: usize,
    little_endian: bool,
    scratch: &mut [u8],
    output: &mut [u8],
) -> usize
    ensures { Predictor3 raw.now row channels sample_bytes little_endian
        scratch.old output.old result scratch.new output.new }
{
    face_leaves::predictor3(
        raw,
        row,
        channels,
        sample_bytes,
        little_endian,
        scratch,
        output,
    )
}
