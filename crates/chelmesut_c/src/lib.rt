// The exports that C programs link, one for each function of include/chelmesut.h: each calls the function of the crate chelmesut that
// has its name, and promises what that promises. C passes a slice as a pointer and a length, and numbers of 64 bits.
#![tactic(auto)]

ghost use Rattle.face_words.specs.Words.{limits_of};
ghost use Rattle.chelmesut.specs.Face.{Inspect, Decode, ReadPatchy};
ghost use Rattle.face_leaves.specs.Leaves.{WorkLimit, Predictor64, Predictor3};
ghost use Rattle.trace.specs.Trace.{start, block};
ghost use Rattle.face_receiver.specs.Reception.{Receive, Replay};

// Strict inspection.
#[unsafe(no_mangle)]
pub extern "C" fn chelmesut_inspect(
    file: &[u8],
    page: usize,
    max_input: usize,
    max_output: usize,
    max_dimension: usize,
    max_directories: usize,
    max_tags: usize,
    max_segments: usize,
    budget: &mut usize,
    handle: &mut [usize; 17],
) -> usize
    ensures { Inspect file.now page
        (limits_of max_input max_output max_dimension max_directories max_tags max_segments)
        budget.old handle.old result budget.new handle.new }
{
    chelmesut::chelmesut_inspect(
        file,
        page,
        max_input,
        max_output,
        max_dimension,
        max_directories,
        max_tags,
        max_segments,
        budget,
        handle,
    )
}

// Strict decode: words that are not a handle's 2, short buffers 6, the sum of the fees 7.
#[unsafe(no_mangle)]
pub extern "C" fn chelmesut_decode(
    file: &[u8],
    page: usize,
    max_input: usize,
    max_output: usize,
    max_dimension: usize,
    max_directories: usize,
    max_tags: usize,
    max_segments: usize,
    handle: &[usize; 17],
    budget: &mut usize,
    output: &mut [u8],
    scratch: &mut [u8],
) -> usize
    ensures { Decode file.now page
        (limits_of max_input max_output max_dimension max_directories max_tags max_segments)
        handle.now budget.old output.old scratch.old
        result budget.new output.new scratch.new }
{
    chelmesut::chelmesut_decode(
        file,
        page,
        max_input,
        max_output,
        max_dimension,
        max_directories,
        max_tags,
        max_segments,
        handle,
        budget,
        output,
        scratch,
    )
}

// The reading with a delivery map.
#[unsafe(no_mangle)]
pub extern "C" fn chelmesut_read_patchy(
    file: &[u8],
    map: &[u8],
    page: usize,
    max_input: usize,
    max_output: usize,
    max_dimension: usize,
    max_directories: usize,
    max_tags: usize,
    max_segments: usize,
    budget: &mut usize,
    output: &mut [u8],
    scratch: &mut [u8],
    quality: &mut [u8],
    answer: &mut [usize; 6],
) -> usize
    ensures { ReadPatchy file.now page
        (limits_of max_input max_output max_dimension max_directories max_tags max_segments)
        map.now budget.old
        output.old scratch.old quality.old answer.old
        result budget.new output.new scratch.new quality.new answer.new }
{
    chelmesut::chelmesut_read_patchy(
        file,
        map,
        page,
        max_input,
        max_output,
        max_dimension,
        max_directories,
        max_tags,
        max_segments,
        budget,
        output,
        scratch,
        quality,
        answer,
    )
}

// Upstream's bound on what inspection charges: above 2^64-1 it is 4.
#[unsafe(no_mangle)]
pub extern "C" fn chelmesut_work_limit(
    page: usize,
    max_input: usize,
    max_output: usize,
    max_dimension: usize,
    max_directories: usize,
    max_tags: usize,
    max_segments: usize,
    limit: &mut usize,
) -> usize
    ensures { WorkLimit page
        (limits_of max_input max_output max_dimension max_directories max_tags max_segments)
        limit.old result limit.new }
{
    chelmesut::chelmesut_work_limit(
        page,
        max_input,
        max_output,
        max_dimension,
        max_directories,
        max_tags,
        max_segments,
        limit,
    )
}

// The receiver: a picture begins.
#[unsafe(no_mangle)]
pub extern "C" fn chelmesut_receive_start(
    file: &mut [u8],
    map: &mut [u8],
    receiver: &mut [usize; 2],
    length: usize,
) -> usize
    ensures { Receive file.old map.old receiver.old (start length)
        result file.new map.new receiver.new }
{
    chelmesut::chelmesut_receive_start(file, map, receiver, length)
}

// The receiver: a block comes.
#[unsafe(no_mangle)]
pub extern "C" fn chelmesut_receive_block(
    file: &mut [u8],
    map: &mut [u8],
    receiver: &mut [usize; 2],
    number: usize,
    bytes: &[u8],
) -> usize
    ensures { Receive file.old map.old receiver.old (block number bytes.now)
        result file.new map.new receiver.new }
{
    chelmesut::chelmesut_receive_block(file, map, receiver, number, bytes)
}

// The receiver: a recorded trace, message by message.
#[unsafe(no_mangle)]
pub extern "C" fn chelmesut_replay(
    trace: &[u8],
    file: &mut [u8],
    map: &mut [u8],
    receiver: &mut [usize; 2],
) -> usize
    ensures { Replay file.old map.old receiver.old trace.now
        result file.new map.new receiver.new }
{
    chelmesut::chelmesut_replay(trace, file, map, receiver)
}

// The 64-bit integer predictor.
#[unsafe(no_mangle)]
pub extern "C" fn chelmesut_predictor64(
    raw: &[u8],
    width: usize,
    height: usize,
    channels: usize,
    reset_width: usize,
    little_endian: bool,
    predict: bool,
    output: &mut [u8],
) -> usize
    ensures { Predictor64 raw.now width height channels reset_width little_endian predict
        output.old result output.new }
{
    chelmesut::chelmesut_predictor64(
        raw,
        width,
        height,
        channels,
        reset_width,
        little_endian,
        predict,
        output,
    )
}

// The floating predictor.
#[unsafe(no_mangle)]
pub extern "C" fn chelmesut_predictor3(
    raw: &[u8],
    row: usize,
    channels: usize,
    sample_bytes: usize,
    little_endian: bool,
    scratch: &mut [u8],
    output: &mut [u8],
) -> usize
    ensures { Predictor3 raw.now row channels sample_bytes little_endian
        scratch.old output.old result scratch.new output.new }
{
    chelmesut::chelmesut_predictor3(
        raw,
        row,
        channels,
        sample_bytes,
        little_endian,
        scratch,
        output,
    )
}
