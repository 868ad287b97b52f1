// What passes the C face as words: the six limits, an answer's number, and a handle.
#![tactic(auto)]

ghost use Rattle.std.specs.Prelude.{◌≡◌};
ghost use Rattle.checks.specs.Numbers.{number_of, verdict_number};
ghost use Rattle.face_words.specs.Words.{limits_of, words_of, same_words};

use checks::Refusal;
use handle::Handle;
use header::Limits;

// The number of a refusal.
pub fn word_of(refusal: Refusal) -> usize
    ensures { result ≡ number_of refusal }
{
    usize::from(u8::from(refusal))
}

// The six limits, which C hands over one by one, in the order of rule 1.6.
pub fn limits_of(
    max_input: usize,
    max_output: usize,
    max_dimension: usize,
    max_directories: usize,
    max_tags: usize,
    max_segments: usize,
) -> Limits
    ensures { result ≡ limits_of max_input max_output max_dimension max_directories max_tags max_segments }
{
    Limits {
        max_input,
        max_output,
        max_dimension,
        max_directories,
        max_tags,
        max_segments,
    }
}

// The number of a call that charges nothing.
pub fn number_of(answer: Result<(), Refusal>) -> usize
    ensures { result ≡ verdict_number answer }
{
    match answer {
        Ok(()) => 0,
        Err(refusal) => word_of(refusal),
    }
}

// A handle as the words that a C caller holds.
pub fn words_of(handle: Handle) -> [usize; 17]
    ensures { result ≡ words_of handle }
{
    [
        handle.format.width,
        handle.format.height,
        head::channels_of(handle.format.mono),
        16,
        16,
        1,
        34676,
        handle.page,
        handle.format.entries,
        0,
        0,
        handle.format.output,
        handle.scratch,
        handle.work,
        handle.format.block_width,
        handle.format.block_height,
        handle.format.segments,
    ]
}

// Whether two lists of words are equal.
#[tactic(auto, using(crate::proofs::Comparing::word_by_word))]
pub fn same_words(a: &[usize], b: &[usize]) -> bool
    ensures { result ≡ same_words a.now b.now }
{
    a == b
}
