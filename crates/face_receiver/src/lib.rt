// The calls of the C face over a receiver. As C has them, its state is two words, its answers are numbers, and what is lent comes one by
// one.
#![tactic(auto)]

ghost use Rattle.std.specs.Prelude.{◌≡◌};
ghost use Rattle.checks.specs.Numbers.{verdict_number};
ghost use Rattle.trace.specs.Trace.{start, block};
ghost use Rattle.face_receiver.specs.Reception.{receiver_of, receiver_words, Receive, Replay};

use receiver::{Received, Receiver};

// The receiver that words stand for.
fn receiver_of(words: &[usize; 2]) -> Receiver
    ensures { result ≡ receiver_of words.now }
{
    Receiver {
        started: words[0] == 1,
        length: words[1],
    }
}

// What a call of the receiver gives: the number of its answer, and the words of a receiver that has a start. Before one they stay.
#[tactic(auto, using(crate::proofs::Answered::keeping))]
fn hand_on(received: Received, words: &mut [usize; 2]) -> usize
    ensures number { result ≡ verdict_number received.answer }
    ensures state { words.new ≡ receiver_words received.receiver words.old }
{
    if received.receiver.started {
        *words = [1, received.receiver.length];
    }
    face_words::number_of(received.answer)
}

// A picture begins.
#[tactic(auto, using(crate::proofs::Answered::answering))]
pub fn start(file: &[u8], map: &mut [u8], words: &mut [usize; 2], length: usize) -> usize
    ensures { Receive file.now map.old words.old (start length) result file.now map.new
        words.new }
{
    let received = receiver::start(file, map, receiver_of(words), length);
    hand_on(received, words)
}

// A block comes.
#[tactic(auto, using(crate::proofs::Answered::answering))]
pub fn block(
    file: &mut [u8],
    map: &mut [u8],
    words: &mut [usize; 2],
    number: usize,
    bytes: &[u8],
) -> usize
    ensures { Receive file.old map.old words.old (block number bytes.now) result file.new
        map.new words.new }
{
    let received = receiver::block(file, map, receiver_of(words), number, bytes);
    hand_on(received, words)
}

// A trace is replayed.
#[tactic(auto, using(crate::proofs::Answered::answering))]
pub fn replay(trace: &[u8], file: &mut [u8], map: &mut [u8], words: &mut [usize; 2]) -> usize
    ensures { Replay file.old map.old words.old trace.now result file.new map.new
        words.new }
{
    let received = receiver::replay(trace, file, map, receiver_of(words));
    hand_on(received, words)
}
