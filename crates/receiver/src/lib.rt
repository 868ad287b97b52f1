// The receiver of a bus: starts and blocks over a lent file buffer and map, and the replay of a recorded trace.
#![tactic(auto)]

ghost use Rattle.std.specs.Prelude.{◌≡◌, false, length};
ghost use Rattle.checks.specs.Checks.{verdict};
ghost use Rattle.trace.specs.Trace.{start, block};
ghost use Rattle.receiver.specs.Receiver.{lent, suffices_for, block_checks, Answers, Replays};
ghost use Rattle.receiver.specs.Inner.{HasPlace, Placed};

use checks::Refusal;
use trace::Next;

// Whether a start was accepted, and the length of its picture. By itself it holds nothing else: file buffer and map are lent.
// No Option: a receiver has a length before any start too, which C lends in the second word and `vectors` prints.
#[derive(Clone, Copy, Debug, PartialEq, Eq)]
pub struct Receiver {
    pub started: bool,
    pub length: usize,
}

// The answer to a message or to a trace, and the receiver after it, which it has beside a refusal too.
#[derive(Clone, Copy, Debug, PartialEq, Eq)]
pub struct Received {
    pub answer: Result<(), Refusal>,
    pub receiver: Receiver,
}

// A receiver before any start.
pub fn idle() -> Receiver
    ensures { (result.started ≡ false) × (result.length ≡ 0) }
{
    Receiver {
        started: false,
        length: 0,
    }
}

// Whether buffers of these lengths suffice for a picture of this size.
fn suffices(size: usize, file: usize, map: usize) -> bool
    ensures { result ≡ suffices_for size file map }
{
    size <= file && seen::map_length(size) <= map
}

// A picture begins: buffers that are too short are 10. The whole map says then that nothing came; the bytes stay.
pub fn start(file: &[u8], map: &mut [u8], receiver: Receiver, length: usize) -> Received
    ensures { Answers (start length) (lent receiver file.now map.old) result.answer
        (lent result.receiver file.now map.new) }
{
    if !suffices(length, file.len(), map.len()) {
        return Received {
            answer: Err(Refusal::ReceiverTooSmall),
            receiver,
        };
    }
    map.fill(0);
    Received {
        answer: Ok(()),
        receiver: Receiver {
            started: true,
            length,
        },
    }
}

// Whether a block of this number and size is taken: buffers that are too short for the picture 10, a number outside it or before
// any start 11, a wrong size 12.
#[tactic(auto, using(crate::proofs::Receiving::admissions))]
fn admits(
    receiver: Receiver,
    number: usize,
    size: usize,
    file: usize,
    map: usize,
) -> Result<(), Refusal>
    ensures { result ≡ verdict (block_checks receiver number size file map) }
{
    let length = receiver.length;
    if !receiver.started {
        return Err(Refusal::NoSuchBlock);
    }
    if !suffices(length, file, map) {
        return Err(Refusal::ReceiverTooSmall);
    }
    if seen::blocks_in(length) <= number {
        return Err(Refusal::NoSuchBlock);
    }
    if size != seen::block_length(length, number) {
        return Err(Refusal::BlockSize);
    }
    Ok(())
}

// The bytes of a block go to their place in the file buffer, and the map says that it came.
fn place(file: &mut [u8], map: &mut [u8], number: usize, bytes: &[u8])
    requires { HasPlace number (length bytes.now) (length file.old) (length map.old) }
    ensures { Placed number bytes.now file.old map.old file.new map.new }
{
    placing::append(bytes, file, number * 512);
    seen::mark_came(map, number);
}

// A block comes, and is placed if it is admitted.
pub fn block(
    file: &mut [u8],
    map: &mut [u8],
    receiver: Receiver,
    number: usize,
    bytes: &[u8],
) -> Received
    ensures { Answers (block number bytes.now) (lent receiver file.old map.old) result.answer
        (lent result.receiver file.new map.new) }
{
    let answer = admits(receiver, number, bytes.len(), file.len(), map.len());
    if answer.is_ok() {
        place(file, map, number, bytes);
    }
    Received { answer, receiver }
}

// A trace, message by message. What came before the message at which it stops stays.
#[tactic(auto, using(crate::proofs::Replaying::ends))]
pub fn replay(trace: &[u8], file: &mut [u8], map: &mut [u8], receiver: Receiver) -> Received
    ensures { Replays trace.now (lent receiver file.old map.old) result.answer
        (lent result.receiver file.new map.new) }
{
    let mut at = 0;
    let mut state = receiver;
    let answer = loop {
        match trace::first(&trace[at..]) {
            Next::Start(length) => {
                state = start(file, map, state, length).receiver;
                at += 9;
            }
            Next::Block(number, size) => {
                let from = at + 11;
                let to = from + size;
                state = block(file, map, state, number, &trace[from..to]).receiver;
                at = to;
            }
            Next::Over => break Ok(()),
            Next::Cut => break Err(Refusal::Truncated),
            Next::Foreign => break Err(Refusal::Invalid),
        }
    };
    Received {
        answer,
        receiver: state,
    }
}
