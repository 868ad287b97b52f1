// The messages of a part of a trace, given to the receiver one after the other, and its answers counted.
ghost use Rattle.std.specs.Prelude.{◌≡◌, ◌≤◌, length};
ghost use Rattle.receiver.specs.Receiver.{lent, Replays};
ghost use Rattle.replay.specs.Stops.{ending_of};

use checks::Refusal;
use receiver::{Received, Receiver};
use trace::Next;

// The receiver, how many messages it was given, and how many of them it answered with 0, 10, 11 and 12, as far as can be counted.
#[derive(Clone, Copy)]
pub struct Progress {
    pub receiver: Receiver,
    pub messages: usize,
    pub accepted: usize,
    pub too_long: usize,
    pub outside: usize,
    pub wrong_size: usize,
}

// Why no further message was taken: the bytes are over, they end within it, or it begins with a byte that begins none.
#[derive(Clone, Copy, Debug, PartialEq, Eq)]
pub enum Stop {
    Over,
    Cut,
    Foreign(u8),
}

// The same, how many bytes those messages have that were taken, and what came of them.
#[derive(Clone, Copy)]
pub struct Taken {
    pub stop: Stop,
    pub size: usize,
    pub progress: Progress,
}

impl Progress {
    pub fn none_yet() -> Self {
        Progress {
            receiver: receiver::idle(),
            messages: 0,
            accepted: 0,
            too_long: 0,
            outside: 0,
            wrong_size: 0,
        }
    }

    // The progress after one more answer.
    fn after(self, received: Received) -> Self
        ensures { result.receiver ≡ received.receiver }
    {
        let mut after = Progress {
            receiver: received.receiver,
            messages: self.messages.saturating_add(1),
            ..self
        };
        match received.answer {
            Ok(()) => after.accepted = after.accepted.saturating_add(1),
            Err(Refusal::ReceiverTooSmall) => { after.too_long = after.too_long.saturating_add(1) }
            Err(Refusal::NoSuchBlock) => after.outside = after.outside.saturating_add(1),
            Err(_) => after.wrong_size = after.wrong_size.saturating_add(1),
        }
        after
    }
}

// Message after message, until no whole one is left. The place moves on by a message's size, and is part of the answer.
#[tactic(auto, using(crate::proofs::Taking::taking))]
pub fn take(bytes: &[u8], file: &mut [u8], map: &mut [u8], progress: Progress) -> Taken
    ensures size_in_bounds { result.size ≤ length bytes.now }
    ensures replays { Replays bytes.now (lent progress.receiver file.old map.old) (ending_of result.stop)
        (lent result.progress.receiver file.new map.new) }
{
    let mut at: usize = 0;
    let mut after = progress;
    loop {
        match trace::first(&bytes[at..]) {
            Next::Start(length) => {
                let received = receiver::start(file, map, after.receiver, length);
                after = after.after(received);
                at += 9;
            }
            Next::Block(number, size) => {
                let from = at + 11;
                let to = from + size;
                let received = receiver::block(file, map, after.receiver, number, &bytes[from..to]);
                after = after.after(received);
                at = to;
            }
            Next::Over => return Taken {
                stop: Stop::Over,
                size: at,
                progress: after,
            },
            Next::Cut => return Taken {
                stop: Stop::Cut,
                size: at,
                progress: after,
            },
            Next::Foreign => return Taken {
                stop: Stop::Foreign(bytes[at]),
                size: at,
                progress: after,
            },
        }
    }
}
