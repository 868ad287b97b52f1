// A trace of any length, replayed through a window on its file.
ghost use Rattle.std.specs.Prelude.{◌≡◌, ◌≤◌, length, drop};
ghost use Rattle.std.specs.Io.{ReadsAtMost};
ghost use Rattle.lists.specs.Lists.{overlay};

use crate::messages;
use crate::messages::{Progress, Stop};
use buffers::{filled, read_full};
use std::io;
use std::io::Read;

// Longer than the longest message, which has 11 + 65535 bytes.
const WINDOW: usize = 131072;

// Why the trace ends where it does, or none where it goes on farther than it was taken; how many bytes the messages have that were
// taken, and what came of them.
#[derive(Clone, Copy)]
pub struct Replayed {
    pub stop: Option<Stop>,
    pub bytes: usize,
    pub progress: Progress,
}

// The bytes from a place on, moved to the front.
#[tactic(auto, using(crate::proofs::Moving::moved))]
fn move_up(window: &mut [u8], start: usize)
    requires { start ≤ length window.old }
    ensures { window.new ≡ overlay (drop start window.old) window.old }
{
    window.copy_within(start.., 0);
}

// The window filled behind the bytes that it keeps, and how many it has then.
fn fill(window: &mut [u8], kept: usize, source: &mut impl Read) -> io::Result<usize>
    requires { kept ≤ length window.old }
    ensures { ReadsAtMost result window.new }
{
    let more = read_full(source, &mut window[kept..])?;
    Ok(kept + more)
}

// The window is filled, the messages in it are taken, and what is left of it moves up, until no message can be taken. It holds the
// longest message, so the file has ended then, or what comes next is no message.
fn replay_in(
    window: &mut [u8],
    source: &mut impl Read,
    file: &mut [u8],
    map: &mut [u8],
) -> io::Result<Replayed> {
    let mut bytes = 0;
    let mut progress = Progress::none_yet();
    let mut kept = 0;
    while bytes <= usize::MAX - window.len() {
        let n = fill(window, kept, source)?;
        let taken = messages::take(&window[..n], file, map, progress);
        bytes += taken.size;
        progress = taken.progress;
        if taken.size == 0 {
            return Ok(Replayed {
                stop: Some(taken.stop),
                bytes,
                progress,
            });
        }
        move_up(window, taken.size);
        kept = n - taken.size;
    }
    Ok(Replayed {
        stop: None,
        bytes,
        progress,
    })
}

pub fn replay(source: &mut impl Read, file: &mut [u8], map: &mut [u8]) -> io::Result<Replayed> {
    let mut window = filled::<WINDOW>(0);
    replay_in(&mut window, source, file, map)
}
