// replay TRACE [OUT]: gives the messages of a recorded bus trace to the receiver, says how it answered them, and shows the picture
// that came as strips does. With OUT it writes the L plane as a picture.
#![tactic(auto)]

use buffers::filled;
use report::arguments::Target;
use report::complain::{Complained, Complaints};
use report::piecewise::Piecewise;
use report::{arguments, load};
use std::io;
use std::rt::{Env, Files};
use stream::Replayed;

// What went wrong.
mod complain;

// What came of a trace.
mod lines;

// Messages taken, and their answers counted.
mod messages;

// A trace of any length.
mod stream;

// The longest name of a file, and the most blocks of a picture for which there is room.
const NAME: usize = 4096;

const BLOCKS: usize = 4096;

// The program's own name, TRACE and OUT.
const MOST_ARGUMENTS: usize = 3;

fn tell(out: &Piecewise<impl Print>, name: &[u8], replayed: Replayed) {
    out.bytes(name);
    out.print("\n");
    lines::put_messages(out, replayed.progress);
    lines::put_end(out, replayed);
}

// The picture as far as it came. Without a start there is none. What standard output does not take is lost.
fn show(
    rt: &(impl Print + Files),
    complaints: &Complaints<impl Print>,
    target: Option<Target>,
    replayed: Replayed,
    file: &[u8],
    map: &[u8],
) -> Result<(), Complained> {
    let receiver = replayed.progress.receiver;
    let out = Piecewise(rt);
    if !receiver.started {
        out.print("  picture   none, as no start was accepted\n");
        report::pieces::put_unwritten(&out, target);
        return Ok(());
    }
    // The buffers hold all of it, else its start was refused.
    let bytes = receiver.length.min(file.len());
    let blocks = seen::blocks_in(bytes).min(map.len());
    print!(out; "  picture   {bytes} bytes in {blocks} blocks\n");
    report::show(rt, complaints, target, &file[..bytes], &map[..blocks])
}

fn replay_file(
    rt: &impl Files,
    name: &[u8],
    file: &mut [u8],
    map: &mut [u8],
) -> io::Result<Replayed> {
    let mut source = load::open(rt, name)?;
    stream::replay(&mut source, file, map)
}

// The whole trace is replayed before anything is told of it.
fn run(
    rt: &(impl Print + Files),
    complaints: &Complaints<impl Print>,
    name: &[u8],
    target: Option<Target>,
) -> Result<(), Complained> {
    let mut file = filled::<{ report::MOST }>(0);
    let mut map = filled::<BLOCKS>(0);
    let replayed = replay_file(rt, name, &mut file, &mut map).map_err(|error| complaints.failed(
        "cannot read the trace '",
        name,
        &error,
    ))?;
    tell(&Piecewise(rt), name, replayed);
    show(rt, complaints, target, replayed, &file, &map)
}

// Where it is not clear what to write, nothing is read.
fn start(
    rt: &(impl Print + Files + Env),
    complaints: &Complaints<impl Print>,
) -> Result<(), Complained> {
    let mut name = filled::<NAME>(0);
    let mut out = filled::<NAME>(0);
    let name = arguments::argument(rt, complaints, 1, &mut name);
    let out = arguments::argument(rt, complaints, 2, &mut out);
    // Each of them is complained of that is too long.
    let (name, out) = (name?, out?);
    let Some(name) = name else {
        return Err(complain::usage(complaints));
    };
    run(rt, complaints, name, arguments::target_of(complaints, out)?)
}

fn main(rt: HostRuntime) {
    let complaints = Complaints {
        errors: rt.stderr(),
        program: "replay",
    };
    let given = arguments::count(&rt);
    let _ = if MOST_ARGUMENTS < given {
        Err(complain::too_many(&complaints, given - 1))
    } else {
        start(&rt, &complaints)
    };
}
