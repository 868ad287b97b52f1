// The calls of the receiver: a start, a block, and the replay of a trace.
use crate::lent::{FILL, ROOM, place};
use crate::line;
use crate::walk::{Numbers, Record};
use receiver::{Received, Receiver};
use std::io;
use std::io::Write;
use trace::Next;

// A block can have 65535 bytes, for which a file of records has no room: as many of these as it says come after a record's own.
const TAIL: u8 = 90;

const LONGEST: usize = 66560;

// What a call is given: the receiver, the length of a start or the number of a block, and the bytes of a block or a trace.
#[derive(Clone, Copy)]
struct Given<'a> {
    state: Receiver,
    number: usize,
    bytes: &'a [u8],
}

// The first numbers are whether a picture was started, and its length.
fn state_of(numbers: Numbers) -> Receiver {
    Receiver {
        started: numbers.at(0) == 1,
        length: numbers.at(1),
    }
}

fn put_received(out: &mut impl Write, received: Received) -> io::Result<()> {
    let state = received.receiver;
    let started = if state.started {
        ", started "
    } else {
        ", idle "
    };
    line::put_verdict(out, received.answer)?;
    write!(out, "{started}{}", state.length)
}

fn put_next(out: &mut impl Write, next: Next) -> io::Result<()> {
    match next {
        Next::Over => write!(out, " over;"),
        Next::Cut => write!(out, " cut;"),
        Next::Foreign => write!(out, " foreign;"),
        Next::Start(length) => write!(out, " start {length};"),
        Next::Block(number, size) => write!(out, " block {number} of {size};"),
    }
}

// Makes a call with the buffers that it is lent. The last two numbers are how many bytes come after those of the record, and how many
// the file buffer has. The map is the record's.
fn run<W: Write, F: FnOnce(&mut W, Given<'_>, &mut [u8], &mut [u8]) -> io::Result<()>>(
    out: &mut W,
    record: Record,
    call: F,
) -> io::Result<()>
    requires { F.IsAlwaysCallable call }
{
    let numbers = record.numbers;
    let mut long = [TAIL; LONGEST];
    let mut file = [FILL; ROOM];
    let mut map = [FILL; ROOM];
    let own = place(record.file, &mut long);
    let end = own + numbers.at(3).min(LONGEST - own);
    let came = place(record.more, &mut map);
    let file = &mut file[..numbers.at(4).min(ROOM)];
    let map = &mut map[..came];
    let given = Given {
        state: state_of(numbers),
        number: numbers.at(2),
        bytes: &long[..end],
    };
    call(out, given, file, map)?;
    line::put_checksum(out, ", file ", file)?;
    write!(out, ", map")?;
    line::show(out, map)
}

pub fn run_start<W: Write>(out: &mut W, record: Record) -> io::Result<()> {
    run(out, record, |out, given, file, map| {
        put_received(out, receiver::start(file, map, given.state, given.number))
    })
}

pub fn run_block<W: Write>(out: &mut W, record: Record) -> io::Result<()> {
    run(out, record, |out, given, file, map| {
        put_received(
            out,
            receiver::block(file, map, given.state, given.number, given.bytes),
        )
    })
}

pub fn run_trace<W: Write>(out: &mut W, record: Record) -> io::Result<()> {
    run(out, record, |out, given, file, map| {
        put_next(out, trace::first(given.bytes))?;
        put_received(out, receiver::replay(given.bytes, file, map, given.state))
    })
}
