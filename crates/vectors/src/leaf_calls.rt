// The calls of packets, planes and predictors.
ghost use Rattle.std.specs.Prelude.{◌≤◌};

use crate::lent::{FILL, ROOM};
use crate::line::{put_verdict, show};
use crate::walk::{Numbers, Record};
use std::io;
use std::io::Write;

// The numbers of a record: the call's own first, then how many bytes the lent buffers have, as far as there is room.
#[derive(Clone, Copy)]
struct Call {
    a: usize,
    b: usize,
    c: usize,
    d: usize,
    e: usize,
    output: usize,
    scratch: usize,
}

impl Call {
    fn of(numbers: Numbers) -> Self
        ensures output { result.output ≤ 20480 }
        ensures scratch { result.scratch ≤ 20480 }
    {
        Call {
            a: numbers.at(0),
            b: numbers.at(1),
            c: numbers.at(2),
            d: numbers.at(3),
            e: numbers.at(4),
            output: numbers.at(5).min(ROOM),
            scratch: numbers.at(6).min(ROOM),
        }
    }
}

pub fn run_packets(out: &mut impl Write, record: Record) -> io::Result<()> {
    let Call {
        a,
        b,
        c,
        d,
        output,
        ..
    } = Call::of(record.numbers);
    let mut room = [FILL; ROOM];
    let output = &mut room[..output];
    put_verdict(out, packets::validate(record.file, a, b, c, d))?;
    put_verdict(out, logluv::decode(record.file, a, b, c, d, output))?;
    show(out, output)
}

pub fn run_planes(out: &mut impl Write, record: Record) -> io::Result<()> {
    let Call {
        a,
        b,
        c,
        output,
        ..
    } = Call::of(record.numbers);
    let mut room = [FILL; ROOM];
    let output = &mut room[..output];
    put_verdict(out, luv::convert(c == 1, record.file, a, b, output))?;
    show(out, output)
}

// No buffer here: uv of each byte of the input by itself.
pub fn run_uv(out: &mut impl Write, record: Record) -> io::Result<()> {
    for &byte in record.file {
        write!(out, " {}", pixel::expand_uv(byte))?;
    }
    Ok(())
}

// The last number has 1 for little-endian input, and 2 more for prediction.
pub fn run_predictor64(out: &mut impl Write, record: Record) -> io::Result<()> {
    let Call {
        a,
        b,
        c,
        d,
        e,
        output,
        ..
    } = Call::of(record.numbers);
    let mut room = [FILL; ROOM];
    let output = &mut room[..output];
    let little = e % 2 == 1;
    let predict = e / 2 % 2 == 1;
    let verdict = float64::convert(record.file, a, b, c, d, little, predict, output);
    put_verdict(out, verdict)?;
    show(out, output)
}

pub fn run_predictor3(out: &mut impl Write, record: Record) -> io::Result<()> {
    let Call {
        a,
        b,
        c,
        d,
        output,
        scratch,
        ..
    } = Call::of(record.numbers);
    let mut output_room = [FILL; ROOM];
    let mut scratch_room = [FILL; ROOM];
    let output = &mut output_room[..output];
    let scratch = &mut scratch_room[..scratch];
    let verdict = native_fp::decode(record.file, a, b, c, d == 1, scratch, output);
    put_verdict(out, verdict)?;
    show(out, output)?;
    show(out, scratch)
}
