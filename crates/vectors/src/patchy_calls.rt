// The calls of patchy reading.
use crate::ask::Ask;
use crate::lent::{FILL, ROOM};
use crate::line;
use crate::walk::Record;
use checks::Refused;
use patchy::{Reading, Sizes};
use std::io;
use std::io::Write;

// So many bytes of the quality buffer are written out.
const CODES: usize = 64;

fn put_sizes(out: &mut impl Write, s: Sizes) -> io::Result<()> {
    write!(
        out,
        " {} x {}, blocks {} x {}, {} segments, {} channels",
        s.width, s.height, s.block_width, s.block_height, s.segments, s.channels
    )
}

fn put_reading(out: &mut impl Write, reading: Result<Reading, Refused>) -> io::Result<()> {
    match reading {
        Err(refused) => line::put_refusal(out, refused),
        Ok(Reading { sizes, left }) => {
            put_sizes(out, sizes)?;
            write!(out, ", left {left}")
        }
    }
}

fn put_quality(out: &mut impl Write, quality: &[u8]) -> io::Result<()> {
    write!(out, ", codes ")?;
    for code in quality.iter().take(CODES) {
        write!(out, "{code}")?;
    }
    line::put_checksum(out, ", quality ", quality)
}

pub fn read(
    out: &mut impl Write,
    asked: Ask,
    file: &[u8],
    map: &[u8],
    output: &mut [u8],
    scratch: &mut [u8],
    quality: &mut [u8],
) -> io::Result<()> {
    let reading = patchy::read(
        file,
        map,
        asked.page,
        asked.limits,
        asked.units,
        output,
        scratch,
        quality,
    );
    put_reading(out, reading)?;
    line::put_checksum(out, ", output ", output)?;
    line::put_checksum(out, ", scratch ", scratch)?;
    put_quality(out, quality)
}

// The numbers after those of the question say how many bytes output, scratch and quality have.
pub fn run(out: &mut impl Write, record: Record) -> io::Result<()> {
    let numbers = record.numbers;
    let mut output = [FILL; ROOM];
    let mut scratch = [FILL; ROOM];
    let mut quality = [FILL; ROOM];
    read(
        out,
        Ask::of(numbers),
        record.file,
        record.more,
        &mut output[..numbers.at(8).min(ROOM)],
        &mut scratch[..numbers.at(9).min(ROOM)],
        &mut quality[..numbers.at(10).min(ROOM)],
    )
}
