// The calls of header, directories and profile, and of ranges under a delivery map.
use crate::ask::Ask;
use crate::line;
use crate::walk::Record;
use checks::Refused;
use front::Found;
use picture::Format;
use seen::Reach;
use std::io;
use std::io::Write;

// A range is looked for in a file of zeros, at most this long.
const ROOM: usize = 4096;

fn put_format(out: &mut impl Write, f: Format) -> io::Result<()> {
    let order = if f.big { ", big" } else { ", little" };
    line::put_shape(out, f)?;
    write!(
        out,
        "{order}, offsets {}, counts {}, entries {}",
        f.offsets, f.counts, f.entries
    )
}

fn put_found(out: &mut impl Write, found: Result<Found, Refused>) -> io::Result<()> {
    match found {
        Err(refused) => line::put_refusal(out, refused),
        Ok(Found { format, left }) => {
            put_format(out, format)?;
            write!(out, ", left {left}")
        }
    }
}

pub fn run_format(out: &mut impl Write, record: Record) -> io::Result<()> {
    let Ask {
        page,
        limits,
        units,
    } = Ask::of(record.numbers);
    let (file, map) = (record.file, record.more);
    match header::check_limits(file.len(), page, limits) {
        Err(refusal) => line::put_refusal(out, refusal.leaving(units)),
        Ok(()) => put_found(out, front::read_format(file, map, page, limits, units)),
    }
}

// The numbers are the range's start, how many bytes it has, and how many the file of zeros has.
pub fn run_range(out: &mut impl Write, record: Record) -> io::Result<()> {
    let numbers = record.numbers;
    let file = &[0; ROOM][..numbers.at(2).min(ROOM)];
    match seen::reached(file, record.more, numbers.at(0), numbers.at(1)) {
        Reach::Inside => write!(out, " inside"),
        Reach::Outside => write!(out, " outside"),
        Reach::Missing => write!(out, " missing"),
    }
}
