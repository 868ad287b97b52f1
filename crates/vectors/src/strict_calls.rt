// The calls of strict reading: inspection, decode of its handle or of one in which something was changed, and the work limit.
use crate::ask::Ask;
use crate::lent::{FILL, ROOM};
use crate::line;
use crate::walk::Record;
use checks::Refused;
use handle::{Handle, Inspected};
use header::Limits;
use picture::Format;
use std::io;
use std::io::Write;

pub fn put_handle(out: &mut impl Write, h: Handle, left: usize) -> io::Result<()> {
    line::put_shape(out, h.format)?;
    write!(
        out,
        ", entries {}, page {}, scratch {}, work {}, left {left};",
        h.format.entries, h.page, h.scratch, h.work
    )
}

fn put_told(out: &mut impl Write, told: Result<usize, Refused>) -> io::Result<()> {
    match told {
        Err(refused) => line::put_refusal(out, refused),
        Ok(left) => write!(out, " decoded, left {left}"),
    }
}

pub fn decode(
    out: &mut impl Write,
    file: &[u8],
    limits: Limits,
    handle: Handle,
    units: usize,
    output: &mut [u8],
    scratch: &mut [u8],
) -> io::Result<()> {
    put_told(
        out,
        logluv_tiff::decode(file, limits, handle, units, output, scratch),
    )?;
    line::put_checksum(out, ", output ", output)?;
    line::put_checksum(out, ", scratch ", scratch)
}

// One field of a handle, or one of the limits, is changed, if any: they are counted from 1 in the order in which they stand here, but
// the head is the last. The number of a field stands in the record, and is no kind of the program's own.
fn change(field: usize, value: usize, handle: &mut Handle, limits: &mut Limits) {
    match field {
        1 => handle.format.width = value,
        2 => handle.format.height = value,
        3 => handle.format.block_width = value,
        4 => handle.format.block_height = value,
        5 => handle.format.tiled = value == 1,
        6 => handle.format.across = value,
        7 => handle.format.segments = value,
        8 => handle.format.output = value,
        9 => handle.format.big = value == 1,
        10 => handle.format.offsets = value,
        11 => handle.format.counts = value,
        12 => handle.format.entries = value,
        13 => handle.page = value,
        14 => handle.scratch = value,
        15 => handle.work = value,
        16 => limits.max_input = value,
        17 => limits.max_output = value,
        18 => limits.max_dimension = value,
        19 => limits.max_directories = value,
        20 => limits.max_tags = value,
        21 => limits.max_segments = value,
        22 => handle.format.mono = value == 1,
        _ => {}
    }
}

// Decode of a handle in which something may have been changed, of the file or, where there is one, of another. The numbers after those
// of the question say what is changed, and then the units and how many bytes the lent buffers have.
fn run_changed(out: &mut impl Write, record: Record, handle: Handle) -> io::Result<()> {
    let numbers = record.numbers;
    let mut limits = Ask::of(numbers).limits;
    let mut changed = handle;
    change(numbers.at(8), numbers.at(9), &mut changed, &mut limits);
    let file = if record.more.is_empty() {
        record.file
    } else {
        record.more
    };
    let mut output = [FILL; ROOM];
    let mut scratch = [FILL; ROOM];
    decode(
        out,
        file,
        limits,
        changed,
        numbers.at(10),
        &mut output[..numbers.at(11).min(ROOM)],
        &mut scratch[..numbers.at(12).min(ROOM)],
    )
}

pub fn run_reading(out: &mut impl Write, record: Record) -> io::Result<()> {
    let Ask {
        page,
        limits,
        units,
    } = Ask::of(record.numbers);
    match logluv_tiff::inspect(record.file, page, limits, units) {
        Err(refused) => line::put_refusal(out, refused),
        Ok(Inspected { handle, left }) => {
            put_handle(out, handle, left)?;
            run_changed(out, record, handle)
        }
    }
}

fn no_handle() -> Handle {
    Handle {
        format: Format {
            width: 0,
            height: 0,
            block_width: 0,
            block_height: 0,
            tiled: false,
            across: 0,
            segments: 0,
            output: 0,
            big: false,
            offsets: 0,
            counts: 0,
            entries: 0,
            mono: false,
        },
        page: 0,
        scratch: 0,
        work: 0,
    }
}

pub fn run_forged(out: &mut impl Write, record: Record) -> io::Result<()> {
    run_changed(out, record, no_handle())
}

pub fn run_bound(out: &mut impl Write, record: Record) -> io::Result<()> {
    let Ask { page, limits, .. } = Ask::of(record.numbers);
    match work_limit::logluv_inspection_work_limit(page, limits) {
        Some(units) => write!(out, " {units}"),
        None => write!(out, " over"),
    }
}
