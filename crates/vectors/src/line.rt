// What is written of checksums and answers that several groups have. The error of a write goes up to main, which ends with it;
// what came before it is written.
use checks::{Refusal, Refused};
use picture::Format;
use records::crc::crc32;
use std::io;
use std::io::Write;

// A text and its checksum. Here and below a text that is chosen has the comma before it, so that both are one piece, which a write takes whole or
// not at all where standard output is a pipe that does not wait.
pub fn put_checksum(out: &mut impl Write, before: &str, buffer: &[u8]) -> io::Result<()> {
    write!(out, "{before}{:08x}", crc32(buffer))
}

fn put_bytes(out: &mut impl Write, bytes: &[u8]) -> io::Result<()> {
    for byte in bytes {
        write!(out, "{byte:02x}")?;
    }
    Ok(())
}

// A buffer after the call: all of it, or where that is long a checksum that many other programs can compute and its first bytes.
pub fn show(out: &mut impl Write, buffer: &[u8]) -> io::Result<()> {
    match buffer.len() {
        0 => write!(out, " -"),
        1..=64 => {
            write!(out, " ")?;
            put_bytes(out, buffer)
        }
        _ => {
            write!(out, " #{:08x} ", zlib::adler::more(1, buffer))?;
            put_bytes(out, &buffer[..16])
        }
    }
}

pub fn put_verdict(out: &mut impl Write, verdict: Result<(), Refusal>) -> io::Result<()> {
    let number = match verdict {
        Ok(()) => 0,
        Err(refusal) => u8::from(refusal),
    };
    write!(out, " {number}")
}

pub fn put_refusal(out: &mut impl Write, refused: Refused) -> io::Result<()> {
    let Refused { refusal, left } = refused;
    write!(out, " refused {}, left {left}", u8::from(refusal))
}

pub fn put_shape(out: &mut impl Write, f: Format) -> io::Result<()> {
    let kind = if f.tiled { ", tiles" } else { ", strips" };
    write!(out, " {} x {}{kind}", f.width, f.height)?;
    write!(
        out,
        " {} x {}, {} across, {} segments, {} bytes, {} channels",
        f.block_width,
        f.block_height,
        f.across,
        f.segments,
        f.output,
        head::channels_of(f.mono)
    )
}
