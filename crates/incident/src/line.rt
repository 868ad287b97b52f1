// What is written of a reading: its answer, the quality of each strip, and checksums of the picture's parts. The error of a write goes
// up to main, which ends with it; what came before it is written.
use checks::Refused;
use patchy::{Reading, Sizes};
use records::crc::crc32;
use std::io;
use std::io::Write;

// Strip 31 in the picture: where it starts, and where the next one does.
const FROM: usize = 952320;

const TO: usize = 983040;

fn put_sizes(out: &mut impl Write, s: Sizes) -> io::Result<()> {
    write!(
        out,
        "  {} x {}, strips {} x {}, {} in all",
        s.width, s.height, s.block_width, s.block_height, s.segments
    )
}

pub fn put_reading(out: &mut impl Write, reading: Result<Reading, Refused>) -> io::Result<()> {
    match reading {
        Err(Refused { refusal, left }) => {
            writeln!(out, "  refused {}, left {left}", u8::from(refusal))
        }
        Ok(Reading { sizes, left }) => {
            put_sizes(out, sizes)?;
            writeln!(out, ", left {left}")
        }
    }
}

pub fn put_quality(out: &mut impl Write, quality: &[u8]) -> io::Result<()> {
    write!(out, "  quality ")?;
    for code in quality {
        write!(out, "{code}")?;
    }
    writeln!(out)
}

pub fn put_picture(out: &mut impl Write, picture: &[u8]) -> io::Result<()> {
    let to = TO.min(picture.len());
    let (front, after) = picture.split_at(to);
    let (before, strip) = front.split_at(FROM.min(to));
    let blank = if strip.iter().all(|&byte| byte == 0) {
        ", each byte zero\n"
    } else {
        ", not blank\n"
    };
    write!(out, "  picture {:08x}", crc32(picture))?;
    write!(out, ", strips 0 to 30 {:08x}", crc32(before))?;
    write!(out, ", strips 32 to 59 {:08x}", crc32(after))?;
    write!(out, ", strip 31 {:08x}{blank}", crc32(strip))
}
