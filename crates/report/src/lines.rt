// What came of a reading, for a person to take in at a glance, up to the first call that the output does not take.
use crate::arguments::Target;
use buffers::filled;
use patchy::Sizes;
use std::io;
use summary::marks;

// Room for a line of marks.
const LINE: usize = 80;

pub fn put_sizes(rt: &impl Print, sizes: Sizes) -> io::Result<()> {
    let head = if sizes.channels == 1 {
        ", monochrome"
    } else {
        ""
    };
    println!(rt; "  pixels    {} x {}{head}", sizes.width, sizes.height)?;
    print!(rt; "  segments  {}", sizes.segments)?;
    println!(rt;
        ", each at most {} x {}",
        sizes.block_width, sizes.block_height
    )
}

pub fn put_blocks(rt: &impl Print, map: &[u8]) -> io::Result<()> {
    let blocks = map.len();
    let lost = blocks - marks::tally(map, 1);
    println!(rt; "  blocks    {blocks}, of which {lost} did not come")
}

// A number of up to five digits in the place of a label, and what it counts.
pub fn put_count(rt: &impl Print, n: usize, meaning: &str) -> io::Result<()> {
    println!(rt; "    {n:>5}   {meaning}")
}

// One line of marks, with the number of its first segment where that is not 0.
fn put_row(rt: &impl Print, first: usize, codes: &[u8], line: &mut [u8]) -> io::Result<()> {
    let n = marks::line_length(codes).min(line.len());
    marks::put_line(codes, &mut line[..n]);
    if first == 0 {
        print!(rt; "  quality   ")?;
    } else {
        print!(rt; "    {first:>5}   ")?;
    }
    rt.write_all(&line[..n])?;
    println!(rt)
}

// A line's end is where `marks::line_end` says, so the place moves on by that and not by one.
fn put_rows(rt: &impl Print, codes: &[u8], line: &mut [u8]) -> io::Result<()> {
    let mut at = 0;
    while at < codes.len() {
        let end = marks::line_end(at, codes.len());
        put_row(rt, at, &codes[at..end], line)?;
        at = end;
    }
    Ok(())
}

pub fn put_quality(rt: &impl Print, codes: &[u8]) -> io::Result<()> {
    put_rows(rt, codes, &mut filled::<LINE>(0))?;
    for (code, meaning) in [
        (1, "good (1, a dot)"),
        (2, "did not come (2)"),
        (3, "outside the file (3)"),
        (4, "packets not accepted (4)"),
    ] {
        put_count(rt, marks::tally(codes, code), meaning)?;
    }
    Ok(())
}

// In a colour picture no pixel of a good segment is all zeros (rule 6.7).
pub fn put_caution(rt: &impl Print, sizes: Sizes) -> io::Result<()> {
    if sizes.channels == 1 {
        println!(rt;
            "            two zero bytes can be a pixel here: the quality alone tells what is good"
        )?;
    }
    Ok(())
}

// What is gone of all the units that there are.
pub fn put_charge(rt: &impl Print, left: usize) -> io::Result<()> {
    println!(rt; "  charged   {} units", usize::MAX - left)
}

// That nothing is written, where something was to be.
pub fn put_unwritten(rt: &impl Print, target: Option<Target>) -> io::Result<()> {
    if let Some(target) = target {
        print!(rt; "  written   nothing to ")?;
        rt.write_all(target.name)?;
        println!(rt; ", as there is no picture")?;
    }
    Ok(())
}
