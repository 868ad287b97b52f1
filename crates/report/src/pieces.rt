// What came of a reading, for a person to take in at a glance: the same lines piece by piece, each of which is tried.
use crate::arguments::Target;
use crate::piecewise::Piecewise;
use buffers::filled;
use patchy::Sizes;
use summary::marks;

// Room for a line of marks.
const LINE: usize = 80;

pub fn put_sizes(out: &Piecewise<impl Print>, sizes: Sizes) {
    let head = if sizes.channels == 1 {
        ", monochrome"
    } else {
        ""
    };
    print!(out; "  pixels    {} x {}{head}", sizes.width, sizes.height);
    print!(out;
        "\n  segments  {}, each at most {} x {}\n",
        sizes.segments, sizes.block_width, sizes.block_height
    );
}

pub fn put_blocks(out: &Piecewise<impl Print>, map: &[u8]) {
    let blocks = map.len();
    let lost = blocks - marks::tally(map, 1);
    print!(out; "  blocks    {blocks}, of which {lost} did not come\n");
}

// A number of up to five digits in the place of a label. The spaces before it are a piece of their own.
fn put_column(out: &Piecewise<impl Print>, n: usize) {
    let spaces = match n {
        0..=9 => "        ",
        10..=99 => "       ",
        100..=999 => "      ",
        1000..=9999 => "     ",
        _ => "    ",
    };
    print!(out; "{spaces}{n}   ");
}

// A number in the place of a label, and what it counts, which ends the line.
pub fn put_count(out: &Piecewise<impl Print>, n: usize, meaning: &str) {
    put_column(out, n);
    out.print(meaning);
}

// One line of marks, with the number of its first segment where that is not 0.
fn put_row(out: &Piecewise<impl Print>, first: usize, codes: &[u8], line: &mut [u8]) {
    let n = marks::line_length(codes).min(line.len());
    marks::put_line(codes, &mut line[..n]);
    if first == 0 {
        out.print("  quality   ");
    } else {
        put_column(out, first);
    }
    out.bytes(&line[..n]);
    out.print("\n");
}

// A line's end is where `marks::line_end` says, so the place moves on by that and not by one.
fn put_rows(out: &Piecewise<impl Print>, codes: &[u8], line: &mut [u8]) {
    let mut at = 0;
    while at < codes.len() {
        let end = marks::line_end(at, codes.len());
        put_row(out, at, &codes[at..end], line);
        at = end;
    }
}

pub fn put_quality(out: &Piecewise<impl Print>, codes: &[u8]) {
    put_rows(out, codes, &mut filled::<LINE>(0));
    for (code, meaning) in [
        (1, "good (1, a dot)\n"),
        (2, "did not come (2)\n"),
        (3, "outside the file (3)\n"),
        (4, "packets not accepted (4)\n"),
    ] {
        put_count(out, marks::tally(codes, code), meaning);
    }
}

// In a colour picture no pixel of a good segment is all zeros (rule 6.7).
pub fn put_caution(out: &Piecewise<impl Print>, sizes: Sizes) {
    if sizes.channels == 1 {
        out.print(
            "            two zero bytes can be a pixel here: the quality alone tells what is good\n",
        );
    }
}

// What is gone of all the units that there are.
pub fn put_charge(out: &Piecewise<impl Print>, left: usize) {
    print!(out; "  charged   {} units\n", usize::MAX - left);
}

// That nothing is written, where something was to be.
pub fn put_unwritten(out: &Piecewise<impl Print>, target: Option<Target>) {
    if let Some(target) = target {
        out.print("  written   nothing to ");
        out.bytes(target.name);
        out.print(", as there is no picture\n");
    }
}
