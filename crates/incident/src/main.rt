// The incident: a picture of which one block did not come is read into the buffer that has the picture before it. The strip of
// that block is marked and blank, and the other strips are right. tests/incident.py computes `stdout`; nothing expected is in here.
#![tactic(auto)]

ghost use Rattle.std.specs.Io.{ReadsAtMost};

use buffers::{filled, read_full};
use header::Limits;
use std::io::Write;
use std::rt::Files;
use std::{fs, io};

// What is written.
mod line;

// The camera's picture: 640 x 480 pixels of six bytes, in 60 strips of eight rows.
const PICTURE: usize = 1843200;

const STRIPS: usize = 60;

// Ten bytes for each pixel of a strip.
const SCRATCH: usize = 51200;

// The blocks of the camera's file, the one that is lost, and where that one starts and ends. It has bytes of strip 31 and no others.
const BLOCKS: usize = 85;

const LOST: usize = 44;

const START: usize = 22528;

const END: usize = 23040;

// More units than the picture takes.
const UNITS: usize = 10000000;

// A file has at most so many bytes: what follows them is not read.
const FILE: usize = 65536;

// The whole file at the start of the buffer; how many bytes there are. A file that can't be opened is named on standard error.
fn load(rt: &(impl Files + Eprint), path: &str, file: &mut [u8]) -> io::Result<usize>
    ensures { ReadsAtMost result file.new }
{
    match fs::open(rt, path) {
        Ok(mut input) => read_full(&mut input, file),
        Err(error) => {
            eprintln!(rt; "{path}: {error}")?;
            Err(error)
        }
    }
}

// What stood in the lost block's place before the file came is still there.
fn leave_stale(stale: &[u8], file: &mut [u8]) {
    for (to, from) in file.iter_mut().zip(stale).take(END).skip(START) {
        *to = *from;
    }
}

// A reading into the picture's buffer: its answer, the quality of each strip, and what the buffer then has.
fn show(
    out: &mut impl Write,
    what: &str,
    file: &[u8],
    map: &[u8],
    picture: &mut [u8],
) -> io::Result<()> {
    let mut scratch = [0; SCRATCH];
    let mut quality = [0; STRIPS];
    let limits = Limits {
        max_input: 65536,
        max_output: PICTURE,
        max_dimension: 640,
        max_directories: 1,
        max_tags: 20,
        max_segments: STRIPS,
    };
    out.write_all(what.as_bytes())?;
    let reading = patchy::read(
        file,
        map,
        0,
        limits,
        UNITS,
        picture,
        &mut scratch,
        &mut quality,
    );
    line::put_reading(out, reading)?;
    line::put_quality(out, &quality)?;
    line::put_picture(out, picture)
}

// The camera's file without the lost block, read into the buffer that has the previous picture.
fn show_patchy(out: &mut impl Write, what: &str, previous: &[u8], file: &[u8]) -> io::Result<()> {
    let mut picture = filled::<PICTURE>(0);
    show(
        out,
        "the previous picture, whole\n",
        previous,
        b"",
        &mut picture,
    )?;
    let mut map = [1; BLOCKS];
    map[LOST] = 0;
    show(out, what, file, &map, &mut picture)
}

fn show_whole(out: &mut impl Write, file: &[u8]) -> io::Result<()> {
    let mut picture = filled::<PICTURE>(0);
    show(
        out,
        "the camera's picture, whole\n",
        file,
        b"",
        &mut picture,
    )
}

// Both files: the camera's whole, without a block that has the previous file's bytes, and without the same that has others.
fn run(out: &mut impl Write, previous: &[u8], file: &mut [u8]) -> io::Result<()> {
    let others = [255; END];
    show_whole(out, file)?;
    leave_stale(previous, file);
    show_patchy(
        out,
        "the camera's picture, block 44 lost, the previous file's bytes in its place\n",
        previous,
        file,
    )?;
    leave_stale(&others, file);
    show_patchy(
        out,
        "the camera's picture, block 44 lost, other bytes in its place\n",
        previous,
        file,
    )
}

fn main(rt: HostRuntime) -> io::Result<()> {
    let mut previous = [0; FILE];
    let mut file = [0; FILE];
    let n = load(&rt, "previous.tif", &mut previous)?;
    let m = load(&rt, "camera.tif", &mut file)?;
    run(&mut io::writer(&rt), &previous[..n], &mut file[..m])
}
