// libtiff's pictures: each page is read strictly and patchily, and its pixels are compared with libtiff's own.
ghost use Rattle.std.specs.Io.{ReadsAtMost};

use crate::ask::Ask;
use crate::files::{FILE, load, path_of};
use crate::lent::{FILL, PICTURE};
use crate::{line, patchy_calls, strict_calls};
use admission::Room;
use buffers::filled;
use handle::{Handle, Inspected};
use header::Limits;
use std::io;
use std::io::Write;
use std::rt::Files;

// No picture needs more: a strip of the camera's has 640 x 8 pixels, for each of which scratch has ten bytes.
const SCRATCH: usize = 51200;

const SEGMENTS: usize = 60;

// A file has at most 65536 bytes.
const BLOCKS: usize = 128;

// More pages than any picture has.
const PAGES: usize = 4;

// A page of a file that is asked for, and libtiff's pixels of it, none where these are not here.
#[derive(Clone, Copy)]
struct Page<'a> {
    asked: Ask,
    file: &'a [u8],
    raw: &'a [u8],
}

impl Page<'_> {
    // Ends a reading's line, and compares its pixels with libtiff's where these are given.
    fn compare(self, out: &mut impl Write, pixels: &[u8]) -> io::Result<()> {
        writeln!(out)?;
        if self.raw.is_empty() {
            Ok(())
        } else if pixels == self.raw {
            writeln!(out, "  libtiff's pixels")
        } else {
            writeln!(out, "  other pixels than libtiff's")
        }
    }

    fn decode(self, out: &mut impl Write, handle: Handle) -> io::Result<()> {
        let mut output = filled::<PICTURE>(FILL);
        let mut scratch = [FILL; SCRATCH];
        let output = &mut output[..handle.format.output.min(PICTURE)];
        strict_calls::decode(
            out,
            self.file,
            self.asked.limits,
            handle,
            handle.work,
            output,
            &mut scratch[..handle.scratch.min(SCRATCH)],
        )?;
        self.compare(out, output)
    }

    fn read_patchily(self, out: &mut impl Write, map: &[u8], room: Room) -> io::Result<()> {
        let mut output = filled::<PICTURE>(FILL);
        let mut scratch = [FILL; SCRATCH];
        let mut quality = [FILL; SEGMENTS];
        let output = &mut output[..room.output.min(PICTURE)];
        patchy_calls::read(
            out,
            self.asked,
            self.file,
            map,
            output,
            &mut scratch[..room.scratch.min(SCRATCH)],
            &mut quality[..room.quality.min(SEGMENTS)],
        )?;
        self.compare(out, output)
    }

    // The same file with no map, and with a map on which each block came.
    fn read_both(self, out: &mut impl Write, room: Room) -> io::Result<()> {
        let ones = [1; BLOCKS];
        let blocks = self.file.len().div_ceil(512).min(BLOCKS);
        write!(out, "no map          ")?;
        self.read_patchily(out, b"", room)?;
        write!(out, "map of ones     ")?;
        self.read_patchily(out, &ones[..blocks], room)
    }

    // A page that strict reading refuses, with whole buffers.
    fn read_refused(self, out: &mut impl Write) -> io::Result<()> {
        let room = Room {
            output: PICTURE,
            scratch: SCRATCH,
            quality: SEGMENTS,
        };
        writeln!(out)?;
        Page { raw: b"", ..self }.read_both(out, room)
    }

    // A page that strict reading accepts, with buffers of the very lengths that its handle asks for.
    fn read_accepted(self, out: &mut impl Write, handle: Handle) -> io::Result<()> {
        let room = Room {
            output: handle.format.output,
            scratch: handle.scratch,
            quality: handle.format.segments,
        };
        self.decode(out, handle)?;
        self.read_both(out, room)
    }

    // Every reading of a page, and whether there is one.
    fn read(self, out: &mut impl Write) -> io::Result<bool> {
        let Ask {
            page,
            limits,
            units,
        } = self.asked;
        write!(out, "page {page}          ")?;
        match logluv_tiff::inspect(self.file, page, limits, units) {
            Err(refused) => {
                line::put_refusal(out, refused)?;
                self.read_refused(out)?;
                Ok(false)
            }
            Ok(Inspected { handle, left }) => {
                strict_calls::put_handle(out, handle, left)?;
                self.read_accepted(out, handle)?;
                Ok(true)
            }
        }
    }
}

// libtiff's pixels of a page, where they are here.
fn load_raw(rt: &impl Files, name: &str, page: usize, raw: &mut [u8]) -> io::Result<usize>
    ensures { ReadsAtMost result raw.new }
{
    let path = path_of(format_args!("pictures/raw/{name}.{page}.raw"))?;
    load(rt, path.as_str(), raw)
}

// All pages of a picture that takes at most so many units, and what is said of the one after the last.
pub fn run_pages(
    rt: &impl Files,
    out: &mut impl Write,
    units: usize,
    name: &str,
    file: &[u8],
) -> io::Result<()> {
    let limits = Limits {
        max_input: 65536,
        max_output: PICTURE,
        max_dimension: 1000,
        max_directories: PAGES,
        max_tags: 20,
        max_segments: 100,
    };
    for page in 0..PAGES {
        let mut raw = [0; FILE];
        let n = load_raw(rt, name, page, &mut raw)?;
        let asked = Ask {
            page,
            limits,
            units,
        };
        let page = Page {
            asked,
            file,
            raw: &raw[..n],
        };
        if !page.read(out)? {
            break;
        }
    }
    Ok(())
}
