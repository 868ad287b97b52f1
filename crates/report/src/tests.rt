// The lines of a report on an output that takes so many calls: their text in both forms, and what comes where the output takes no more.
use crate::arguments::Target;
use crate::piecewise::Piecewise;
use crate::{lines, pieces};
use patchy::Sizes;
use std::cell::Cell;
use std::fmt::Display;
use std::io;
use std::io::{ErrorKind, Write};
use std::test::Fail;

// The most bytes that are put here.
const ROOM: usize = 256;

// Takes so many calls and keeps their bytes.
#[derive(Drop)]
struct Watched {
    room: usize,
    tried: Cell<usize>,
    text: Cell<[u8; ROOM]>,
    length: Cell<usize>,
}

impl Watched {
    fn with_room(room: usize) -> Self {
        Watched {
            room,
            tried: Cell::new(0),
            text: Cell::new([0; ROOM]),
            length: Cell::new(0),
        }
    }

    fn take(&self, bytes: &[u8]) -> io::Result<()> {
        let (before, length) = (self.tried.get(), self.length.get());
        self.tried.set(before.saturating_add(1));
        if before >= self.room {
            return Err(io::Error::from(ErrorKind::BrokenPipe));
        }
        let mut text = self.text.get();
        for (to, from) in text.iter_mut().skip(length).zip(bytes) {
            *to = *from;
        }
        self.text.set(text);
        self.length.set(length.saturating_add(bytes.len()));
        Ok(())
    }

    fn holds(&self, text: &[u8]) -> bool {
        let told = self.text.get();
        told.get(..self.length.get()) == Some(text)
    }
}

impl Print for Watched {
    fn print<D: Display + Drop>(&self, value: D) -> io::Result<()> {
        let mut words = [0; ROOM];
        let mut after = &mut words[..];
        let _ = write!(after, "{value}");
        let left = after.len();
        self.take(words.get(..ROOM.saturating_sub(left)).unwrap_or(b""))
    }

    fn println<D: Display + Drop>(&self, value: D) -> io::Result<()> {
        self.print(format_args!("{value}\n"))
    }

    fn write_all(&self, bytes: &[u8]) -> io::Result<()> {
        self.take(bytes)
    }
}

// Where fewer calls are taken than a line needs, the next one is tried, its error is the answer, and nothing comes after it.
fn watch<F: Fn(&Watched) -> io::Result<()>>(text: &[u8], put: F) -> Result<(), &'static str>
    requires { F.IsAlwaysCallable put }
{
    let whole = Watched::with_room(usize::MAX);
    put(&whole).map_err(|_| "a line that was taken gave an error")?;
    if !whole.holds(text) {
        return Err("the text of a line is another one");
    }
    for room in 0..whole.tried.get() {
        let out = Watched::with_room(room);
        let answer = put(&out).map_err(|error| error.kind());
        if answer != Err(ErrorKind::BrokenPipe) {
            return Err("a line that was not taken gave another answer than its error");
        }
        if out.tried.get() != room + 1 {
            return Err("a call came after one that was not taken");
        }
    }
    Ok(())
}

// However few pieces are taken, each is tried.
fn watch_pieces<F: Fn(&Watched)>(text: &[u8], put: F) -> Result<(), &'static str>
    requires { F.IsAlwaysCallable put }
{
    let whole = Watched::with_room(usize::MAX);
    put(&whole);
    if !whole.holds(text) {
        return Err("the text of the pieces is another one");
    }
    for room in 0..whole.tried.get() {
        let out = Watched::with_room(room);
        put(&out);
        if out.tried.get() != whole.tried.get() {
            return Err("a piece was not tried");
        }
    }
    Ok(())
}

fn picture(channels: usize) -> Sizes {
    Sizes {
        width: 640,
        height: 480,
        block_width: 640,
        block_height: 8,
        segments: 60,
        channels,
    }
}

#[test]
fn sizes_are_put() -> Result<(), Fail> {
    for (channels, text) in [
        (
            3,
            "  pixels    640 x 480\n  segments  60, each at most 640 x 8\n",
        ),
        (
            1,
            "  pixels    640 x 480, monochrome\n  segments  60, each at most 640 x 8\n",
        ),
    ] {
        let (sizes, text) = (picture(channels), text.as_bytes());
        watch(text, |out| lines::put_sizes(out, sizes))?;
        watch_pieces(text, |out| pieces::put_sizes(&Piecewise(out), sizes))?;
    }
    Ok(())
}

#[test]
fn blocks_are_put() -> Result<(), Fail> {
    let (map, text) = ([1, 1, 0, 1], b"  blocks    4, of which 1 did not come\n");
    watch(text, |out| lines::put_blocks(out, &map))?;
    watch_pieces(text, |out| pieces::put_blocks(&Piecewise(out), &map))?;
    Ok(())
}

#[test]
fn a_count_is_put() -> Result<(), Fail> {
    for (n, text) in [
        (0, "        0   of a wrong size (12)\n"),
        (10, "       10   of a wrong size (12)\n"),
        (100, "      100   of a wrong size (12)\n"),
        (1000, "     1000   of a wrong size (12)\n"),
        (65535, "    65535   of a wrong size (12)\n"),
        (100000, "    100000   of a wrong size (12)\n"),
    ] {
        let text = text.as_bytes();
        watch(text, |out| lines::put_count(out, n, "of a wrong size (12)"))?;
        watch_pieces(
            text,
            |out| pieces::put_count(&Piecewise(out), n, "of a wrong size (12)\n"),
        )?;
    }
    Ok(())
}

// Two rows of marks, as one has 60.
#[test]
fn quality_is_put() -> Result<(), Fail> {
    let text = b"  quality   .......... .......... .......... .......... .......... ..........
       60   234
       60   good (1, a dot)
        1   did not come (2)
        1   outside the file (3)
        1   packets not accepted (4)
";
    let mut codes = [1; 63];
    codes[60..].copy_from_slice(&[2, 3, 4]);
    watch(text, |out| lines::put_quality(out, &codes))?;
    watch_pieces(text, |out| pieces::put_quality(&Piecewise(out), &codes))?;
    Ok(())
}

#[test]
fn a_caution_is_put() -> Result<(), Fail> {
    for (channels, text) in [
        (3, ""),
        (
            1,
            "            two zero bytes can be a pixel here: the quality alone tells what is good\n",
        ),
    ] {
        let (sizes, text) = (picture(channels), text.as_bytes());
        watch(text, |out| lines::put_caution(out, sizes))?;
        watch_pieces(text, |out| pieces::put_caution(&Piecewise(out), sizes))?;
    }
    Ok(())
}

#[test]
fn a_charge_is_put() -> Result<(), Fail> {
    let (left, text) = (usize::MAX - 61, b"  charged   61 units\n");
    watch(text, |out| lines::put_charge(out, left))?;
    watch_pieces(text, |out| pieces::put_charge(&Piecewise(out), left))?;
    Ok(())
}

#[test]
fn what_is_not_written_is_put() -> Result<(), Fail> {
    let text = b"  written   nothing to \xff.png, as there is no picture\n";
    watch(
        text,
        |out| lines::put_unwritten(out, Target::of(b"\xff.png")),
    )?;
    watch_pieces(
        text,
        |out| pieces::put_unwritten(&Piecewise(out), Target::of(b"\xff.png")),
    )?;
    watch(b"", |out| lines::put_unwritten(out, None))?;
    watch_pieces(b"", |out| pieces::put_unwritten(&Piecewise(out), None))?;
    Ok(())
}
