// Goes through lists of files: loads each, writes its path, and runs what is in it.
ghost use Rattle.std.specs.Io.{ReadsAtMost};

use arrayvec::ArrayString;
use buffers::read_full;
use std::fmt::{Display, Write as _};
use std::io::{ErrorKind, Write};
use std::rt::Files;
use std::{fs, io};

// A file has at most so many bytes: what follows them is not read.
pub const FILE: usize = 65536;

// The longest path.
const LONGEST: usize = 256;

// Files of a folder by their names, which have spaces between them, without their ending.
#[derive(Clone, Copy)]
pub struct Listed<'a> {
    pub folder: &'a str,
    pub names: &'a str,
    pub ending: &'a str,
}

// A path of these parts, as it is printed.
pub fn path_of<D: Display + Drop>(parts: D) -> io::Result<ArrayString<LONGEST>> {
    let mut path = ArrayString::new();
    match write!(path, "{parts}") {
        Ok(()) => Ok(path),
        Err(_) => Err(io::Error::from(ErrorKind::InvalidFilename)),
    }
}

// The whole file at the start of the buffer; how many bytes there are, or 0 where there is no such file.
pub fn load(rt: &impl Files, path: &str, file: &mut [u8]) -> io::Result<usize>
    ensures { ReadsAtMost result file.new }
{
    match fs::open(rt, path) {
        Ok(mut input) => read_full(&mut input, file),
        Err(error) if error.kind() == ErrorKind::NotFound => Ok(0),
        Err(error) => Err(error),
    }
}

// Runs each file of a list, by its name and its bytes.
pub fn run_files<W: Write, F: Fn(&mut W, &str, &[u8]) -> io::Result<()>>(
    rt: &impl Files,
    out: &mut W,
    listed: Listed,
    run: F,
) -> io::Result<()>
    requires { F.IsAlwaysCallable run }
{
    let Listed {
        folder,
        names,
        ending,
    } = listed;
    for name in names.split(' ') {
        let path = path_of(format_args!("{folder}{name}{ending}"))?;
        let mut file = [0; FILE];
        let n = load(rt, path.as_str(), &mut file)?;
        writeln!(out, "{path}")?;
        run(out, name, &file[..n])?;
    }
    Ok(())
}
