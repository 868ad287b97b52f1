// What went wrong, one line each on standard error, which begins with the program's name.
use crate::piecewise::Piecewise;
use std::fmt::Display;
use std::io::Write;
use std::{fmt, io};

// The most bytes of a system's words on an error that are told.
const WORDS: usize = 128;

// Something went wrong, and that was told.
#[derive(Clone, Copy, Debug, PartialEq, Eq)]
pub struct Complained;

// Where a program tells what went wrong, piece by piece.
#[derive(Drop)]
pub struct Complaints<'a, E> {
    pub errors: E,
    pub program: &'a str,
}

// The system's words on an error, without the number that the library puts behind them.
#[derive(Clone, Copy)]
struct Reason<'a>(&'a io::Error);

impl Display for Reason<'_> {
    fn fmt<W: fmt::Write>(&self, f: &mut fmt::Formatter<W>) -> fmt::Result {
        let error = self.0;
        let mut words = [0; WORDS];
        let mut room = &mut words[..];
        let _ = write!(room, "{error}");
        let told = str::from_utf8(&words).unwrap_or("");
        f.write_str(match told.split_once(" (os error ") {
            Some((before, _)) => before,
            None => told.trim_end_matches('\0'),
        })
    }
}

// What is given is told as it is, and ends its line.
impl<E: Print> Complaints<'_, E> {
    // A line without the name of a file, or some lines.
    pub fn line<D: Display + Drop>(&self, words: D) -> Complained {
        Piecewise(&self.errors).print(words);
        Complained
    }

    // A line with the name of a file, which need not be text, and what stands before and after it.
    pub fn about<B: Display + Drop, A: Display + Drop>(
        &self,
        before: B,
        name: &[u8],
        after: A,
    ) -> Complained {
        let out = Piecewise(&self.errors);
        out.print(before);
        out.bytes(name);
        out.print(after);
        Complained
    }

    // The same, after the program's name.
    pub fn own_about<A: Display + Drop>(&self, before: &str, name: &[u8], after: A) -> Complained {
        let program = self.program;
        self.about(format_args!("{program}: {before}"), name, after)
    }

    pub fn long_name(&self, i: usize) -> Complained {
        let (program, before) = (self.program, "argument ");
        self.line(format_args!("{program}: {before}{i} is longer than the name of a file can be\n"))
    }

    // Nothing is read where it is not clear what is to be written.
    pub fn ending(&self, name: &[u8]) -> Complained {
        self.own_about(
            "cannot tell what to write: '",
            name,
            "' ends in neither .png nor .pgm\n",
        )
    }

    // A call on a file failed, and the system knows why.
    pub fn failed(&self, what: &str, name: &[u8], error: &io::Error) -> Complained {
        let reason = Reason(error);
        self.own_about(what, name, format_args!("': {reason}\n"))
    }
}
