// Goes through the records of a file: for each it makes a call and writes a line.
ghost use Rattle.std.specs.Prelude.{◌<◌, IfSome, length};
ghost use Rattle.std.specs.Iterator.{at_most};

use std::io;
use std::io::Write;

// A record is a tag, three numbers of eight bytes, and so many bytes more as the first of these says. The second says how many of
// them are the call's numbers, the third how many come next, as its input or file; the rest are a map or another file.
const TAG: usize = 16;

const HEAD: usize = 24;

// The numbers of a record, eight bytes each; 0 where there are no more.
#[derive(Clone, Copy)]
pub struct Numbers<'a>(&'a [u8]);

impl Numbers<'_> {
    pub fn at(self, i: u8) -> usize {
        records::num(self.0, 8 * usize::from(i))
    }
}

#[derive(Clone, Copy)]
pub struct Record<'a> {
    tag: &'a [u8],
    pub numbers: Numbers<'a>,
    pub file: &'a [u8],
    pub more: &'a [u8],
}

// The file ends within a record.
#[derive(Clone, Copy, Debug, PartialEq, Eq)]
struct Cut;

impl<'a> Record<'a> {
    // The record that a file begins with, and what comes after it.
    fn first(file: &'a [u8]) -> Option<(Self, &'a [u8])>
        ensures { IfSome result (λ found. length found.1.now < length file.now) }
    {
        let (tag, rest) = file.split_at_checked(TAG)?;
        let (head, rest) = rest.split_at_checked(HEAD)?;
        let (parts, after) = rest.split_at_checked(records::num(head, 0))?;
        let (numbers, parts) = parts.split_at(records::num(head, 8).min(parts.len()));
        let (file, more) = parts.split_at(records::num(head, 16).min(parts.len()));
        let record = Record {
            tag,
            numbers: Numbers(numbers),
            file,
            more,
        };
        Some((record, after))
    }
}

// The records of a file, one after the other.
#[derive(Drop)]
struct Records<'a>(&'a [u8]);

impl<'a> Iterator for Records<'a> {
    type Item = Result<Record<'a>, Cut>;

    ghost remaining = { λ s. at_most (length s.0.now) };

    fn next(&mut self) -> Option<Result<Record<'a>, Cut>> {
        if self.0.is_empty() {
            return None;
        }
        let (record, rest) = match Record::first(self.0) {
            Some((record, rest)) => (Ok(record), rest),
            None => (Err(Cut), &self.0[..0]),
        };
        self.0 = rest;
        Some(record)
    }
}

pub fn run_records<W: Write, F: Fn(&mut W, Record<'_>) -> io::Result<()>>(
    out: &mut W,
    file: &[u8],
    call: &F,
) -> io::Result<()>
    requires { F.IsAlwaysCallable call.now }
{
    for record in Records(file) {
        match record {
            Ok(record) => {
                out.write_all(record.tag)?;
                call(out, record)?;
                writeln!(out)?;
            }
            Err(Cut) => writeln!(out, "cut")?,
        }
    }
    Ok(())
}
