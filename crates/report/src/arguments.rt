// The names that a program is given, and what it is to write by the ending of one.
ghost use Rattle.std.specs.Prelude.{◌≡◌, ◌↔◌, ◌≤◌, true, false, nat_eq, codes, IfOk, IfSome, IsNone, IsSome, length};
ghost use Rattle.std.specs.List.{ends_with};
ghost use Rattle.report.specs.declared.arguments.Kind.TheVariants.{Pgm, Png};

use crate::complain::{Complained, Complaints};
use std::env::FillError;
use std::fmt;
use std::rt::Env;

// A kind of file that a picture is written as.
#[derive(Clone, Copy, Debug, PartialEq, Eq)]
pub enum Kind {
    Pgm,
    Png,
}

impl fmt::Display for Kind {
    fn fmt<W: fmt::Write>(&self, f: &mut fmt::Formatter<W>) -> fmt::Result {
        f.write_str(match self {
            Kind::Pgm => "PGM",
            Kind::Png => "PNG",
        })
    }
}

// The file that is to be written.
#[derive(Clone, Copy)]
pub struct Target<'a> {
    pub name: &'a [u8],
    pub kind: Kind,
}

impl<'a> Target<'a> {
    // Its kind is told by the ending of its name.
    pub fn of(name: &'a [u8]) -> Option<Self>
        ensures same_name { IfSome result (λ target. target.name.now ≡ name.now) }
        ensures other { IsNone result ↔ (ends_with nat_eq name.now (codes ".png") ≡ false) × (ends_with nat_eq name.now (codes ".pgm") ≡ false) }
        ensures png { ends_with nat_eq name.now (codes ".png") ≡ true → IfSome result (λ target. target.kind ≡ Png) }
        ensures pgm { IfSome result (λ target. target.kind ≡ Pgm → ends_with nat_eq name.now (codes ".pgm") ≡ true) }
    {
        let kind = if name.ends_with(b".png") {
            Kind::Png
        } else if name.ends_with(b".pgm") {
            Kind::Pgm
        } else {
            return None;
        };
        Some(Target { name, kind })
    }
}

// How many arguments there are, the program's own name among them.
pub fn count(rt: &impl Env) -> usize {
    (0..usize::MAX)
        .position(|i| matches!(rt.arg(i, &mut []), Err(FillError::NotPresent)))
        .unwrap_or(usize::MAX)
}

// An argument, at the start of the buffer, or none where there is none. One that is too long is complained of.
pub fn argument<'a>(
    rt: &impl Env,
    complaints: &Complaints<impl Print>,
    i: usize,
    buffer: &'a mut [u8],
) -> Result<Option<&'a [u8]>, Complained>
    ensures { IfOk result (λ given. IfSome given (λ name. length name.now ≤ length buffer.old)) }
{
    match rt.arg(i, buffer) {
        Ok(n) => Ok(Some(&buffer[..n])),
        Err(FillError::NotPresent) => Ok(None),
        Err(FillError::TooLong) => Err(complaints.long_name(i)),
    }
}

// The file that is to be written, if a name is given. One with another ending is complained of.
pub fn target_of<'a>(
    complaints: &Complaints<impl Print>,
    name: Option<&'a [u8]>,
) -> Result<Option<Target<'a>>, Complained>
    ensures { IfOk result (λ target. IsSome target ↔ IsSome name.entry) }
{
    name.map(|name| Target::of(name).ok_or_else(|| complaints.ending(name)))
        .transpose()
}
