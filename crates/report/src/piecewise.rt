// What is told a person, piece by piece. An output may take only some of the pieces, as a pipe that does not wait does.
ghost use Rattle.std.specs.Prelude.{IsOk};

use std::fmt;
use std::fmt::{Display, Formatter};

// An output, to which each piece goes in a write of its own: a format's text before, between and after its values, and each value.
// What the output does not take is lost, as there is no other place to say so, and what comes after it is still tried.
#[derive(Drop)]
pub struct Piecewise<'a, P>(pub &'a P);

impl<P: Print> fmt::Write for Piecewise<'_, P> {
    // That a piece is lost is no failure, which would end the format.
    fn write_str(&mut self, piece: &str) -> fmt::Result
        ensures { IsOk result }
    {
        self.bytes(piece.as_bytes());
        Ok(())
    }
}

impl<P: Print> Piecewise<'_, P> {
    // Bytes that need not be text, as a piece.
    pub fn bytes(&self, piece: &[u8]) {
        let _ = self.0.write_all(piece);
    }

    // What `print!` calls.
    pub fn print<D: Display + Drop>(&self, words: D) {
        let _ = Formatter::new(Piecewise(self.0)).write(words);
    }

    // A whole format as a piece.
    pub fn at_once<D: Display + Drop>(&self, words: D) {
        let _ = self.0.print(words);
    }
}
