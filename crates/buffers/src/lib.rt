// What programs have their buffers from: arrays whose length a caller knows, and a reader's bytes in a lent buffer.
#![tactic(auto)]

ghost use Rattle.std.specs.Prelude.{◌≡◌, length, All};
ghost use Rattle.std.specs.Io.{ReadsAtMost};

use std::io;
use std::io::Read;

// So many bytes of one value. The contract gives their length, which lending the array as a slice needs.
pub fn filled<const N: usize>(byte: u8) -> [u8; N]
    ensures size { N ≡ length result }
    ensures bytes { All (λ b. b ≡ byte) result }
{
    [byte; N]
}

// Reads until the buffer is full, the input ends or a read fails, and then what came before it is in the buffer. The place moves on by
// what a read gave, for which no iterator stands.
pub fn read_full(input: &mut impl Read, buffer: &mut [u8]) -> io::Result<usize>
    ensures { ReadsAtMost result buffer.new }
{
    let mut n = 0;
    while n < buffer.len() {
        match input.read(&mut buffer[n..])? {
            0 => break,
            more => n += more,
        }
    }
    Ok(n)
}
