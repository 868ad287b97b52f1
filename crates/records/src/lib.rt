// What the vector programs share: numbers in the records of their files, eight bytes each, the least significant first; and a checksum.
#![tactic(auto)]

ghost use Rattle.std.specs.Prelude.{◌≡◌, [], ◌<◌, ◌≤◌};
ghost use Rattle.lists.specs.Lists.{lesser};
ghost use Rattle.seen.specs.Seen.{seen, There};
ghost use Rattle.records.specs.Records.{eight, number_at};

// A checksum of a whole buffer.
pub mod crc;

// A byte as a length.
pub fn wide(x: u8) -> usize
    ensures { (result ≡ x) × (result < 256) }
{
    usize::from(x)
}

// The lesser of two lengths, under the name that the programs' theorems have for it.
pub fn least(a: usize, b: usize) -> usize
    ensures { (result ≡ lesser a b) × (result ≤ a) × (result ≤ b) }
{
    a.min(b)
}

// In two halves, which `words` reads: its clause speaks of what is seen of a file, as the definition does.
#[tactic(auto, using(crate::proofs::Numbers::numbers))]
fn read(file: &[u8], at: usize) -> usize
    requires { There (seen file.now []) at 8 }
    ensures { result ≡ eight (seen file.now []) at }
{
    words::word4(file, b"", false, at) + 4294967296 * words::word4(file, b"", false, at + 4)
}

// The number at a place, or 0 where the file ends before it does.
#[tactic(auto, using(crate::proofs::Numbers::numbers))]
pub fn num(file: &[u8], at: usize) -> usize
    ensures { result ≡ number_at (seen file.now []) at }
{
    match seen::need(file, b"", at, 8) {
        Ok(()) => read(file, at),
        Err(_) => 0,
    }
}
