// Words of two and of four bytes in either byte order, where these bytes of a file are there.
#![tactic(auto)]

ghost use Rattle.std.specs.Prelude.{◌≡◌, ◌<◌};
ghost use Rattle.seen.specs.Seen.{seen, There, two, four};

// The word of two bytes at a place where they are.
#[tactic(auto, using(seen::proofs::Words::words))]
pub fn word2(file: &[u8], map: &[u8], big: bool, at: usize) -> usize
    requires { There (seen file.now map.now) at 2 }
    ensures { (result ≡ two big (seen file.now map.now) at) × (result < 65536) }
{
    let bytes = [file[at], file[at + 1]];
    let word = if big {
        u16::from_be_bytes(bytes)
    } else {
        u16::from_le_bytes(bytes)
    };
    usize::from(word)
}

// The word of four bytes at a place where they are.
pub fn word4(file: &[u8], map: &[u8], big: bool, at: usize) -> usize
    requires { There (seen file.now map.now) at 4 }
    ensures { (result ≡ four big (seen file.now map.now) at) × (result < 4294967296) }
{
    let bytes = [file[at], file[at + 1], file[at + 2], file[at + 3]];
    let word = if big {
        u32::from_be_bytes(bytes)
    } else {
        u32::from_le_bytes(bytes)
    };
    word as usize
}
