// Eight bytes and the number of 64 bits that they stand for.
#![tactic(auto)]

ghost use Rattle.std.specs.Prelude.{◌≡◌, ◌+◌, ◌*◌, length};
ghost use Rattle.words64.specs.Words64.{word, digits};

// The number of eight bytes, the least significant first. Of `from_be_bytes` the compiler makes vector code, which takes nearly twice the
// time of one swap a number on the x86-64 processors that all have, and so it is not used below.
fn join(a: u8, b: u8, c: u8, d: u8, e: u8, f: u8, g: u8, h: u8) -> u64
    ensures { result ≡ a + 256 * (b + 256 * (c + 256 * (d + 256 * (e + 256 * (f + 256 * (g + 256 * h)))))) }
{
    let low = a as u64 + 256 * (b as u64) + 65536 * (c as u64) + 16777216 * (d as u64);
    let high = e as u64 + 256 * (f as u64) + 65536 * (g as u64) + 16777216 * (h as u64);
    low + 4294967296 * high
}

// The number of eight bytes in the byte order that is named.
#[tactic(auto, using(crate::proofs::Digits::little_word, crate::proofs::Digits::big_joined))]
pub fn load(p: &[u8], little: bool) -> u64
    requires { length p.now ≡ 8 }
    ensures { result ≡ word little p.now }
{
    if little {
        let bytes = *p.as_array().unwrap();
        u64::from_le_bytes(bytes)
    } else {
        join(p[7], p[6], p[5], p[4], p[3], p[2], p[1], p[0])
    }
}

// The eight bytes of a number in little-endian.
#[tactic(auto, using(crate::proofs::Digits::written_digits))]
pub fn store(d: &mut [u8], v: u64)
    requires { length d.old ≡ 8 }
    ensures { d.new ≡ digits 8 v }
{
    d.copy_from_slice(&v.to_le_bytes());
}
