// The limits on the whole file, then the first eight bytes: byte order and first directory.
#![tactic(auto)]

ghost use Rattle.std.specs.Prelude.{◌≡◌, length};
ghost use Rattle.checks.specs.Checks.{verdict};
ghost use Rattle.seen.specs.Seen.{seen, There};
ghost use Rattle.header.specs.Header.{limit_checks, begins, order_checks, header_checks, start_of};

use checks::Refusal;

// What a caller allows.
#[derive(Clone, Copy, Debug, PartialEq, Eq)]
pub struct Limits {
    pub max_input: usize,
    pub max_output: usize,
    pub max_dimension: usize,
    pub max_directories: usize,
    pub max_tags: usize,
    pub max_segments: usize,
}

// The byte order (whether the high byte comes first) and the place of the first directory.
#[derive(Clone, Copy, Debug, PartialEq, Eq)]
pub struct Start {
    pub big: bool,
    pub first: usize,
}

// The two limits that are known before any byte is read.
#[tactic(auto, using(checks::proofs::Rules::verdicts))]
pub fn check_limits(size: usize, page: usize, limits: Limits) -> Result<(), Refusal>
    ensures { result ≡ verdict (limit_checks size page limits) }
{
    if limits.max_input < size || limits.max_directories <= page {
        return Err(Refusal::Limit);
    }
    Ok(())
}

// Whether the first four bytes are these.
fn begins_with(file: &[u8], map: &[u8], mark: &[u8; 4]) -> bool
    requires { There (seen file.now map.now) 0 8 }
    ensures { result ≡ begins (seen file.now map.now) 0 mark.now }
{
    file.starts_with(mark)
}

// The first four bytes: those of the 64-bit format 3, others than the two orders 2.
#[tactic(auto, using(crate::proofs::Orders::orders))]
fn read_order(file: &[u8], map: &[u8]) -> Result<Start, Refusal>
    requires { There (seen file.now map.now) 0 8 }
    ensures { result ≡ start_of (seen file.now map.now) (order_checks (seen file.now map.now)) }
{
    if begins_with(file, map, b"II+\0") || begins_with(file, map, b"MM\0+") {
        return Err(Refusal::Unsupported);
    }
    let big = begins_with(file, map, b"MM\0*");
    if big || begins_with(file, map, b"II*\0") {
        let first = words::word4(file, map, big, 4);
        return Ok(Start { big, first });
    }
    Err(Refusal::Invalid)
}

// The first eight bytes.
pub fn read_header(file: &[u8], map: &[u8]) -> Result<Start, Refusal>
    ensures { result ≡ start_of (seen file.now map.now) (header_checks (seen file.now map.now)) }
{
    seen::need(file, map, 0, 8)?;
    read_order(file, map)
}
