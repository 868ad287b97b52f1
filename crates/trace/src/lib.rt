// The messages of a recorded trace, one after the other. Numbers are little-endian.
#![tactic(auto)]

ghost use Rattle.std.specs.Prelude.{◌≡◌, ◌<◌, length};
ghost use Rattle.words64.specs.Words64.{number_from};
ghost use Rattle.trace.specs.Trace.{start_in, block_in, next_of};

// What a trace begins with: nothing, a message that is cut, a byte that begins no message, a start with its length, or a block with
// its number and its size. Its ends are no refusals of this call, and each is taken up by its name: no Result is plainer.
#[derive(Clone, Copy, Debug, PartialEq, Eq)]
pub enum Next {
    Over,
    Cut,
    Foreign,
    Start(usize),
    Block(usize, usize),
}

// A number of eight bytes.
#[tactic(auto, unfolding(words64::specs::Words64::word))]
fn number(bytes: &[u8]) -> usize
    requires { length bytes.now ≡ 8 }
    ensures { result ≡ number_from bytes.now }
{
    words64::load(bytes, true) as usize
}

// A number of two bytes.
#[tactic(auto, using(crate::proofs::Messages::short_read))]
fn short(bytes: &[u8]) -> usize
    requires { length bytes.now ≡ 2 }
    ensures { (result ≡ number_from bytes.now) × (result < 65536) }
{
    usize::from(u16::from_le_bytes([bytes[0], bytes[1]]))
}

// A start after its first byte.
#[tactic(auto, using(crate::proofs::Messages::beginnings))]
fn start_in(rest: &[u8]) -> Next
    ensures { result ≡ start_in rest.now }
{
    if rest.len() < 8 {
        return Next::Cut;
    }
    Next::Start(number(&rest[..8]))
}

// A block after its first byte.
#[tactic(auto, using(crate::proofs::Messages::beginnings))]
fn block_in(rest: &[u8]) -> Next
    ensures { result ≡ block_in rest.now }
{
    if rest.len() < 10 {
        return Next::Cut;
    }
    let size = short(&rest[8..10]);
    if rest.len() - 10 < size {
        return Next::Cut;
    }
    Next::Block(number(&rest[..8]), size)
}

// What a trace begins with.
#[tactic(auto, unfolding(crate::specs::Trace::next_of))]
pub fn first(trace: &[u8]) -> Next
    ensures { result ≡ next_of trace.now }
{
    match trace {
        [] => Next::Over,
        [1, rest @ ..] => start_in(rest),
        [2, rest @ ..] => block_in(rest),
        _ => Next::Foreign,
    }
}
