// What is seen of a file under a delivery map: whether bytes lie in the file and came, and whether a map has the length that a file asks for.
#![tactic(auto)]

ghost use Rattle.std.specs.Prelude.{◌≡◌, ◌-◌, ◌<◌, length};
ghost use Rattle.checks.specs.Checks.{verdict};
ghost use Rattle.seen.specs.Seen.{seen, blocks_in, block_length, map_length, map_checks, block_came, also_came, arrived, whole, reach_of, there};

use checks::Refusal;

// Where the bytes asked for are: in the file and arrived, not all in the file, or in it and not all arrived.
#[derive(Clone, Copy, Debug, PartialEq, Eq)]
pub enum Reach {
    Inside,
    Outside,
    Missing,
}

// How many blocks a file of this size has.
pub fn blocks_in(size: usize) -> usize
    ensures { result ≡ blocks_in size }
{
    size.div_ceil(512)
}

// How many bytes a block has in a file of this size.
pub fn block_length(size: usize, block: usize) -> usize
    requires { block < blocks_in size }
    ensures { result ≡ block_length size block }
{
    (size - block * 512).min(512)
}

// How long the map of a file of this size is: a byte for each block.
pub fn map_length(size: usize) -> usize
    ensures { result ≡ map_length size }
{
    blocks_in(size)
}

// The map says from now on that a block came.
#[tactic(auto, using(crate::proofs::Arrivals::block_marked))]
pub fn mark_came(map: &mut [u8], block: usize)
    requires { block < length map.old }
    ensures { map.new ≡ also_came block map.old }
{
    map[block] = 1;
}

// Whether the map says that a block came.
#[tactic(auto, unfolding(crate::specs::Seen::block_came))]
fn block_came(map: &[u8], block: usize) -> bool
    ensures { result ≡ block_came map.now block }
{
    map.get(block) == Some(&1)
}

// Whether each block from that of start to that of the byte before end came.
#[tactic(auto, using(crate::proofs::Blocks::blocks))]
fn blocks_came(map: &[u8], start: usize, end: usize) -> bool
    requires { (start < end) × (0 < length map.now) }
    ensures { result ≡ whole (arrived map.now) start (end - start) }
{
    for block in start / 512..(end - 1) / 512 + 1 {
        if !block_came(map, block) {
            return false;
        }
    }
    true
}

// Whether n bytes from start lie in the file, and came. It looks at the blocks touched, once each.
#[tactic(auto, using(crate::proofs::Blocks::reaches))]
pub fn reached(file: &[u8], map: &[u8], start: usize, n: usize) -> Reach
    ensures { result ≡ reach_of (seen file.now map.now) start n }
{
    let size = file.len();
    if size < start || size - start < n {
        return Reach::Outside;
    }
    if n == 0 || map.is_empty() || blocks_came(map, start, start + n) {
        Reach::Inside
    } else {
        Reach::Missing
    }
}

// The same as a check: outside 1, not arrived 8.
pub fn need(file: &[u8], map: &[u8], start: usize, n: usize) -> Result<(), Refusal>
    ensures { result ≡ verdict (there (seen file.now map.now) start n) }
{
    match reached(file, map, start, n) {
        Reach::Inside => Ok(()),
        Reach::Outside => Err(Refusal::Truncated),
        Reach::Missing => Err(Refusal::NotArrived),
    }
}

// Whether a map has the length that a file asks for, else 9. No map stands for a file that came whole.
#[tactic(auto, using(crate::proofs::Maps::maps))]
pub fn check_map(file: &[u8], map: &[u8]) -> Result<(), Refusal>
    ensures { result ≡ verdict (map_checks (length file.now) (length map.now)) }
{
    if map.is_empty() || map.len() == map_length(file.len()) {
        Ok(())
    } else {
        Err(Refusal::MapSize)
    }
}
