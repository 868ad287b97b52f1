// Bytes of a lent buffer made 0: all of them, or rows of them that lie a pitch apart.
#![tactic(auto)]

ghost use Rattle.std.specs.Prelude.{◌≡◌, length, replicate};
ghost use Rattle.lists.specs.Lists.{spread};
ghost use Rattle.clearing.specs.Inner.{zero_row, Clearable};

// Every byte of a lent part becomes 0.
pub fn clear(part: &mut [u8])
    ensures { part.new ≡ replicate (length part.old) 0 }
{
    part.fill(0);
}

// Rows of so many bytes, the first at `first`, each further one a pitch later.
// By their places: of what chunks_mut lends in a loop no element is known afterwards.
#[tactic(auto, using(crate::proofs::ClearedRows::blanks))]
pub fn clear_rows(size: usize, rows: usize, first: usize, pitch: usize, out: &mut [u8])
    requires { Clearable size rows first pitch (length out.old) }
    ensures { out.new ≡ spread (zero_row size) pitch 0 rows first out.old }
{
    let mut at = first;
    for _ in 0..rows {
        out[at..at + size].fill(0);
        at += pitch;
    }
}
