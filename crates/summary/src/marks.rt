// Quality codes and a map's bytes, counted, and the line of marks that a person reads.
ghost use Rattle.std.specs.Prelude.{◌≡◌, ◌+◌, ◌<◌, ◌≤◌, length};
ghost use Rattle.lists.specs.Lists.{lesser, tabulate};
ghost use Rattle.summary.specs.Marks.{tally_of, mark_of, char_at, line_length};

// How many of the bytes are the one asked for.
#[tactic(auto, using(crate::proofs::Tallies::tally_counts))]
pub fn tally(bytes: &[u8], wanted: u8) -> usize
    ensures { (result ≡ tally_of wanted bytes.now) × (result ≤ length bytes.now) }
{
    bytes.iter().filter(|byte| **byte == wanted).count()
}

fn mark(code: u8) -> u8
    ensures { result ≡ mark_of code }
{
    match code {
        1 => b'.',
        0..=9 => b'0' + code,
        _ => b'?',
    }
}

#[tactic(auto, unfolding(crate::specs::Marks::char_at))]
fn char_at(codes: &[u8], place: usize) -> u8
    ensures { result ≡ char_at codes.now place }
{
    if place % 11 == 10 {
        return b' ';
    }
    let k = place / 11 * 10 + place % 11;
    mark(codes.get(k).copied().unwrap_or(0))
}

// Where the line ends that starts with a code: so many codes later, or with the last one.
pub fn line_end(at: usize, codes: usize) -> usize
    requires { at < codes }
    ensures { (result ≡ lesser (at + 60) codes) × (at < result) × (result ≤ codes) }
{
    at + (codes - at).min(60)
}

// How long the line of so many marks is.
pub fn line_length(codes: &[u8]) -> usize
    ensures { result ≡ line_length (length codes.now) }
{
    let n = codes.len();
    n + n.saturating_sub(1) / 10
}

// The line of marks, as far as it is lent.
#[tactic(auto, using(placing::proofs::Filled::tabulated))]
pub fn put_line(codes: &[u8], line: &mut [u8])
    ensures { line.new ≡ tabulate (length line.old) (char_at codes.now) }
{
    for (place, mark) in line.iter_mut().enumerate() {
        *mark = char_at(codes, place);
    }
}
