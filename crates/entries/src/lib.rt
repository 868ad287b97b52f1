// Type, count and values of an entry whose twelve bytes are there.
#![tactic(auto)]

ghost use Rattle.std.specs.Prelude.{◌≡◌, ◌<◌};
ghost use Rattle.seen.specs.Seen.{seen, There};
ghost use Rattle.entries.specs.Values.{count_at, numeric, has_values, size_of, place_of, word_at, scalar_of, value_is};
ghost use Rattle.entries.specs.Inner.{WordThere};

use checks::Refusal;

// Whether the type is 3 or 4.
#[tactic(auto, using(crate::proofs::EntryValues::entries))]
fn is_numeric(file: &[u8], map: &[u8], big: bool, entry: usize) -> bool
    requires { There (seen file.now map.now) entry 12 }
    ensures { result ≡ numeric (seen file.now map.now) big entry }
{
    let kind = words::word2(file, map, big, entry + 2);
    kind == 3 || kind == 4
}

// How many values.
#[tactic(auto, using(crate::proofs::EntryValues::entries))]
fn count_of(file: &[u8], map: &[u8], big: bool, entry: usize) -> usize
    requires { There (seen file.now map.now) entry 12 }
    ensures { (result ≡ count_at (seen file.now map.now) big entry) × (result < 4294967296) }
{
    words::word4(file, map, big, entry + 4)
}

// Whether it has n values of type 3 or 4.
#[tactic(auto, using(crate::proofs::EntryValues::entries))]
pub fn has_values(file: &[u8], map: &[u8], big: bool, entry: usize, n: usize) -> bool
    requires { There (seen file.now map.now) entry 12 }
    ensures { result ≡ has_values (seen file.now map.now) big entry n }
{
    count_of(file, map, big, entry) == n && is_numeric(file, map, big, entry)
}

// The bytes of one value.
#[tactic(auto, using(crate::proofs::EntryValues::entries))]
fn size_of(file: &[u8], map: &[u8], big: bool, entry: usize) -> usize
    requires { There (seen file.now map.now) entry 12 }
    ensures { (result ≡ size_of (seen file.now map.now) big entry) × (result < 5) }
{
    let kind = words::word2(file, map, big, entry + 2);
    if kind == 3 { 2 } else { 4 }
}

// The value of the entry's type at a place where its bytes are.
#[tactic(auto, using(crate::proofs::EntryValues::entries))]
fn word_at(file: &[u8], map: &[u8], big: bool, entry: usize, at: usize) -> usize
    requires { WordThere (seen file.now map.now) big entry at }
    ensures { (result ≡ word_at (seen file.now map.now) big entry at) × (result < 4294967296) }
{
    if size_of(file, map, big, entry) == 2 {
        words::word2(file, map, big, at)
    } else {
        words::word4(file, map, big, at)
    }
}

// A single value: left-justified in the entry's field.
#[tactic(auto, using(crate::proofs::EntryValues::entries))]
pub fn scalar(file: &[u8], map: &[u8], big: bool, entry: usize) -> usize
    requires { There (seen file.now map.now) entry 12 }
    ensures { (result ≡ scalar_of (seen file.now map.now) big entry) × (result < 4294967296) }
{
    word_at(file, map, big, entry, entry + 8)
}

// Where value i lies: in the entry's field if all values fit there, else from the offset that it holds.
#[tactic(auto, using(crate::proofs::EntryValues::places))]
fn place_of(file: &[u8], map: &[u8], big: bool, entry: usize, i: usize) -> usize
    requires { There (seen file.now map.now) entry 12 × (i < count_at (seen file.now map.now) big entry) }
    ensures { result ≡ place_of (seen file.now map.now) big entry i }
{
    let size = size_of(file, map, big, entry);
    let count = count_of(file, map, big, entry);
    if size * count <= 4 {
        return entry + 8 + size * i;
    }
    words::word4(file, map, big, entry + 8) + size * i
}

// Value i: outside the file 1, not arrived 8.
pub fn value_at(
    file: &[u8],
    map: &[u8],
    big: bool,
    entry: usize,
    i: usize,
) -> Result<usize, Refusal>
    requires { There (seen file.now map.now) entry 12 × (i < count_at (seen file.now map.now) big entry) }
    ensures { result ≡ value_is (seen file.now map.now) big entry i }
{
    let at = place_of(file, map, big, entry, i);
    seen::need(file, map, at, size_of(file, map, big, entry))?;
    Ok(word_at(file, map, big, entry, at))
}
