// The slots by name, and the entries of a directory by slot: each known tag at most once and with a type.
#![tactic(auto)]

ghost use Rattle.std.specs.Prelude.{◌≡◌, ◌*◌};
ghost use Rattle.seen.specs.Seen.{seen, There};
ghost use Rattle.tags.specs.Inner.{slot_if_known, entered_in, tags_of};

// The slots by their TIFF names. They index the places of a directory's entries: an enum would be cast at each use, and is no plainer.
pub const IMAGE_WIDTH: usize = 0;

pub const IMAGE_LENGTH: usize = 1;

pub const BITS_PER_SAMPLE: usize = 2;

pub const COMPRESSION: usize = 3;

pub const PHOTOMETRIC: usize = 4;

pub const FILL_ORDER: usize = 5;

pub const STRIP_OFFSETS: usize = 6;

pub const ORIENTATION: usize = 7;

pub const SAMPLES_PER_PIXEL: usize = 8;

pub const ROWS_PER_STRIP: usize = 9;

pub const STRIP_BYTE_COUNTS: usize = 10;

pub const PLANAR_CONFIGURATION: usize = 11;

pub const PREDICTOR: usize = 12;

pub const TILE_WIDTH: usize = 13;

pub const TILE_LENGTH: usize = 14;

pub const TILE_OFFSETS: usize = 15;

pub const TILE_BYTE_COUNTS: usize = 16;

pub const EXTRA_SAMPLES: usize = 17;

pub const SAMPLE_FORMAT: usize = 18;

// The tag of each slot.
const TAGS: [usize; 19] = [
    256, 257, 258, 259, 262, 266, 273, 274, 277, 278, 279, 284, 317, 322, 323, 324, 325, 338, 339,
];

// The slot of a tag that is known.
fn slot_of(tag: usize) -> Option<usize>
    ensures { result ≡ slot_if_known tag }
{
    TAGS.iter().position(|known| *known == tag)
}

// The slots with one entry more: its place goes into its slot, unless that is taken or the type is 0.
#[tactic(auto, using(crate::proofs::Entries::entries))]
fn enter(
    file: &[u8],
    map: &[u8],
    big: bool,
    entry: usize,
    mut slots: [usize; 19],
) -> Option<[usize; 19]>
    requires { There (seen file.now map.now) entry 12 }
    ensures { result ≡ entered_in (seen file.now map.now) big entry slots }
{
    if let Some(slot) = slot_of(words::word2(file, map, big, entry)) {
        if words::word2(file, map, big, entry + 2) == 0 || slots[slot] != 0 {
            return None;
        }
        slots[slot] = entry;
    }
    Some(slots)
}

// The place of the entry of each slot, 0 for a slot whose tag is absent: no entry lies at 0. None where an entry may not stand.
#[tactic(auto, using(crate::proofs::Entries::taggings))]
pub fn read_tags(file: &[u8], map: &[u8], big: bool, first: usize, n: usize) -> Option<[usize; 19]>
    requires { There (seen file.now map.now) first (12 * n) }
    ensures { result ≡ tags_of (seen file.now map.now) big first n }
{
    let mut slots = [0usize; 19];
    for i in 0..n {
        slots = enter(file, map, big, first + 12 * i, slots)?;
    }
    Some(slots)
}
