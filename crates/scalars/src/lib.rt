// The profile's first step, the scalar slots: each is absent, which gives its default, or a single value of type 3 or 4.
#![tactic(auto)]

ghost use Rattle.std.specs.Prelude.{◌≡◌, ◌<◌};
ghost use Rattle.checks.specs.Checks.{verdict};
ghost use Rattle.seen.specs.Seen.{seen};
ghost use Rattle.tags.specs.Inner.{SlotsThere};
ghost use Rattle.profile.specs.Profile.{scalar_fine, step1, slot_number, numbers_of};

use checks::Refusal;
use profile::Numbers;
use tags::{
    COMPRESSION, EXTRA_SAMPLES, FILL_ORDER, IMAGE_LENGTH, IMAGE_WIDTH, ORIENTATION, PHOTOMETRIC,
    PLANAR_CONFIGURATION, PREDICTOR, ROWS_PER_STRIP, SAMPLES_PER_PIXEL, TILE_LENGTH, TILE_WIDTH,
};

const SCALARS: [usize; 13] = [
    IMAGE_WIDTH,
    IMAGE_LENGTH,
    COMPRESSION,
    PHOTOMETRIC,
    FILL_ORDER,
    ORIENTATION,
    SAMPLES_PER_PIXEL,
    ROWS_PER_STRIP,
    PLANAR_CONFIGURATION,
    PREDICTOR,
    TILE_WIDTH,
    TILE_LENGTH,
    EXTRA_SAMPLES,
];

const DEFAULTS: [usize; 19] = [
    0, 0, 0, 1, 0, 1, 0, 1, 1, 4294967295, 0, 1, 1, 0, 0, 0, 0, 0, 0,
];

// Whether a scalar slot is absent or has one value of type 3 or 4.
#[tactic(auto, using(crate::proofs::ScalarSlots::scalar_rules))]
fn is_fine(file: &[u8], map: &[u8], big: bool, slots: [usize; 19], slot: usize) -> bool
    requires { SlotsThere (seen file.now map.now) slots × (slot < 19) }
    ensures { result ≡ scalar_fine (seen file.now map.now) big slots slot }
{
    slots[slot] == 0 || entries::has_values(file, map, big, slots[slot], 1)
}

// Step 1: every scalar slot, ascending.
#[tactic(auto, using(crate::proofs::ScalarSlots::scalar_rules))]
pub fn check_scalars(file: &[u8], map: &[u8], big: bool, slots: [usize; 19]) -> Result<(), Refusal>
    requires { SlotsThere (seen file.now map.now) slots }
    ensures { result ≡ verdict (step1 (seen file.now map.now) big slots) }
{
    for slot in SCALARS {
        if !is_fine(file, map, big, slots, slot) {
            return Err(Refusal::Invalid);
        }
    }
    Ok(())
}

// The number of a scalar slot, or its default.
#[tactic(auto, using(crate::proofs::ScalarSlots::scalar_rules))]
fn number_of(file: &[u8], map: &[u8], big: bool, slots: [usize; 19], slot: usize) -> usize
    requires { SlotsThere (seen file.now map.now) slots × (slot < 19) }
    ensures { (result ≡ slot_number (seen file.now map.now) big slots slot) × (result < 4294967296) }
{
    if slots[slot] == 0 {
        DEFAULTS[slot]
    } else {
        entries::scalar(file, map, big, slots[slot])
    }
}

// The numbers by name. No closure stands for the repeated arguments, as what it promises is then known by names of the check alone.
#[tactic(auto, using(crate::proofs::ScalarSlots::numbers_read))]
pub fn read_numbers(file: &[u8], map: &[u8], big: bool, slots: [usize; 19]) -> Numbers
    requires { SlotsThere (seen file.now map.now) slots }
    ensures { result ≡ numbers_of (seen file.now map.now) big slots }
{
    Numbers {
        width: number_of(file, map, big, slots, IMAGE_WIDTH),
        height: number_of(file, map, big, slots, IMAGE_LENGTH),
        compression: number_of(file, map, big, slots, COMPRESSION),
        photometric: number_of(file, map, big, slots, PHOTOMETRIC),
        fill_order: number_of(file, map, big, slots, FILL_ORDER),
        orientation: number_of(file, map, big, slots, ORIENTATION),
        samples: number_of(file, map, big, slots, SAMPLES_PER_PIXEL),
        strip_rows: number_of(file, map, big, slots, ROWS_PER_STRIP),
        planar: number_of(file, map, big, slots, PLANAR_CONFIGURATION),
        predictor: number_of(file, map, big, slots, PREDICTOR),
        tile_width: number_of(file, map, big, slots, TILE_WIDTH),
        tile_height: number_of(file, map, big, slots, TILE_LENGTH),
    }
}
