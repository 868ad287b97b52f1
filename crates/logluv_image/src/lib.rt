// The named forms of the readers: an image that holds the lent file, and a budget that is lent and charged in place. Each call is
// thin: it takes these apart, calls the plain form, and puts the units left into the budget.
#![tactic(auto)]

ghost use Rattle.std.specs.Prelude.{◌≡◌};
ghost use Rattle.plain_image.specs.Image.{ImageInspected, ImageDecoded};
ghost use Rattle.plain_patchy.specs.Read.{PatchyRead};

use header::Limits;
use image_info::Info;
use plain_patchy::Answer;

// The units at hand.
#[derive(Clone, Copy, Debug, PartialEq, Eq)]
pub struct Budget {
    pub remaining: usize,
}

// A file and what its inspection gave.
#[derive(Clone, Copy)]
pub struct LogluvImage<'a> {
    pub input: &'a [u8],
    pub info: Info,
}

// Strict inspection. The image carries the answer's number; after a refusal all else in it but the file is 0.
pub fn inspect_logluv_tiff<'a>(
    input: &'a [u8],
    page: usize,
    limits: Limits,
    budget: &mut Budget,
) -> LogluvImage<'a>
    ensures { (result.input ≡ input.entry)
        × ImageInspected input.now page limits budget.old.remaining result.info budget.new.remaining }
{
    let found = plain_image::inspect(input, page, limits, budget.remaining);
    budget.remaining = found.left;
    LogluvImage {
        input,
        info: found.info,
    }
}

impl<'a> LogluvImage<'a> {
    // What the image carries besides the file: upstream's getters are its methods.
    pub fn info(self) -> Info
        ensures { result ≡ self.entry.info }
    {
        self.info
    }

    // Strict decode. An image that is not what a successful inspection gives is refused with 2, then short buffers with 6, then the
    // budget with 7.
    pub fn decode_with_scratch(
        self,
        output: &mut [u8],
        scratch: &mut [u8],
        budget: &mut Budget,
    ) -> u8
        ensures { ImageDecoded self.entry.input.now self.entry.info
            output.old scratch.old budget.old.remaining
            result budget.new.remaining output.new scratch.new }
    {
        let done = plain_image::decode(self.input, self.info, output, scratch, budget.remaining);
        budget.remaining = done.left;
        done.number
    }
}

// Patchy reading. The answer carries its number; after a refusal all else in it is 0.
pub fn read_patchy(
    file: &[u8],
    map: &[u8],
    page: usize,
    limits: Limits,
    output: &mut [u8],
    scratch: &mut [u8],
    quality: &mut [u8],
    budget: &mut Budget,
) -> Answer
    ensures { PatchyRead file.now map.now page limits
        output.old scratch.old quality.old budget.old.remaining
        result budget.new.remaining output.new scratch.new quality.new }
{
    let taken = plain_patchy::read(
        file,
        map,
        page,
        limits,
        output,
        scratch,
        quality,
        budget.remaining,
    );
    budget.remaining = taken.left;
    taken.answer
}
