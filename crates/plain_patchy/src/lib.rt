// The plain form under the named one of patchy reading: its answer as a number and sizes, and units by value that are handed back.
#![tactic(auto)]

ghost use Rattle.std.specs.Prelude.{◌≡◌};
ghost use Rattle.plain_patchy.specs.Read.{no_sizes, PatchyRead};

use header::Limits;
use patchy::Sizes;

// The answer of patchy reading: 0 and the picture's sizes, or a refusal's number and sizes of 0.
#[derive(Clone, Copy, Debug, PartialEq, Eq)]
pub struct Answer {
    pub number: u8,
    pub sizes: Sizes,
}

// The answer of patchy reading, and the units left.
#[derive(Clone, Copy, Debug, PartialEq, Eq)]
pub struct Taken {
    pub answer: Answer,
    pub left: usize,
}

fn no_sizes() -> Sizes
    ensures { result ≡ no_sizes }
{
    Sizes {
        width: 0,
        height: 0,
        block_width: 0,
        block_height: 0,
        segments: 0,
        channels: 0,
    }
}

pub fn read(
    file: &[u8],
    map: &[u8],
    page: usize,
    limits: Limits,
    output: &mut [u8],
    scratch: &mut [u8],
    quality: &mut [u8],
    left: usize,
) -> Taken
    ensures { PatchyRead file.now map.now page limits
        output.old scratch.old quality.old left
        result.answer result.left output.new scratch.new quality.new }
{
    match patchy::read(file, map, page, limits, left, output, scratch, quality) {
        Ok(reading) => Taken {
            answer: Answer {
                number: 0,
                sizes: reading.sizes,
            },
            left: reading.left,
        },
        Err(refused) => Taken {
            answer: Answer {
                number: u8::from(refused.refusal),
                sizes: no_sizes(),
            },
            left: refused.left,
        },
    }
}
