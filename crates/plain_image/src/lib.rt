// The plain forms under the named ones: an image as its file and what it carries, and units by value that are handed back.
#![tactic(auto)]

ghost use Rattle.std.specs.Prelude.{◌≡◌};
ghost use Rattle.plain_image.specs.Image.{refused, ImageInspected, ImageDecoded};

use checks::Refusal;
use handle::Handle;
use header::Limits;
use image_info::Info;
use picture::Format;

// What inspection gives, and the units left.
#[derive(Clone, Copy, Debug, PartialEq, Eq)]
pub struct Inspection {
    pub info: Info,
    pub left: usize,
}

// The number of a decode's answer, and the units left.
#[derive(Clone, Copy, Debug, PartialEq, Eq)]
pub struct Decoded {
    pub number: u8,
    pub left: usize,
}

// What an image carries after a refusal.
fn refused_with(number: u8) -> Info
    ensures { result ≡ refused number }
{
    let format = Format {
        width: 0,
        height: 0,
        block_width: 0,
        block_height: 0,
        tiled: false,
        across: 0,
        segments: 0,
        output: 0,
        big: false,
        offsets: 0,
        counts: 0,
        entries: 0,
        mono: false,
    };
    let handle = Handle {
        format,
        page: 0,
        scratch: 0,
        work: 0,
    };
    let limits = Limits {
        max_input: 0,
        max_output: 0,
        max_dimension: 0,
        max_directories: 0,
        max_tags: 0,
        max_segments: 0,
    };
    Info {
        number,
        limits,
        handle,
    }
}

pub fn inspect(input: &[u8], page: usize, limits: Limits, left: usize) -> Inspection
    ensures { ImageInspected input.now page limits left result.info result.left }
{
    match logluv_tiff::inspect(input, page, limits, left) {
        Ok(found) => Inspection {
            info: Info {
                number: 0,
                limits,
                handle: found.handle,
            },
            left: found.left,
        },
        Err(refused) => Inspection {
            info: refused_with(u8::from(refused.refusal)),
            left: refused.left,
        },
    }
}

// An image that carries a refusal is not what a successful inspection gives.
pub fn decode(
    input: &[u8],
    info: Info,
    output: &mut [u8],
    scratch: &mut [u8],
    left: usize,
) -> Decoded
    ensures { ImageDecoded input.now info output.old scratch.old left
        result.number result.left output.new scratch.new }
{
    if info.number != 0 {
        return Decoded {
            number: u8::from(Refusal::Invalid),
            left,
        };
    }
    match logluv_tiff::decode(input, info.limits, info.handle, left, output, scratch) {
        Ok(rest) => Decoded {
            number: 0,
            left: rest,
        },
        Err(refused) => Decoded {
            number: u8::from(refused.refusal),
            left: refused.left,
        },
    }
}
