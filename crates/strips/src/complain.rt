// What went wrong, one line each on standard error, as far as it is this program's own.
use report::complain::{Complained, Complaints};

const USAGE: &str = "\
usage: strips FILE [MAP [OUT]]
  FILE  a LogLuv TIFF picture, in colour or monochrome
";

const USAGE_MAP: &str =
    "  MAP   its delivery map, a byte for each block of 512 bytes, 1 where the block came; without it the picture came whole\n";

const USAGE_OUT: &str =
    "  OUT   where to write L as a picture: NAME.png in grey, and in red, blue or yellow what is not good; NAME.pgm in grey alone\n";

pub fn usage(complaints: &Complaints<impl Print>) -> Complained {
    complaints.line(format_args!("{USAGE}{USAGE_MAP}{USAGE_OUT}"))
}

pub fn too_many(complaints: &Complaints<impl Print>, given: usize) -> Complained {
    complaints.line(format_args!(
        "strips: at most three names are taken, FILE, MAP and OUT, and here are {given}\n"
    ))
}

pub fn too_large(complaints: &Complaints<impl Print>, name: &[u8], most: usize) -> Complained {
    complaints.about(
        "strips: picture '",
        name,
        format_args!("' has more than {most} bytes, the most that is read here\n"),
    )
}

// A map that filled its buffer may be longer than that.
pub fn wrong_length(
    complaints: &Complaints<impl Print>,
    name: &[u8],
    length: usize,
    most: usize,
    wanted: usize,
) -> Complained {
    let at_least = if length == most { "at least " } else { "" };
    complaints.about(
        "strips: map '",
        name,
        format_args!(
            "' has {at_least}{length} bytes, and must have {wanted}, one for each block of the picture\n"
        ),
    )
}
