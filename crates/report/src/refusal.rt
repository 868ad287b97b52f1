// The refusals in words: the number and name of each (rule 1.1), and what it means for the picture at hand.
use crate::piecewise::Piecewise;
use checks::Refusal;
use header::Limits;

// What follows the number. What Unsupported says is not all of it.
fn words(refusal: Refusal) -> &'static str {
    match refusal {
        Refusal::Truncated =>
            ", Truncated: the file ends before bytes that the header, a directory or a value needs",
        Refusal::Invalid =>
            ", Invalid: this is no TIFF file, or a directory or an entry is malformed",
        Refusal::Unsupported =>
            ", Unsupported: the picture is not of a kind that is read here, LogLuv (32845) of three samples",
        Refusal::Limit => ", Limit: the picture or a directory is larger than this program allows",
        Refusal::PageNotFound =>
            ", PageNotFound: the file has no picture, as its first directory is at 0",
        Refusal::OutputTooSmall =>
            ", OutputTooSmall: the picture is larger than a buffer of this program",
        Refusal::Budget => ", Budget: reading would take more units than there are",
        Refusal::NotArrived =>
            ", NotArrived: the header, a directory or a value is in a block that did not come",
        Refusal::MapSize => ", MapSize: the map has not one byte for each block",
        _ => ", a number without a name",
    }
}

// The other kind that is read, and what this program allows.
fn put_kind(out: &Piecewise<impl Print>, limits: Limits) {
    out.print(" or LogL (32844) of one, each of 16 bits, in SGILog packets (34676)");
    print!(out; ", no side above {}", limits.max_dimension);
}

// What this program allows, where a refusal may come of that.
fn put_limits(out: &Piecewise<impl Print>, limits: Limits) {
    print!(out;
        "\n            here: at most {} bytes for the picture, six a pixel (monochrome two), and for a segment, ten a pixel (monochrome \
        four); {} segments, {} entries in a directory",
        limits.max_output, limits.max_segments, limits.max_tags
    );
}

pub fn put(out: &Piecewise<impl Print>, refusal: Refusal, limits: Limits) {
    print!(out; "  refused   {}{}", u8::from(refusal), words(refusal));
    match refusal {
        Refusal::Unsupported => put_kind(out, limits),
        Refusal::Limit | Refusal::OutputTooSmall => put_limits(out, limits),
        _ => {}
    }
    out.print("\n");
}
