// What went wrong, one line each on standard error, as far as it is this program's own.
use report::complain::{Complained, Complaints};

const USAGE: &str = "\
usage: replay TRACE [OUT]
  TRACE  the recorded messages of a bus, starts and blocks, one after the other
";

const USAGE_OUT: &str =
    "  OUT    where to write L as a picture: NAME.png in grey, and in red, blue or yellow what is not good; NAME.pgm in grey alone\n";

pub fn usage(complaints: &Complaints<impl Print>) -> Complained {
    complaints.line(format_args!("{USAGE}{USAGE_OUT}"))
}

pub fn too_many(complaints: &Complaints<impl Print>, given: usize) -> Complained {
    complaints.line(format_args!(
        "replay: at most two names are taken, TRACE and OUT, and here are {given}\n"
    ))
}
