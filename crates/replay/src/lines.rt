// What came of a trace, for a person to take in at a glance, in the columns of the picture's report.
use crate::messages::{Progress, Stop};
use crate::stream::Replayed;
use report::pieces::put_count;
use report::piecewise::Piecewise;

pub fn put_messages(out: &Piecewise<impl Print>, progress: Progress) {
    let (messages, accepted) = (progress.messages, progress.accepted);
    print!(out; "  messages  {messages}, of which {accepted} were accepted\n");
    put_count(out, progress.too_long, "too long for the buffers (10)\n");
    put_count(
        out,
        progress.outside,
        "outside the picture, or before any start (11)\n",
    );
    put_count(out, progress.wrong_size, "of a wrong size (12)\n");
}

// How the trace ends after so many messages of so many bytes.
pub fn put_end(out: &Piecewise<impl Print>, replayed: Replayed) {
    let bytes = replayed.bytes;
    out.print("  trace     ");
    match replayed.stop {
        Some(Stop::Over) if bytes == 0 => out.print("has no bytes\n"),
        Some(Stop::Over) => out.print("ends after a whole message\n"),
        Some(Stop::Cut) => {
            let next = replayed.progress.messages.saturating_add(1);
            print!(out; "ends within message {next}, which was not taken (1)\n");
        }
        Some(Stop::Foreign(byte)) => {
            print!(out;
                "stopped after {bytes} bytes, as a message begins with 1 or 2 and not with {byte} (2)\n"
            );
        }
        None => out.print("goes on farther than its bytes can be counted\n"),
    }
}
