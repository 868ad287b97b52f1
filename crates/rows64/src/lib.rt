// One row of predictor 64: its samples in their order, each with the one before it in its channel added where the sum goes on.
#![tactic(auto)]

ghost use Rattle.std.specs.Prelude.{◌≡◌, ◌*◌, true, length};
ghost use Rattle.rows64.specs.Rows64.{row64};
ghost use Rattle.rows64.specs.Inner.{RowFits, plain_row};

// Without prediction the samples are the row's words, whatever its channels.
#[tactic(auto, using(crate::proofs::Plain::copies))]
fn copy_row(raw: &[u8], samples: usize, little: bool, out: &mut [u8])
    requires { (length raw.now ≡ 8 * samples) × (length out.old ≡ 8 * samples) }
    ensures { out.new ≡ plain_row little samples raw.now }
{
    for i in 0..samples {
        let at = 8 * i;
        let sample = words64::load(&raw[at..at + 8], little);
        words64::store(&mut out[at..at + 8], sample);
    }
}

// The sum starts anew in the columns that are multiples of the reset width. A sample before is read back from what is written. Channel and
// column are counted from sample to sample: a loop over channels within one over columns takes twice the time for a single channel. A loop
// by hand over bytes: of a `for` over samples the compiler made one whose test lies across two lines of the processor's, at half of all places.
#[tactic(auto, using(crate::proofs::Written::samplings))]
fn sum_row(raw: &[u8], w: usize, ch: usize, reset: usize, little: bool, out: &mut [u8])
    requires { RowFits w ch reset (length raw.now) (length out.old) }
    ensures { out.new ≡ row64 little true w ch reset raw.now }
{
    let lag = 8 * ch;
    let mut channel = 0;
    let mut since = 0;
    let mut at = 0;
    while at < raw.len() {
        let end = at + 8;
        let mut sample = words64::load(&raw[at..end], little);
        if since > 0 {
            let before = at - lag;
            sample = sample.wrapping_add(words64::load(&out[before..before + 8], true));
        }
        words64::store(&mut out[at..end], sample);
        channel += 1;
        if channel >= ch {
            channel = 0;
            since = if since + 1 < reset { since + 1 } else { 0 };
        }
        at = end;
    }
}

// Widths, order and prediction come one by one, as C hands them to `chelmesut_predictor64`: a struct would be made there only to be read here.
#[tactic(auto, using(crate::proofs::Plain::plain_is))]
pub fn convert_row(
    raw: &[u8],
    w: usize,
    ch: usize,
    reset: usize,
    little: bool,
    predict: bool,
    out: &mut [u8],
)
    requires { RowFits w ch reset (length raw.now) (length out.old) }
    ensures { out.new ≡ row64 little predict w ch reset raw.now }
{
    if predict {
        sum_row(raw, w, ch, reset, little, out);
    } else {
        copy_row(raw, w * ch, little, out);
    }
}
