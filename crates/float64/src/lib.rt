// Predictor 64: samples of 64 bits from either byte order into little-endian, the sums of prediction undone where asked for.
#![tactic(auto)]

ghost use Rattle.std.specs.Prelude.{◌≡◌, length};
ghost use Rattle.lists.specs.Lists.{overlay};
ghost use Rattle.checks.specs.Checks.{verdict};
ghost use Rattle.checks.specs.Buffers.{afterwards};
ghost use Rattle.float64.specs.Float64.{samples, checks64};
ghost use Rattle.float64.specs.Inner.{Fitting};

use checks::Refusal;

// Each row is turned by itself into the place of its number.
fn convert_rows(
    raw: &[u8],
    w: usize,
    h: usize,
    ch: usize,
    reset: usize,
    little: bool,
    predict: bool,
    out: &mut [u8],
)
    requires { Fitting w h ch reset (length raw.now) (length out.old) }
    ensures { out.new ≡ overlay (samples little predict w h ch reset raw.now) out.old }
{
    let size = w * (8 * ch);
    for y in 0..h {
        let at = y * size;
        let end = at + size;
        rows64::convert_row(
            &raw[at..end],
            w,
            ch,
            reset,
            little,
            predict,
            &mut out[at..end],
        );
    }
}

// The arguments come one by one, as C hands them over: a struct of them would be made at each of its few callers only to be read here.
// Refused, in this order: channels with 3, a size of 0 with 2, too large with 4, raw short with 1, out short with 6.
#[tactic(auto, using(checks::proofs::Rules::verdicts))]
pub fn convert(
    raw: &[u8],
    w: usize,
    h: usize,
    ch: usize,
    reset: usize,
    little: bool,
    predict: bool,
    out: &mut [u8],
) -> Result<(), Refusal>
    ensures answer { result ≡ verdict (checks64 w h ch reset (length raw.now) (length out.old)) }
    ensures buffer { out.new ≡ afterwards result (samples little predict w h ch reset raw.now) out.old }
{
    if ch == 0 || 4 < ch {
        return Err(Refusal::Unsupported);
    }
    if w == 0 || h == 0 || reset == 0 {
        return Err(Refusal::Invalid);
    }
    let size = checks::product3(h, w, 8 * ch).ok_or(Refusal::Limit)?;
    if raw.len() < size {
        return Err(Refusal::Truncated);
    }
    if out.len() < size {
        return Err(Refusal::OutputTooSmall);
    }
    if predict {
        convert_rows(raw, w, h, ch, reset, little, true, out);
    } else {
        // Nothing tells then where a row ends, and so all rows are one.
        convert_rows(raw, w * h, 1, ch, reset, little, false, out);
    }
    Ok(())
}
