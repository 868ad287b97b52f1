// Predictor 3: the sums along a row undone byte by byte, then its planes gathered into samples of the byte order asked for.
#![tactic(auto)]

ghost use Rattle.std.specs.Prelude.{◌≡◌, length};
ghost use Rattle.lists.specs.Lists.{overlay};
ghost use Rattle.checks.specs.Checks.{verdict};
ghost use Rattle.checks.specs.Buffers.{afterwards};
ghost use Rattle.native_fp.specs.NativeFp.{summed, gathered, sample_bytes, fp_checks};
ghost use Rattle.native_fp.specs.Inner.{Sized};

use checks::Refusal;

#[tactic(auto, using(checks::proofs::Rules::verdicts))]
fn sample_bytes(n: usize) -> bool
    ensures { result ≡ sample_bytes n }
{
    matches!(n, 2 | 3 | 4 | 8)
}

// Refused, in this order: sample bytes, channels or a row of 0 with 3, sizes that do not divide with 2, a short buffer with 6.
#[tactic(auto, using(crate::proofs::Sizes::tests))]
fn check_sizes(
    row: usize,
    ch: usize,
    bytes: usize,
    raw: usize,
    scratch: usize,
    out: usize,
) -> Result<(), Refusal>
    ensures { result ≡ verdict (fp_checks row ch bytes raw scratch out) }
{
    if !sample_bytes(bytes) || ch == 0 || 64 < ch || row == 0 {
        return Err(Refusal::Unsupported);
    }
    if row % (ch * bytes) != 0 || raw % row != 0 {
        return Err(Refusal::Invalid);
    }
    if out < raw || scratch < raw {
        return Err(Refusal::OutputTooSmall);
    }
    Ok(())
}

// The sums of each row into scratch, and from there its samples into out.
#[tactic(auto, using(crate::proofs::Passes::passes))]
fn undo(
    raw: &[u8],
    row: usize,
    ch: usize,
    bytes: usize,
    little: bool,
    scratch: &mut [u8],
    out: &mut [u8],
)
    requires { Sized row ch bytes (length raw.now) (length scratch.old) (length out.old) }
    ensures scratch_after { scratch.new ≡ overlay (summed row ch raw.now) scratch.old }
    ensures out_after { out.new ≡ overlay (gathered row ch bytes little raw.now) out.old }
{
    let rows = raw.len() / row;
    fp_rows::sum_rows(raw, row, rows, ch, scratch);
    fp_rows::gather_rows(&scratch[..raw.len()], row, rows, bytes, little, out);
}

// A refusal leaves both buffers as they were. The arguments come one by one, as C hands them over.
pub fn decode(
    raw: &[u8],
    row: usize,
    ch: usize,
    bytes: usize,
    little: bool,
    scratch: &mut [u8],
    out: &mut [u8],
) -> Result<(), Refusal>
    ensures answer { result ≡ verdict (fp_checks row ch bytes (length raw.now) (length scratch.old) (length out.old)) }
    ensures sums { scratch.new ≡ afterwards result (summed row ch raw.now) scratch.old }
    ensures buffer { out.new ≡ afterwards result (gathered row ch bytes little raw.now) out.old }
{
    check_sizes(row, ch, bytes, raw.len(), scratch.len(), out.len())?;
    undo(raw, row, ch, bytes, little, scratch, out);
    Ok(())
}
