// Rows of pixels: all rows of a segment put into a picture, and planes converted into a lent buffer.
#![tactic(auto)]

ghost use Rattle.std.specs.Prelude.{◌≡◌, length};
ghost use Rattle.lists.specs.Lists.{spread};
ghost use Rattle.checks.specs.Checks.{verdict};
ghost use Rattle.checks.specs.Buffers.{afterwards};
ghost use Rattle.pixel.specs.Luv.{pixels, row_shown};
ghost use Rattle.luv.specs.Convert.{convert_checks};
ghost use Rattle.luv.specs.Inner.{Scatterable};

use checks::Refusal;

// The first n pixels of each of so many rows of planes of width w, put into the picture: the first row at `first`, each further
// one a pitch later.
#[tactic(auto, using(crate::proofs::Scattering::scatters))]
pub fn scatter(
    mono: bool,
    planes: &[u8],
    w: usize,
    n: usize,
    rows: usize,
    first: usize,
    pitch: usize,
    out: &mut [u8],
)
    requires { Scatterable mono w n rows first pitch (length planes.now) (length out.old) }
    ensures { out.new ≡ spread (row_shown mono w n planes.now) pitch 0 rows first out.old }
{
    // A width that no row bounds may be too large to be multiplied.
    if rows == 0 {
        return;
    }
    let table = pixel::table::uv_table();
    let step = head::planes_of(mono) * w;
    let size = head::bytes_of(mono) * n;
    let mut from = 0;
    let mut at = first;
    for _ in 0..rows {
        pixel_rows::convert_row(
            mono,
            &planes[from..from + step],
            w,
            n,
            &table,
            &mut out[at..at + size],
        );
        from += step;
        // After the last row there may be no such place.
        at = at.wrapping_add(pitch);
    }
}

// Refused, in this order: more than 2^64-1 bytes of pixels with 4, planes short with 1, out short with 6.
#[tactic(auto, using(checks::proofs::Rules::verdicts))]
pub fn convert(
    mono: bool,
    planes: &[u8],
    w: usize,
    rows: usize,
    out: &mut [u8],
) -> Result<(), Refusal>
    ensures answer { result ≡ verdict (convert_checks mono w rows (length planes.now) (length out.old)) }
    ensures buffer { out.new ≡ afterwards result (pixels mono w rows planes.now) out.old }
{
    let size = checks::product3(rows, head::bytes_of(mono), w).ok_or(Refusal::Limit)?;
    // No pixels, in however many rows.
    if size == 0 {
        return Ok(());
    }
    if planes.len() < head::planes_of(mono) * (rows * w) {
        return Err(Refusal::Truncated);
    }
    if out.len() < size {
        return Err(Refusal::OutputTooSmall);
    }
    // The rows of a picture of just this width, one right after the other.
    scatter(mono, planes, w, w, rows, 0, head::bytes_of(mono) * w, out);
    Ok(())
}
