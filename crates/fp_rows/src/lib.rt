// The two passes of predictor 3 over rows: the sums along a row undone byte by byte, and its planes gathered into samples.
#![tactic(auto)]

ghost use Rattle.std.specs.Prelude.{◌≡◌, ◌*◌, ◌%◌, ◌<◌, ◌≤◌, length};
ghost use Rattle.lists.specs.Lists.{per_row, overlay};
ghost use Rattle.fp_rows.specs.FpRows.{summed_row, plane, gathered_row};

// A row's bytes, each with the one a channel's distance before it added.
fn sum_row(raw: &[u8], ch: usize, out: &mut [u8])
    requires { (length out.old ≡ length raw.now) × (0 < ch) × (ch ≤ length raw.now) }
    ensures { out.new ≡ summed_row (length raw.now) ch raw.now }
{
    // By loops, here and in placing: copy_from_slice would have the archive for C ask for memmove.
    for i in 0..ch {
        out[i] = raw[i];
    }
    for i in ch..raw.len() {
        out[i] = raw[i].wrapping_add(out[i - ch]);
    }
}

// The plane of a sample's byte b: the planes come most significant first.
fn plane_of(little: bool, bytes: usize, b: usize) -> usize
    requires { b < bytes }
    ensures { (result ≡ plane little bytes b) × (result < bytes) }
{
    if little { bytes - 1 - b } else { b }
}

// A row's planes of so many samples, gathered: byte b of each sample from the plane of its significance.
fn gather_row(planes: &[u8], samples: usize, bytes: usize, little: bool, out: &mut [u8])
    requires { (length planes.now ≡ samples * bytes) × (length out.old ≡ length planes.now) × (0 < bytes) }
    ensures { out.new ≡ gathered_row (length planes.now) bytes little planes.now }
{
    for s in 0..samples {
        for b in 0..bytes {
            out[s * bytes + b] = planes[plane_of(little, bytes, b) * samples + s];
        }
    }
}

pub fn sum_rows(raw: &[u8], row: usize, rows: usize, ch: usize, scratch: &mut [u8])
    requires { (rows * row ≤ length raw.now) × (rows * row ≤ length scratch.old) × (0 < ch) × (ch ≤ row) }
    ensures { scratch.new ≡ overlay (per_row (summed_row row ch) row rows raw.now) scratch.old }
{
    for r in 0..rows {
        let at = r * row;
        let end = at + row;
        sum_row(&raw[at..end], ch, &mut scratch[at..end]);
    }
}

pub fn gather_rows(
    planes: &[u8],
    row: usize,
    rows: usize,
    bytes: usize,
    little: bool,
    out: &mut [u8],
)
    requires { (rows * row ≤ length planes.now) × (rows * row ≤ length out.old) × (0 < bytes) × (row % bytes ≡ 0) }
    ensures { out.new ≡ overlay (per_row (gathered_row row bytes little) row rows planes.now) out.old }
{
    let samples = row / bytes;
    for r in 0..rows {
        let at = r * row;
        let end = at + row;
        gather_row(&planes[at..end], samples, bytes, little, &mut out[at..end]);
    }
}
