// Rows of pixels of either head, with a lent table of uv. A row of the colour head is made in blocks, four pixels at a time, and its last pixels
// one at a time.
#![tactic(auto)]

ghost use Rattle.std.specs.Prelude.{◌≡◌, ◌/◌, ◌%◌, ◌<◌, length};
ghost use Rattle.lists.specs.Lists.{joined};
ghost use Rattle.head.specs.Heads.{colour_head, mono_head};
ghost use Rattle.pixel.specs.Luv.{pixel_at, row_pixels};
ghost use Rattle.pixel.specs.Inner.{light_pixel};
ghost use Rattle.pixel_rows.specs.Inner.{Convertible, Matched, Lights, Fours, Block, Apart, plane_pixel, Within, Front};

use pixel::table::Table;

// L of each pixel as one number, as many as there are high bytes.
fn put_lights(highs: &[u8], lows: &[u8], lights: &mut [u16])
    requires { Matched (length highs.now) (length lows.now) (length lights.old) }
    ensures { Lights highs.now lows.now lights.new (length highs.now) }
{
    for i in 0..highs.len() {
        lights[i] = u16::from_le_bytes([lows[i], highs[i]]);
    }
}

// As many pixels as there are bytes of u, a multiple of four.
fn put_fours(lights: &[u16], us: &[u8], vs: &[u8], t: &Table, d: &mut [u8])
    requires { Fours (length lights.now) (length us.now) (length vs.now) (length d.old) }
    ensures { d.new ≡ joined (light_pixel lights.now us.now vs.now) 0 (length us.now) }
{
    for i in 0..us.len() / 4 {
        let k = 4 * i;
        let o = 24 * i;
        pixel::put_four(
            &lights[k..k + 4],
            &us[k..k + 4],
            &vs[k..k + 4],
            t,
            &mut d[o..o + 24],
        );
    }
}

// A block of pixels, by its part of each plane. L of all of them comes first, by vector code: from there on each is one load and not two.
fn put_block(highs: &[u8], lows: &[u8], us: &[u8], vs: &[u8], t: &Table, d: &mut [u8])
    requires { Apart (length highs.now) (length lows.now) (length us.now) (length vs.now) (length d.old) }
    ensures { d.new ≡ joined
        (plane_pixel highs.now lows.now us.now vs.now) 0 (length us.now) }
{
    let mut lights = [0u16; 64];
    put_lights(highs, lows, &mut lights);
    put_fours(&lights, us, vs, t, d);
}

// n pixels of a row of planes of w bytes, from the i-th on.
fn block_at(planes: &[u8], w: usize, i: usize, n: usize, t: &Table, d: &mut [u8])
    requires { Within w i n (length planes.now) (length d.old) × Block n }
    ensures { d.new ≡ joined (pixel_at colour_head w planes.now) i n }
{
    let l = w + i;
    let u = 2 * w + i;
    let v = 3 * w + i;
    let i_end = i + n;
    let l_end = l + n;
    let u_end = u + n;
    let v_end = v + n;
    put_block(
        &planes[i..i_end],
        &planes[l..l_end],
        &planes[u..u_end],
        &planes[v..v_end],
        t,
        d,
    );
}

// The same one at a time.
fn singles_at(planes: &[u8], w: usize, i: usize, n: usize, t: &Table, out: &mut [u8])
    requires { Within w i n (length planes.now) (length out.old) }
    ensures { out.new ≡ joined (pixel_at colour_head w planes.now) i n }
{
    for k in 0..n {
        let j = i + k;
        let o = 6 * k;
        pixel::put_pixel(
            &mut out[o..o + 6],
            planes[j],
            planes[w + j],
            planes[2 * w + j],
            planes[3 * w + j],
            t,
        );
    }
}

// Of fewer than 64 pixels those that are a multiple of four, as a block, and how many these are; none of fewer than 16, which are not worth one.
fn front_at(planes: &[u8], w: usize, i: usize, n: usize, t: &Table, out: &mut [u8]) -> usize
    requires { Within w i n (length planes.now) (length out.old) × (n < 64) }
    ensures { Front w i n planes.now out.old out.new result }
{
    if n < 16 {
        return 0;
    }
    let m = n / 4 * 4;
    block_at(planes, w, i, m, t, &mut out[..6 * m]);
    m
}

// All of them.
fn rest_at(planes: &[u8], w: usize, i: usize, n: usize, t: &Table, out: &mut [u8])
    requires { Within w i n (length planes.now) (length out.old) × (n < 64) }
    ensures { out.new ≡ joined (pixel_at colour_head w planes.now) i n }
{
    let m = front_at(planes, w, i, n, t, out);
    singles_at(planes, w, i + m, n - m, t, &mut out[6 * m..]);
}

// The first n pixels of a row of planes of w bytes; a function for each head, as the compiler then makes the best code of both.
fn colour_row(planes: &[u8], w: usize, n: usize, t: &Table, out: &mut [u8])
    requires { Convertible colour_head w n (length planes.now) (length out.old) }
    ensures { out.new ≡ row_pixels colour_head w n planes.now }
{
    for b in 0..n / 64 {
        let o = 384 * b;
        block_at(planes, w, 64 * b, 64, t, &mut out[o..o + 384]);
    }
    let k = n / 64 * 64;
    rest_at(planes, w, k, n - k, t, &mut out[6 * k..]);
}

fn mono_row(planes: &[u8], w: usize, n: usize, out: &mut [u8])
    requires { Convertible mono_head w n (length planes.now) (length out.old) }
    ensures { out.new ≡ row_pixels mono_head w n planes.now }
{
    for i in 0..n {
        let o = 2 * i;
        pixel::put_mono(&mut out[o..o + 2], planes[i], planes[w + i]);
    }
}

// The first n pixels of a row of planes of w bytes.
#[tactic(auto, using(crate::proofs::Rows::heads))]
pub fn convert_row(mono: bool, planes: &[u8], w: usize, n: usize, t: &Table, out: &mut [u8])
    requires { Convertible mono w n (length planes.now) (length out.old) }
    ensures { out.new ≡ row_pixels mono w n planes.now }
{
    if mono {
        mono_row(planes, w, n, out);
    } else {
        colour_row(planes, w, n, t, out);
    }
}
