// Pixels of either head: uv by a lent table, one pixel, and four of the colour head at once.
#![tactic(auto)]

ghost use Rattle.std.specs.Prelude.{◌≡◌, ◌++◌, ◌<◌, length};
ghost use Rattle.lists.specs.Lists.{joined};
ghost use Rattle.pixel.specs.Luv.{uv, mono_pixel, pixel};
ghost use Rattle.pixel.specs.Inner.{HasPixel, Four, six, four_samples, light_pixel};

use table::Table;

// uv as a table. Nothing else knows its numbers.
pub mod table;

pub fn expand_uv(x: u8) -> u16
    ensures { result ≡ uv x }
{
    table::uv_table().uv(x)
}

#[tactic(auto, using(crate::proofs::Stores::pixel_stored))]
pub fn put_pixel(d: &mut [u8], high: u8, low: u8, u: u8, v: u8, t: &Table)
    requires { length d.old ≡ 6 }
    ensures { d.new ≡ pixel high low u v }
{
    let [u_low, u_high] = t.uv(u).to_le_bytes();
    let [v_low, v_high] = t.uv(v).to_le_bytes();
    d.copy_from_slice(&[low, high, u_low, u_high, v_low, v_high]);
}

pub fn put_mono(pair: &mut [u8], high: u8, low: u8)
    requires { length pair.old ≡ 2 }
    ensures { pair.new ≡ mono_pixel high low }
{
    pair.copy_from_slice(&[low, high]);
}

// A pixel of the colour head as three numbers.
#[derive(Clone, Copy)]
struct Samples {
    light: u16,
    u: u16,
    v: u16,
}

// Those of pixel k.
#[tactic(auto, using(crate::proofs::Stores::samples_are))]
fn samples_at(lights: &[u16], us: &[u8], vs: &[u8], k: usize, t: &Table) -> Samples
    requires { HasPixel k (length lights.now) (length us.now) (length vs.now) }
    ensures { six result ≡ light_pixel lights.now us.now vs.now k }
{
    Samples {
        light: lights[k],
        u: t.uv(us[k]),
        v: t.uv(vs[k]),
    }
}

// As the eight bytes of one number, which the compiler makes one store.
fn put_samples(d: &mut [u8], a: u16, b: u16, c: u16, e: u16)
    requires { length d.old ≡ 8 }
    ensures { d.new ≡ four_samples a b c e }
{
    let all = u64::from(a) + (u64::from(b) << 16) + (u64::from(c) << 32) + (u64::from(e) << 48);
    d.copy_from_slice(&all.to_le_bytes());
}

// Four pixels: their twelve samples are three numbers of eight bytes.
fn put_twelve(d: &mut [u8], p: Samples, q: Samples, r: Samples, s: Samples)
    requires { length d.old ≡ 24 }
    ensures { d.new ≡ six p ++ (six q ++ (six r ++ six s)) }
{
    put_samples(&mut d[0..8], p.light, p.u, p.v, q.light);
    put_samples(&mut d[8..16], q.u, q.v, r.light, r.u);
    put_samples(&mut d[16..24], r.v, s.light, s.u, s.v);
}

// Four pixels, of which L is one number each.
pub fn put_four(lights: &[u16], us: &[u8], vs: &[u8], t: &Table, d: &mut [u8])
    requires { Four (length lights.now) (length us.now) (length vs.now) (length d.old) }
    ensures { d.new ≡ joined (light_pixel lights.now us.now vs.now) 0 4 }
{
    let p = samples_at(lights, us, vs, 0, t);
    let q = samples_at(lights, us, vs, 1, t);
    let r = samples_at(lights, us, vs, 2, t);
    let s = samples_at(lights, us, vs, 3, t);
    put_twelve(d, p, q, r, s);
}
