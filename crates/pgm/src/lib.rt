// The grey picture as a file (PGM): a header in text, and a byte for each pixel.
#![tactic(auto)]

ghost use Rattle.std.specs.Prelude.{◌≡◌, ◌+◌, ◌-◌, ◌≤◌, length, take};
ghost use Rattle.io.specs.Counts.{IsPrefixLen};
ghost use Rattle.pgm.specs.Pgm.{decimal_of, header_of, greys_in, pgm_in};
ghost use Rattle.placing.specs.Placing.{BytesPlaced};

use summary::grey;
use summary::grey::Picture;

// A number into the buffer at a place, in at most twenty digits; the place after it.
#[tactic(auto, using(crate::proofs::Decimals::decimals))]
fn append_number(n: usize, out: &mut [u8], at: usize) -> usize
    requires { at + 20 ≤ length out.old }
    ensures placed { BytesPlaced (decimal_of n) at out.old result out.new }
    ensures within { result ≤ at + 20 }
{
    let mut digits = [0; 20];
    let k = io::decimal(n as u64, &mut digits);
    placing::append(&digits[..k], out, at)
}

// What stands before the pixels; the place after it.
fn put_header(width: usize, height: usize, out: &mut [u8]) -> usize
    requires { 49 ≤ length out.old }
    ensures { BytesPlaced (header_of width height) 0 out.old result out.new }
{
    let kind = placing::append(b"P5\n", out, 0);
    let across = append_number(width, out, kind);
    let between = placing::append(b" ", out, across);
    let down = append_number(height, out, between);
    placing::append(b"\n255\n", out, down)
}

// The grey values of all pixels into the buffer at a place, as far as there is room; the place after them.
#[tactic(auto, using(crate::proofs::GreyFile::grey_file))]
fn put_pixels(picture: &Picture, start: usize, out: &mut [u8]) -> usize
    requires { start ≤ length out.old }
    ensures { BytesPlaced
        (greys_in picture.now.size picture.now.width picture.now.height picture.now.bytes.now (length out.old - start))
        start out.old result out.new }
{
    let most = records::least(
        grey::whole_pixels(picture.size, picture.bytes.len()),
        out.len() - start,
    );
    let end = start + grey::pixels_of(picture.width, picture.height, most);
    grey::put_grey(picture, &mut out[start..end]);
    end
}

// The file's bytes at the start of the buffer, and how many there are: none where the longest header has no room. Where a pixel's
// bytes lack the two of L, the header stands alone.
#[tactic(auto, using(crate::proofs::GreyFile::grey_file))]
pub fn put(picture: &Picture, out: &mut [u8]) -> usize
    ensures prefix_len { IsPrefixLen result out.new }
    ensures out_after { take result out.new
        ≡ pgm_in picture.now.size picture.now.width picture.now.height picture.now.bytes.now (length out.old) }
{
    if out.len() < 49 {
        return 0;
    }
    let start = put_header(picture.width, picture.height, out);
    put_pixels(picture, start, out)
}
