// The L plane as grey values, of a picture whose pixels have so many bytes each.
ghost use Rattle.std.specs.Prelude.{◌≡◌, ◌+◌, ◌*◌, ◌≤◌, length};
ghost use Rattle.lists.specs.Lists.{lesser, tabulate};
ghost use Rattle.summary.specs.Grey.{grey_of, light_at, grey_at, whole_pixels};

// A picture as its bytes, so many of them a pixel, and its sides.
#[derive(Clone, Copy)]
pub struct Picture<'a> {
    pub bytes: &'a [u8],
    pub size: usize,
    pub width: usize,
    pub height: usize,
}

#[tactic(auto, unfolding(crate::specs::Grey::grey_of))]
fn grey_of(l: usize) -> u8
    ensures { result ≡ grey_of l }
{
    if l < 32768 { (l / 128) as u8 } else { 0 }
}

// How many whole pixels so many bytes are: none where a pixel lacks the two bytes of L.
#[tactic(auto, unfolding(crate::specs::Grey::whole_pixels))]
pub fn whole_pixels(size: usize, bytes: usize) -> usize
    ensures { result ≡ whole_pixels size bytes }
{
    if size < 2 { 0 } else { bytes / size }
}

// L of a pixel.
#[tactic(auto, unfolding(crate::specs::Grey::light_at))]
pub fn light_at(picture: &Picture, k: usize) -> usize
    requires { picture.now.size * k + 2 ≤ length picture.now.bytes.now }
    ensures { result ≡ light_at picture.now.size picture.now.bytes.now k }
{
    let low = picture.size * k;
    records::wide(picture.bytes[low]) + 256 * records::wide(picture.bytes[low + 1])
}

// A grey value for each pixel, as many as are lent.
#[tactic(auto, using(placing::proofs::Filled::tabulated))]
pub fn put_grey(picture: &Picture, grey: &mut [u8])
    requires { length grey.old ≤ whole_pixels picture.now.size (length picture.now.bytes.now) }
    ensures { grey.new ≡ tabulate (length grey.old) (grey_at picture.now.size picture.now.bytes.now) }
{
    for (k, value) in grey.iter_mut().enumerate() {
        *value = grey_of(light_at(picture, k));
    }
}

// How many pixels there are, and no more than there is room for.
#[tactic(auto, using(crate::proofs::Greys::pixels_shown))]
pub fn pixels_of(width: usize, height: usize, most: usize) -> usize
    ensures { (result ≡ lesser (width * height) most) × (result ≤ most) }
{
    records::least(checks::product(width, height).unwrap_or(most), most)
}
