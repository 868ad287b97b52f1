// What an image carries besides the file, and upstream's getters.
#![tactic(auto)]

ghost use Rattle.std.specs.Prelude.{◌≡◌, false};
ghost use Rattle.head.specs.Heads.{channels_of};
ghost use Rattle.image_info.specs.Alpha.{alpha_number};
ghost use Rattle.image_info.specs.declared.AlphaMode.TheVariants as AlphaIs;

use handle::Handle;
use header::Limits;

// What an image carries besides the file: the number of the inspection's answer, the limits that it was made under, and the handle.
// After a refusal all but the number is 0, and the head is that for colour. Its methods are upstream's getters.
// No Result: rule 7.7 asks for these 0s, and decode takes an image with any number, of which `plain_image/Image.image_checks` speaks.
#[derive(Clone, Copy, Debug, PartialEq, Eq)]
pub struct Info {
    pub number: u8,
    pub limits: Limits,
    pub handle: Handle,
}

// Pictures of this profile have no alpha.
#[derive(Clone, Copy, Debug, PartialEq, Eq)]
pub enum AlphaMode {
    None,
}

impl Info {
    pub fn width(self) -> usize
        ensures { result ≡ self.handle.format.width }
    {
        self.handle.format.width
    }

    pub fn height(self) -> usize
        ensures { result ≡ self.handle.format.height }
    {
        self.handle.format.height
    }

    // Samples of a pixel: L, u, v, or L alone.
    pub fn channels(self) -> usize
        ensures { result ≡ channels_of self.handle.format.mono }
    {
        head::channels_of(self.handle.format.mono)
    }

    pub fn bits_per_sample(self) -> usize
        ensures { result ≡ 16 }
    {
        16
    }

    pub fn output_bits_per_sample(self) -> usize
        ensures { result ≡ 16 }
    {
        16
    }

    // Samples of a pixel stand together.
    pub fn planar_configuration(self) -> usize
        ensures { result ≡ 1 }
    {
        1
    }

    // The tag's number of 32-bit LogLuv.
    pub fn compression(self) -> usize
        ensures { result ≡ 34676 }
    {
        34676
    }

    pub fn page_index(self) -> usize
        ensures { result ≡ self.handle.page }
    {
        self.handle.page
    }

    // The entries of the page's own directory, those of unknown tags included.
    pub fn directory_entry_count(self) -> usize
        ensures { result ≡ self.handle.format.entries }
    {
        self.handle.format.entries
    }

    pub fn has_alpha(self) -> bool
        ensures { result ≡ false }
    {
        false
    }

    pub fn alpha_mode(self) -> AlphaMode
        ensures { (result ≡ AlphaIs.None) × (alpha_number result ≡ 0) }
    {
        AlphaMode::None
    }

    // The bytes of the picture.
    pub fn output_len(self) -> usize
        ensures { result ≡ self.handle.format.output }
    {
        self.handle.format.output
    }

    // The bytes of scratch that decode needs.
    pub fn scratch_len(self) -> usize
        ensures { result ≡ self.handle.scratch }
    {
        self.handle.scratch
    }

    // What decode charges: the sum of the fees.
    pub fn decode_work_limit(self) -> usize
        ensures { result ≡ self.handle.work }
    {
        self.handle.work
    }
}
