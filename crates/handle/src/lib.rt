// The handle of a picture, what an inspection gives, and whether two handles are equal, field by field.
#![tactic(auto)]

ghost use Rattle.std.specs.Prelude.{◌≡◌};
ghost use Rattle.handle.specs.Handle.{same_handle};

use picture::Format;

// A picture that an inspection accepts: the format (with the page's number of entries and the size of the output), the page, the
// size of scratch, and the sum of the fees, which is what decode charges.
#[derive(Clone, Copy, Debug, PartialEq, Eq)]
pub struct Handle {
    pub format: Format,
    pub page: usize,
    pub scratch: usize,
    pub work: usize,
}

// What an inspection gives: the picture's handle, and the units left.
#[derive(Clone, Copy, Debug, PartialEq, Eq)]
pub struct Inspected {
    pub handle: Handle,
    pub left: usize,
}

#[tactic(auto, using(crate::proofs::Handles::compared))]
pub fn same_handle(g: Handle, h: Handle) -> bool
    ensures { result ≡ same_handle g h }
{
    g == h
}
