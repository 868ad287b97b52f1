// The two camera heads whose pictures are read, for colour and monochrome, and the numbers by which they differ. A head is a bool and no enum, as
// head/Heads.Head is, over which the theorems of promises/Heads speak.
#![tactic(auto)]

ghost use Rattle.std.specs.Prelude.{◌≡◌};
ghost use Rattle.head.specs.Heads.{planes_of, bytes_of, channels_of, photometric_of};

// Planes of a row.
pub fn planes_of(mono: bool) -> usize
    ensures { result ≡ planes_of mono }
{
    if mono { 2 } else { 4 }
}

// Bytes of a pixel.
pub fn bytes_of(mono: bool) -> usize
    ensures { result ≡ bytes_of mono }
{
    if mono { 2 } else { 6 }
}

// Samples of a pixel.
pub fn channels_of(mono: bool) -> usize
    ensures { result ≡ channels_of mono }
{
    if mono { 1 } else { 3 }
}

// What its pictures have in slot 4.
pub fn photometric_of(mono: bool) -> usize
    ensures { result ≡ photometric_of mono }
{
    if mono { 32844 } else { 32845 }
}
