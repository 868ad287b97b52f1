// CRC-32 of bytes, as zlib and many other programs compute it.
ghost use Rattle.std.specs.Prelude.{◌≡◌};
ghost use Rattle.records.specs.Crc.{bit_step, byte_step, crc_of};

#[tactic(auto, using(crate::proofs::Checksum::checksum))]
fn bit(crc: u32) -> u32
    ensures { result ≡ bit_step crc }
{
    if crc % 2 == 1 {
        crc / 2 ^ 3988292384
    } else {
        crc / 2
    }
}

#[tactic(auto, using(crate::proofs::Checksum::checksum))]
fn byte(crc: u32, b: u8) -> u32
    ensures { result ≡ byte_step crc b }
{
    let mut c = crc ^ u32::from(b);
    for _ in 0..8u8 {
        c = bit(c);
    }
    c
}

#[tactic(auto, using(crate::proofs::Checksum::crc_folds))]
pub fn crc32(bytes: &[u8]) -> u32
    ensures { result ≡ crc_of bytes.now }
{
    let crc = bytes.iter().fold(u32::MAX, |crc, b| byte(crc, *b));
    crc ^ u32::MAX
}
