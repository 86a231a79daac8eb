// The parity of a flag as the byte that a search stores.
ghost use Rattle.std.specs.Prelude.{◌≡◌, ◌-◌};

use crate::Orientation;

// The byte of the other parity.
#[tactic(auto, using(crate::proofs::FlippedByte::flip_byte))]
pub fn flipped(byte: u8) -> u8
    ensures { result ≡ 1 - byte }
{
    u8::from(Orientation::from(byte).flip())
}
