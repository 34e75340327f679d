// Numbers as sets of bits and as rows of bytes: laws for a width left open, and the number that two bytes hold.
#![tactic(auto)]

ghost use Rattle.std.specs.Prelude.{◌≡◌, [], ◌∷◌};
ghost use Rattle.bits.specs.Bytes as bytes;

// How many values a byte has.
pub const BYTE: u16 = 256;

// The number that two bytes hold, high byte first.
pub fn word(high: u8, low: u8) -> u16
    ensures { result ≡ bytes.word (high ∷ low ∷ []) }
{
    u16::from_be_bytes([high, low])
}
