// The field of 256 elements and the substitution of bytes: FIPS 197, section 4 and the table of section 5.1.1.
#![tactic(auto)]

ghost use Rattle.std.specs.Prelude.{◌≡◌};
ghost use Rattle.field.specs.Field.{dot};

mod table;

pub use table::substitution_table;

// A byte doubled: a shift and, where a bit falls out, the rest of the modulus added.
pub fn doubled(b: u8) -> u8
    ensures { result ≡ dot 2 b }
{
    (b << 1) ^ ((b >> 7) * 0x1b)
}
