// A handle as a caller holds it: 28 bytes, of which the last tells how many of the others are the handle's own.
#![tactic(auto)]

ghost use Rattle.std.specs.Prelude.{◌≡◌};
ghost use Rattle.handle.specs.Handles.{decoded};
ghost use Rattle.numbers.specs.Codes.{told};
ghost use Rattle.codec.specs.Held as spec;

use handle::{HANDLE_BYTES, Handle, HandleBytes};
use numbers::Number;

// The bytes of a handle that is held.
pub const HELD: usize = 28;

// The handle's own bytes: as many as the last one tells, all where that is more.
pub fn own(held: &[u8; HELD]) -> &[u8]
    ensures { result.now ≡ spec.bytes_held held.now }
{
    let n = usize::from(held[HANDLE_BYTES]);
    held.get(..n).unwrap_or(held)
}

// The handle that is held; none where the last byte tells none of the three lengths.
pub fn taken(held: &[u8; HELD]) -> Handle
    ensures { result ≡ decoded (spec.bytes_held held.now) }
{
    Handle::decode(own(held))
}

// A handle's bytes and their length, as a caller holds them.
pub fn held(handle: HandleBytes) -> [u8; HELD]
    ensures bytes { result ≡ spec.held_in handle }
    ensures back { spec.handed result ≡ handle }
{
    let mut held = [0; HELD];
    held[..HANDLE_BYTES].copy_from_slice(&handle.bytes);
    held[HANDLE_BYTES] = handle.length;
    held
}

// Bytes from elsewhere, as a caller holds them; no handle where none has so many.
pub fn held_from(bytes: &[u8]) -> [u8; HELD]
    ensures { result ≡ spec.held_from bytes.now }
{
    held(Handle::decode(bytes).encode())
}

// Refused with 25 where no handle has so many bytes.
pub fn length_number(bytes: &[u8]) -> Result<(), Number>
    ensures { told result ≡ spec.length_number bytes.now }
{
    if Handle::decode(bytes).has_width(0) {
        return Err(Number::Length);
    }
    Ok(())
}
