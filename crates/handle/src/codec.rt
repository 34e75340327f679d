// The bytes of a handle: node (high byte first), local number, password, selector. Their length tells the width.
ghost use Rattle.std.specs.Prelude.{◌≡◌, [], length, ◌≤◌, ◌/◌, ◌%◌};
ghost use Rattle.handle.specs.Sizes.{selector_at};
ghost use Rattle.handle.specs.Widths as widths;
ghost use Rattle.handle.specs.Handles as spec;
ghost use Rattle.handle.specs.Opens.{primary_bytes};

use crate::{HANDLE_BYTES, Handle, HandleBytes, LARGE, MIDDLE, SMALL, SUBSELECTORS, Width};
use sizes::{PASSWORD_BYTES, Password};

// The numbers that half a byte has room for.
const HALF: u16 = 16;

// Where the local number, the password and the selector begin in a handle's bytes.
const LOCAL_AT: usize = 2;

const PASSWORD_AT: usize = 3;

const SELECTOR_AT: usize = 19;

impl Handle {
    // The handle whose node, local number and password stand in the bytes.
    fn with(bytes: &[u8], width: Width, selector: [u16; SUBSELECTORS]) -> Handle
        requires { selector_at ≤ length bytes.now }
        ensures { result ≡ spec.held_with width bytes.now selector }
    {
        let mut password = [0u8; PASSWORD_BYTES];
        password.copy_from_slice(&bytes[PASSWORD_AT..SELECTOR_AT]);
        Handle {
            node: bits::word(bytes[0], bytes[1]),
            local: bytes[LOCAL_AT],
            password,
            width,
            selector,
        }
    }

    // The handle that bytes hold; none where their length is not that of a width. Each arm returns: what a `match` ends with is
    // handed on through memory.
    pub fn decode(bytes: &[u8]) -> Handle
        ensures { result ≡ spec.decoded bytes.now }
    {
        match bytes.len() {
            SMALL => {
                let a = u16::from(bytes[19]);
                let b = u16::from(bytes[20]);
                return Handle::with(bytes, Width::Four, [a % HALF, a / HALF, b % HALF, b / HALF]);
            }
            MIDDLE => {
                let a = u16::from(bytes[19]);
                let b = u16::from(bytes[20]);
                let c = u16::from(bytes[21]);
                let d = u16::from(bytes[22]);
                return Handle::with(bytes, Width::Eight, [a, b, c, d]);
            }
            LARGE => {
                let a = bits::word(bytes[19], bytes[20]);
                let b = bits::word(bytes[21], bytes[22]);
                let c = bits::word(bytes[23], bytes[24]);
                let d = bits::word(bytes[25], bytes[26]);
                return Handle::with(bytes, Width::Sixteen, [a, b, c, d]);
            }
            _ => Handle::none(),
        }
    }

    // The bytes of the handle up to its selector, and then those of `tail`.
    fn laid(self, length: u8, tail: [u8; 8]) -> HandleBytes
        ensures { result ≡ spec.laid_with self length tail }
    {
        let mut bytes = [0u8; HANDLE_BYTES];
        bytes[..LOCAL_AT].copy_from_slice(&self.node.to_be_bytes());
        bytes[LOCAL_AT] = self.local;
        bytes[PASSWORD_AT..SELECTOR_AT].copy_from_slice(&self.password);
        bytes[SELECTOR_AT..].copy_from_slice(&tail);
        HandleBytes { length, bytes }
    }

    // The bytes of the handle. Always in line: the fields of a handle that was just made are then read as they were written, and
    // not from copies of the whole.
    #[inline(always)]
    pub fn encode(self) -> HandleBytes
        ensures { result ≡ spec.written self }
    {
        let width = self.width;
        let s = self.selector;
        match width {
            Width::None => HandleBytes {
                length: 0,
                bytes: [0u8; HANDLE_BYTES],
            },
            Width::Four => {
                let a = halves(s[0], s[1]);
                let b = halves(s[2], s[3]);
                self.laid(SMALL as u8, [a, b, 0, 0, 0, 0, 0, 0])
            }
            Width::Eight => {
                let [_, a] = s[0].to_be_bytes();
                let [_, b] = s[1].to_be_bytes();
                let [_, c] = s[2].to_be_bytes();
                let [_, d] = s[3].to_be_bytes();
                self.laid(MIDDLE as u8, [a, b, c, d, 0, 0, 0, 0])
            }
            Width::Sixteen => {
                let [a, b] = s[0].to_be_bytes();
                let [c, d] = s[1].to_be_bytes();
                let [e, f] = s[2].to_be_bytes();
                let [g, h] = s[3].to_be_bytes();
                self.laid(LARGE as u8, [a, b, c, d, e, f, g, h])
            }
        }
    }
}

// Two subselectors of four bits in a byte, the first in its low half.
// Stays: by hand, since the library puts no two halves into a byte.
fn halves(a: u16, b: u16) -> u8
    ensures { result ≡ widths.halves a b }
{
    (a % HALF + b % HALF * HALF) as u8
}

// The bytes of the primary handle, with a password, of a cluster of a width.
pub fn primary_bytes(width: Width, node: u16, local: u8, password: Password) -> HandleBytes
    ensures { result ≡ spec.laid (primary_bytes width node local password) }
{
    let flat = width.full();
    let handle = Handle {
        node,
        local,
        password,
        width,
        selector: [flat; SUBSELECTORS],
    };
    handle.encode()
}
