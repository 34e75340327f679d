// Handles (document 01, "The handle", and document 02, §8, their widths): what they reference, conversion, validation; their
// bytes are in `codec`, weakening in `weaken`, reduction and joining in `sets`. A function whose name ends in `_with` is lent
// the tables of the cipher, which a caller takes once.
#![tactic(auto)]

mod codec; // codec.rt: a handle from its bytes, and back
mod sets; // sets.rt: reduction and joining, which put a set of segments in subselector 0
mod weaken; // weaken.rt: weakening, and what it is refused with

ghost use Rattle.std.specs.Prelude.{◌≡◌, ◌<◌, eqb, leb, position, IfSome};
ghost use Rattle.bits.specs.Sets.{full};
ghost use Rattle.handle.specs.Sizes.{subselectors};
ghost use Rattle.handle.specs.Widths.{bits_of, length_of, width_from, room};
ghost use Rattle.handle.specs.Selectors as sel;
ghost use Rattle.handle.specs.Handles as spec;
ghost use Rattle.handle.specs.Conversion.{conversion, product};

use aes::Tables;
pub use codec::primary_bytes;
use sizes::{PASSWORD_BYTES, Password};

// How many bits a subselector has room for.
const ROOM: usize = 16;

// How many subselectors a selector has.
const SUBSELECTORS: usize = 4;

// Where the parameter's two bytes stand in the block that a conversion encrypts: they are the last two.
const PARAMETER_AT: usize = 14;

// The bytes of the longest handle.
pub const HANDLE_BYTES: usize = 27;

// How many bytes the handles of the widths have.
const SMALL: usize = 21;

const MIDDLE: usize = 23;

const LARGE: usize = HANDLE_BYTES;

// How many segments a cluster has, and how many bits a subselector of its handles; none for what is no handle.
// Stays: `None` is a width, and no `Option` around one, since the theorem `HeldTrips` says what bytes of no width decode to: the
// handle `no_handle`, of the width `None`, for which the row `no_width` stands.
#[derive(Clone, Copy)]
pub enum Width {
    None = 0,
    Four = 4,
    Eight = 8,
    Sixteen = 16,
}

impl Width {
    // The width of a cluster of so many segments.
    // Stays: no `TryFrom`, since each number has an answer, `None` too.
    pub fn from_bits(bits: usize) -> Width
        ensures { result ≡ width_from bits }
    {
        match bits {
            4 => Width::Four,
            8 => Width::Eight,
            16 => Width::Sixteen,
            _ => Width::None,
        }
    }

    // The width as a number.
    pub fn bits(self) -> u8
        ensures { result ≡ bits_of self }
    {
        self as u8
    }

    // How many bytes a handle of the width has.
    pub fn length(self) -> usize
        ensures { result ≡ length_of self }
    {
        match self {
            Width::None => 0,
            Width::Four => SMALL,
            Width::Eight => MIDDLE,
            Width::Sixteen => LARGE,
        }
    }

    // A flat subselector: all bits of the width.
    fn full(self) -> u16
        ensures { result ≡ full (bits_of self) }
    {
        match self {
            Width::None => 0,
            Width::Four => 0xf,
            Width::Eight => 0xff,
            Width::Sixteen => 0xffff,
        }
    }
}

// What opens some segments of the cluster that it names by node and local number.
#[derive(Clone, Copy)]
pub struct Handle {
    pub node: u16,
    pub local: u8,
    pub password: Password,
    pub width: Width,
    pub selector: [u16; SUBSELECTORS],
}

// The bytes of a handle, as many as `length` tells, and then zeros.
// Stays: an array of the longest handle's bytes and a length, since there is no heap, and calls in C, and the `Reply` of the
// definitions, give handles of any width in one size.
#[derive(Clone, Copy)]
pub struct HandleBytes {
    pub length: u8,
    pub bytes: [u8; HANDLE_BYTES],
}

// What a weakening gives: the weaker handle, and how many segments it references.
#[derive(Clone, Copy)]
pub struct Weaker {
    pub handle: Handle,
    pub count: u8,
}

// The password that a parameter turns a password into.
pub fn convert_with(tables: &Tables, password: Password, parameter: u16) -> Password
    ensures { result ≡ conversion password parameter }
{
    let mut block = [0u8; PASSWORD_BYTES];
    block[PARAMETER_AT..].copy_from_slice(&parameter.to_be_bytes());
    aes::encrypt_with(tables, password, block)
}

// A password through the conversion of one subselector; a flat one is skipped.
fn converted_with(tables: &Tables, width: Width, password: Password, subselector: u16) -> Password
    ensures { result ≡ spec.converted (bits_of width) conversion password subselector }
{
    let flat = width.full();
    if subselector == flat {
        return password;
    }
    convert_with(tables, password, subselector)
}

// Whether two passwords are equal. All sixteen bytes are looked at, so that the time taken tells nothing of how many
// agree.
pub fn same(a: Password, b: Password) -> bool
    ensures { result ≡ spec.same_password a b }
{
    let mut differing = 0u8;
    for (x, y) in a.iter().zip(&b) {
        differing = (*x ^ *y) | differing;
    }
    differing == 0
}

// The place of the first of the subselectors that is `flat`; none where none is.
fn place_of(selector: [u16; SUBSELECTORS], flat: u16) -> Option<usize>
    ensures { result ≡ position (λ s. eqb s flat) selector }
{
    selector.iter().position(|s| *s == flat)
}

impl Handle {
    // No handle.
    fn none() -> Handle
        ensures { result ≡ spec.no_handle }
    {
        Handle {
            node: 0,
            local: 0,
            password: [0u8; PASSWORD_BYTES],
            width: Width::None,
            selector: [0u16; SUBSELECTORS],
        }
    }

    // The node that the handle names.
    pub fn node(self) -> usize
        ensures { result ≡ spec.node_of self }
    {
        self.node as usize
    }

    // Whether the handle has this width; none where there is no handle.
    pub fn has_width(self, width: u8) -> bool
        ensures { result ≡ eqb (spec.width_of self) width }
    {
        let own = self.width;
        own.bits() == width
    }

    // Whether a segment's number is at or above the handle's width.
    pub fn beyond(self, segment: usize) -> bool
        ensures { result ≡ leb (spec.width_of self) segment }
    {
        let own = self.width;
        own.bits() as usize <= segment
    }

    // The bits that all four subselectors have, as far as a subselector has room.
    fn shared(self) -> u16
        ensures { result ≡ sel.common room self.selector }
    {
        let s = self.selector;
        s[0] & (s[1] & (s[2] & s[3]))
    }

    // The bits of the width that all four subselectors have.
    pub fn common(self) -> u16
        ensures { result ≡ sel.common (spec.width_of self) self.selector }
    {
        let width = self.width;
        self.shared() & width.full()
    }

    // How many segments the handle references.
    pub fn count(self) -> u8
        ensures { result ≡ sel.referenced (spec.width_of self) self.selector }
    {
        let common = self.common();
        u16::count_ones(common) as u8
    }

    // Whether the handle references a segment; it references none that has no bit.
    pub fn references(self, segment: usize) -> bool
        ensures { result ≡ sel.references self.selector segment }
    {
        if ROOM <= segment {
            return false;
        }
        let shared = self.shared();
        (shared & (1 << segment)) != 0
    }

    // Whether a flat subselector stands below one that is not.
    pub fn gapped(self) -> bool
        ensures { result ≡ sel.gapped (spec.width_of self) self.selector }
    {
        let width = self.width;
        let flat = width.full();
        let s = self.selector;
        let a = s[0] == flat;
        let b = s[1] == flat;
        let c = s[2] == flat;
        let d = s[3] == flat;
        (a & !b) | ((b & !c) | (c & !d))
    }

    // Whether all four subselectors are flat.
    pub fn primary(self) -> bool
        ensures { result ≡ sel.all_flat (spec.width_of self) self.selector }
    {
        let width = self.width;
        let flat = width.full();
        self.selector == [flat; SUBSELECTORS]
    }

    // The place of the first flat subselector; none where none is flat.
    pub fn first_flat(self) -> Option<usize>
        ensures place { sel.place_of result ≡ sel.first_flat (spec.width_of self) self.selector }
        ensures bound { IfSome result (λ k. k < subselectors) }
    {
        let width = self.width;
        place_of(self.selector, width.full())
    }

    // A primary password through the conversions of the handle's subselectors, 0 first.
    fn opened_with(self, tables: &Tables, primary: Password) -> Password
        ensures { result ≡ spec.through (spec.width_of self) (product (spec.name_of self)) self.selector primary }
    {
        let width = self.width;
        let s = self.selector;
        let a = converted_with(tables, width, primary, s[0]);
        let b = converted_with(tables, width, a, s[1]);
        let c = converted_with(tables, width, b, s[2]);
        converted_with(tables, width, c, s[3])
    }

    // Whether the handle validates from a primary password.
    pub fn validates_with(self, tables: &Tables, primary: Password) -> bool
        ensures { result ≡ spec.validates (spec.width_of self) (product (spec.name_of self)) primary self }
    {
        let opened = self.opened_with(tables, primary);
        let password = self.password;
        same(opened, password)
    }
}
