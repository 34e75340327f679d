// A register of handles given out (document 02, §9). No store plays a part.
#![tactic(auto)]

ghost use Rattle.std.specs.Prelude.{◌≡◌, ◌≤◌, length, IfOk};
ghost use Rattle.handle.specs.Conversion.{product};
ghost use Rattle.handle.specs.Handles.{decoded};
ghost use Rattle.numbers.specs.Codes.{told};
ghost use Rattle.register.specs.Registers as spec;

use handle::Handle;
use lay::{lay, list};
use numbers::Number;
use sizes::{CLUSTERS, NODES};
use work::work_out;

mod lay; // lay.rt: numbers and handles laid in a buffer
mod work; // work.rt: the entries worked out, each from the one that it was weakened from

// Bytes of an entry: the entry it was weakened from, and the mask used.
const ENTRY: usize = 2;

// The most entries, and room for them and the handle supplied.
const MOST: usize = 255;

const ROOM: usize = 256;

// Bytes of a handle of width 8.
const HANDLE: usize = 23;

// The last segment of width 8.
const LAST: usize = 7;

// What a question is refused with: the number, and the lowest entry that fails, 0 for the call as a whole.
#[derive(Clone, Copy, Debug, PartialEq, Eq)]
pub struct Fault {
    pub number: Number,
    pub entry: usize,
}

// A number alone refuses the call as a whole.
impl From<Number> for Fault {
    ghost from_gives = { λ n fault. fault ≡ record { number = n; entry = 0 } };

    fn from(number: Number) -> Fault {
        Fault { number, entry: 0 }
    }
}

// What the weakenings of a handle go by: a bit for each segment that it references, and its first flat subselector.
#[derive(Clone, Copy)]
struct Seen {
    set: u16,
    flat: u16,
}

// The handle that is supplied, unless a number refuses the call as a whole: so many bytes of entries and of buffer, of which an
// entry needs `each`.
fn whole(
    handle: &[u8],
    beyond: bool,
    size: usize,
    room: usize,
    each: usize,
) -> Result<Handle, Number>
    requires { each ≤ 23 }
    ensures number { told result ≡ spec.whole_number handle.now beyond size room each }
    ensures handle { IfOk result (λ h. h ≡ decoded handle.now) }
{
    if handle.len() != HANDLE {
        return Err(Number::Length);
    }
    let h = Handle::decode(handle);
    if NODES <= h.node() {
        return Err(Number::NoSuchPlace);
    }
    if CLUSTERS <= h.local as usize {
        return Err(Number::NoSuchPlace);
    }
    if beyond {
        return Err(Number::Field);
    }
    if h.gapped() {
        return Err(Number::Gapped);
    }
    if size % ENTRY != 0 {
        return Err(Number::ListLength);
    }
    let n = size / ENTRY;
    if MOST < n {
        return Err(Number::ListLength);
    }
    if room < n * each {
        return Err(Number::Short);
    }
    Ok(h)
}

// First question: the handles of all entries, in order, 23 bytes each.
pub fn handles(handle: &[u8], entries: &[u8], buffer: &mut [u8]) -> Result<(), Fault>
    ensures answer { spec.told_of result ≡ spec.handles_told product handle.now entries.now (length buffer.old) }
    ensures buffer { buffer.new ≡ spec.handles_left product handle.now entries.now buffer.old }
{
    let h = whole(handle, false, entries.len(), buffer.len(), HANDLE)?;
    let tables = aes::Tables::new();
    let mut seen = [None; ROOM];
    let mut handles = [h; ROOM];
    work_out(&tables, true, h, entries, &mut seen, &mut handles)?;
    lay(&handles, entries.len() / ENTRY, buffer);
    Ok(())
}

// Second question: the numbers of the entries whose handle references a segment, in rising order, and how many they are.
pub fn openers(
    handle: &[u8],
    segment: usize,
    entries: &[u8],
    buffer: &mut [u8],
) -> Result<usize, Fault>
    ensures answer { spec.opened_of result ≡ spec.openers_told product handle.now segment entries.now (length buffer.old) }
    ensures buffer { buffer.new ≡ spec.openers_left product handle.now segment entries.now buffer.old }
{
    let h = whole(handle, LAST < segment, entries.len(), buffer.len(), 1)?;
    let tables = aes::Tables::new();
    let mut seen = [None; ROOM];
    let mut handles = [h; ROOM];
    work_out(&tables, false, h, entries, &mut seen, &mut handles)?;
    let count = list(&seen, entries.len() / ENTRY, segment, buffer);
    Ok(count)
}
