// The two questions about a register of handles given out. They see no store.
ghost use Rattle.std.specs.Prelude.{◌≡◌, length};
ghost use Rattle.handle.specs.Conversion.{product};
ghost use Rattle.codec.specs.Held.{bytes_held};
ghost use Rattle.register.specs.Registers.{told, opened, handles_told, handles_left, openers_told, openers_left};

use codec::HELD;

// The handles of all entries of a register, in order, 23 bytes each; or the lowest entry that fails and its number.
#[unsafe(no_mangle)]
pub extern "C" fn gelmuszta_register(
    handle: &[u8; HELD],
    entries: &[u8],
    handles: &mut [u8],
    entry: &mut usize,
) -> u8
    ensures answer { told result entry.new
        ≡ handles_told product (bytes_held handle.now) entries.now (length handles.old) }
    ensures handles { handles.new
        ≡ handles_left product (bytes_held handle.now) entries.now handles.old }
{
    let bytes = codec::own(handle);
    match register::handles(bytes, entries, handles) {
        Ok(()) => {
            *entry = 0;
            0
        }
        Err(fault) => {
            *entry = fault.entry;
            fault.number.code()
        }
    }
}

// The numbers of the entries whose handle references a segment, in rising order, and how many they are; or the lowest entry
// that fails and its number.
#[unsafe(no_mangle)]
pub extern "C" fn gelmuszta_openers(
    handle: &[u8; HELD],
    segment: usize,
    entries: &[u8],
    openers: &mut [u8],
    count: &mut usize,
    entry: &mut usize,
) -> u8
    ensures answer { opened result entry.new count.new
        ≡ openers_told product (bytes_held handle.now) segment entries.now (length openers.old) }
    ensures openers { openers.new
        ≡ openers_left product (bytes_held handle.now) segment entries.now openers.old }
{
    let bytes = codec::own(handle);
    match register::openers(bytes, segment, entries, openers) {
        Ok(listed) => {
            *entry = 0;
            *count = listed;
            0
        }
        Err(fault) => {
            *entry = fault.entry;
            *count = 0;
            fault.number.code()
        }
    }
}
