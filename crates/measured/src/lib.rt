// What the measurements under bench/ call, over bytes and numbers alone. It is linked into them and nowhere else.
#![tactic(auto)]

ghost use Rattle.std.specs.Prelude.{◌≡◌, ◌<◌, length};
ghost use Rattle.aes.specs.Cipher.{cipher};
ghost use Rattle.loops.specs.Tabulate.{tabulate};
ghost use Rattle.sizes.specs.Sizes.{records, segments};
ghost use Rattle.store.specs.Sound as sound-spec;
ghost use Rattle.measured.specs.Stores.{place_from, segment_from, store_from};
ghost use Rattle.measured.specs.Handles.{handed, validated, weakened};
ghost use Rattle.handle.specs.Handles.{written};
ghost use Rattle.calls.specs.Calls as calls;
ghost use Rattle.calls.specs.Steps.{aes_step};
ghost use Rattle.calls.specs.Answers.{copy_of};

use handle::{HANDLE_BYTES, Handle};
use sizes::{PASSWORD_BYTES, Password, RECORDS, SEGMENTS};
use store::{Cluster, Segment, Span, Store};

// Clusters of sixteen segments, and an entry for each segment of the store.
const WIDTH: u8 = 16;

const ENTRIES: usize = 512;

// A block encrypted under a key.
#[unsafe(no_mangle)]
pub extern "C" fn measured_encrypt(key: &[u8; 16], block: &[u8; 16], out: &mut [u8; 16])
    ensures { out.new ≡ cipher key.now block.now }
{
    *out = aes::encrypt(*key, *block);
}

// Whether the handle that bytes hold validates from a primary password.
#[unsafe(no_mangle)]
pub extern "C" fn measured_validate(handle: &[u8], primary: &Password) -> bool
    ensures { result ≡ validated primary.now handle.now }
{
    let tables = aes::Tables::new();
    Handle::decode(handle).validates_with(&tables, *primary)
}

// The handle that bytes hold, weakened by a mask; its bytes and its length go out, its number is returned.
#[unsafe(no_mangle)]
pub extern "C" fn measured_weaken(
    handle: &[u8],
    mask: u16,
    out: &mut [u8; HANDLE_BYTES],
    out_length: &mut u8,
) -> u8
    ensures value { result ≡ (weakened handle.now mask).number }
    ensures out_length_after { handed out.new out_length.new ≡ written (weakened handle.now mask).handle }
{
    match Handle::decode(handle).weaken(mask) {
        Ok(weaker) => {
            let given = weaker.handle.encode();
            let bytes = given.bytes;
            *out = bytes;
            *out_length = given.length;
            0
        }
        Err(number) => {
            *out = [0; HANDLE_BYTES];
            *out_length = 0;
            number.code()
        }
    }
}

fn place_from(base: u16, length: u16) -> Option<Span>
    ensures { result ≡ place_from base length }
{
    if length == 0 {
        return None;
    }
    Some(Span { base, length })
}

// The segments of record n.
fn segments_from(bases: &[u16; ENTRIES], lengths: &[u16; ENTRIES], n: usize) -> [Segment; SEGMENTS]
    requires { n < records }
    ensures { result ≡ tabulate segments (segment_from bases.now lengths.now n) }
{
    let absent = Segment {
        place: None,
        frozen: false,
    };
    let mut r = [absent; SEGMENTS];
    for (i, segment) in r.iter_mut().enumerate() {
        let at = n * SEGMENTS + i;
        *segment = Segment {
            place: place_from(bases[at], lengths[at]),
            frozen: false,
        };
    }
    r
}

fn store_from(bases: &[u16; ENTRIES], lengths: &[u16; ENTRIES]) -> Store
    ensures { result ≡ store_from bases.now lengths.now }
{
    let mut clusters = [store::inactive_cluster(); RECORDS];
    for (n, cluster) in clusters.iter_mut().enumerate() {
        let segments = segments_from(bases, lengths, n);
        *cluster = Cluster {
            active: true,
            width: WIDTH,
            read: [0; PASSWORD_BYTES],
            write: [0; PASSWORD_BYTES],
            segments,
        };
    }
    Store { clusters }
}

// Whether a store made of two tables is sound with a slice of `size` bytes.
#[unsafe(no_mangle)]
pub extern "C" fn measured_sound(
    bases: &[u16; ENTRIES],
    lengths: &[u16; ENTRIES],
    size: usize,
) -> bool
    ensures { result ≡ sound-spec.sound (store_from bases.now lengths.now) size }
{
    store::sound(store_from(bases, lengths), size)
}

// A read on such a store: the length that it tells.
#[unsafe(no_mangle)]
pub extern "C" fn measured_read(
    bases: &[u16; ENTRIES],
    lengths: &[u16; ENTRIES],
    memory: &[u8],
    segment: usize,
    handle: &[u8],
    buffer: &mut [u8],
) -> usize
    ensures told { result ≡ (aes_step (calls.reading segment handle.now buffer.old)
        (copy_of (store_from bases.now lengths.now) memory.now)).reply.length }
    ensures copied { buffer.new ≡ (aes_step (calls.reading segment handle.now buffer.old)
        (copy_of (store_from bases.now lengths.now) memory.now)).reply.buffer }
{
    let store = store_from(bases, lengths);
    match guard::read(store, memory, buffer, segment, handle) {
        Ok(given) => given.length(),
        Err(_) => 0,
    }
}

// A look on such a store: how many bytes it shows.
#[unsafe(no_mangle)]
pub extern "C" fn measured_look(
    bases: &[u16; ENTRIES],
    lengths: &[u16; ENTRIES],
    memory: &[u8],
    current: usize,
    segment: usize,
    handle: &[u8],
) -> usize
    ensures { result ≡ length (aes_step (calls.looking current segment handle.now)
        (copy_of (store_from bases.now lengths.now) memory.now)).reply.shown }
{
    let store = store_from(bases, lengths);
    guard::look(store, memory, current, segment, handle).len()
}
