// What is written to a buffer: the numbers of entries, and handles of 23 bytes.
ghost use Rattle.std.specs.Prelude.{◌≡◌, ◌≤◌, length};
ghost use Rattle.handle.specs.Handles.{written};
ghost use Rattle.register.specs.inner.Work as work;

use crate::{HANDLE, ROOM, Seen};
use handle::Handle;

// Whether what is seen of an entry's handle has a segment.
fn has(seen: Option<Seen>, segment: usize) -> bool
    requires { segment ≤ 7 }
    ensures { result ≡ work.segment_in segment seen }
{
    seen.is_some_and(|seen| (seen.set & (1 << segment)) != 0)
}

// The numbers of those of the first n entries that reference a segment, at the start of the buffer; how many.
pub fn list(seen: &[Option<Seen>; ROOM], n: usize, segment: usize, buffer: &mut [u8]) -> usize
    requires n_bound { n ≤ 255 }
    requires n_in_bounds { n ≤ length buffer.old }
    requires segment_bound { segment ≤ 7 }
    ensures { (result ≡ length (work.openers_in seen.now segment n))
        × work.Put buffer.old buffer.new 0 (work.openers_in seen.now segment n) }
{
    // Stays: places in the buffer are counted, since only some entries are written; a chain of `filter` and `zip` is longer.
    let mut count: usize = 0;
    for k in 0..n {
        if has(seen[k + 1], segment) {
            buffer[count] = (k + 1) as u8;
            count += 1;
        }
    }
    count
}

// The bytes of a handle after the buffer's first `at`.
fn put(buffer: &mut [u8], at: usize, handle: Handle)
    requires { work.Fitting at (length buffer.old) }
    ensures { work.PutHandle buffer.old buffer.new at (written handle).bytes }
{
    let bytes = handle.encode().bytes;
    // Stays: byte by byte. `copy_from_slice` takes 7 instructions more for each entry.
    for i in 0..HANDLE {
        buffer[at + i] = bytes[i];
    }
}

// The bytes of the handles of the first n entries at the start of the buffer.
pub fn lay(handles: &[Handle; ROOM], n: usize, buffer: &mut [u8])
    requires { work.Room n (length buffer.old) }
    ensures { work.Put buffer.old buffer.new 0 (work.laid_in handles.now n) }
{
    // Stays: the place in the buffer goes by the entry's number; what `chunks_exact_mut` leaves in a slice no proof is told.
    for k in 0..n {
        put(buffer, k * HANDLE, handles[k + 1]);
    }
}
