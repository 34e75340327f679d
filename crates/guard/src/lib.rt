// The calls of documents 01 and 02, and the look, on a store and the memory that goes with it. Each entry point takes
// the records by value and the memory lent, and gives what `step` gives: a refused call leaves all as it was. It looks up the
// record of the cluster that the call is about, has the core (`cluster`) do the call on it, and puts the record back where
// the call may change it.
#![tactic(auto)]

ghost use Rattle.std.specs.Prelude.{◌≡◌, List, [], ℕ, ◌<◌, length};
ghost use Rattle.std.specs.Fn.{FnOnceReturnsAt};
ghost use Rattle.sizes.specs.Sizes.{records};
ghost use Rattle.numbers.specs.Codes.{told};
ghost use Rattle.store.specs.declared.Store as declared;
ghost use Rattle.calls.specs.Calls as calls;
ghost use Rattle.calls.specs.Steps.{aes_step};
ghost use Rattle.calls.specs.Answers.{copy_of, ended, finished, looked_as};
ghost use Rattle.calls.specs.Looks.{aes_looked};
ghost use Rattle.refusals.specs.Given.{record_found};
ghost use Rattle.guard.specs.Places.{further};
ghost use Rattle.guard.specs.inner.Opens.{Opens, DoneBy, put_back};

use calls::{Answer, Changed, Done, Part};
use handle::Handle;
use numbers::Number;
use refusals::Opened;
use sizes::Password;
use store::Store;

// Call 7, which looks at no store.
pub fn weaken(bytes: &[u8], mask: u16) -> Answer
    ensures { (s : declared.Store) (m : List ℕ)
        → ended s m result [] ≡ aes_step (calls.weakening_by mask bytes.now) (copy_of s m) }
{
    let handle = Handle::decode(bytes);
    cluster::weaken(handle, mask)
}

// The record of the cluster that a handle names, the first where there is no such place.
fn record_of(handle: Handle) -> usize
    ensures { (result ≡ record_found handle) × (result < records) }
{
    store::record_at(handle.node(), handle.local as usize)
}

// What a call that opens a cluster begins with.
// Stays: the calls that alter no record, and call 3, begin with it themselves: a core handed over is no shorter there.
fn look_up(store: &Store, size: usize, bytes: &[u8]) -> Opened
    ensures { Opens result store.now size bytes.now }
{
    let handle = Handle::decode(bytes);
    let cluster = store.clusters[record_of(handle)];
    let sound = store::sound(*store, size);
    Opened {
        sound,
        handle,
        cluster,
    }
}

// The records with one of them as the core left it.
fn put_back(store: &Store, at: usize, changed: Changed) -> Done
    requires { at < records }
    ensures { result ≡ put_back store.now at changed }
{
    let mut next = *store;
    next.clusters[at] = changed.cluster;
    Done {
        store: next,
        given: changed.given,
    }
}

// What a call does that opens a cluster and changes no more than its record: the core does it on the record looked up, which
// is then put back.
fn change<F: FnOnce(&Opened) -> Result<Changed, Number>>(
    store: &Store,
    memory: &[u8],
    bytes: &[u8],
    core: F,
) -> Result<Done, Number>
    requires { F.IsAlwaysCallable core }
    ensures { DoneBy (FnOnceReturnsAt F.FnOnce core) store.now memory.now bytes.now result }
{
    let opened = look_up(store, memory.len(), bytes);
    let changed = core(&opened)?;
    Ok(put_back(store, record_of(opened.handle), changed))
}

// Call 1: a cluster of the current node becomes active with a width and two passwords; its read and its write primary
// handle.
pub fn new_cluster(
    store: Store,
    memory: &[u8],
    current: usize,
    local: usize,
    width: usize,
    read: Password,
    write: Password,
) -> Result<Done, Number>
    ensures { finished store memory.now [] result
        ≡ aes_step (calls.making_cluster current local width read write) (copy_of store memory.now) }
{
    let at = store::record_at(current, local);
    let cluster = store.clusters[at];
    let sound = store::sound(store, memory.len());
    let changed = cluster::new_cluster(sound, cluster, current, local, width, read, write)?;
    Ok(put_back(&store, at, changed))
}

// Call 2: the cluster's record becomes that of the starting store, unless a segment of it is frozen.
pub fn delete_cluster(
    store: Store,
    memory: &[u8],
    current: usize,
    bytes: &[u8],
) -> Result<Done, Number>
    ensures { finished store memory.now [] result
        ≡ aes_step (calls.deleting_cluster current bytes.now) (copy_of store memory.now) }
{
    change(
        &store,
        memory,
        bytes,
        |o| cluster::delete_cluster(o, current),
    )
}

// Call 3: the segment is present at the smallest base at which it fits, and its bytes are zero.
pub fn new_segment(
    store: Store,
    memory: &mut [u8],
    current: usize,
    segment: usize,
    size: usize,
    bytes: &[u8],
) -> Result<Done, Number>
    ensures { finished store memory.new [] result
        ≡ aes_step (calls.making_segment current segment size bytes.now) (copy_of store memory.old) }
{
    let opened = look_up(&store, memory.len(), bytes);
    cluster::segment_refusal(&opened, current, segment, size)?;
    let found = store::new_base(store, opened.handle.node(), size);
    let changed = cluster::new_segment(found, &opened, memory, segment, size)?;
    Ok(put_back(&store, record_of(opened.handle), changed))
}

// Call 4: the segment is absent, unless it is frozen; memory bytes stay.
pub fn delete_segment(
    store: Store,
    memory: &[u8],
    current: usize,
    segment: usize,
    bytes: &[u8],
) -> Result<Done, Number>
    ensures { finished store memory.now [] result
        ≡ aes_step (calls.deleting_segment current segment bytes.now) (copy_of store memory.now) }
{
    change(
        &store,
        memory,
        bytes,
        |o| cluster::delete_segment(o, current, segment),
    )
}

// Call 5: the first bytes of the buffer become those of the segment, and its length is told.
pub fn read(store: Store, memory: &[u8], buffer: &mut [u8], segment: usize, bytes: &[u8]) -> Answer
    ensures { ended store memory.now result buffer.new
        ≡ aes_step (calls.reading segment bytes.now buffer.old) (copy_of store memory.now) }
{
    let opened = look_up(&store, memory.len(), bytes);
    cluster::read(&opened, memory, buffer, segment)
}

// Call 6: the segment becomes the first bytes of the data.
pub fn write(
    store: Store,
    memory: &mut [u8],
    segment: usize,
    bytes: &[u8],
    written: &[u8],
) -> Answer
    ensures { ended store memory.new result written.now
        ≡ aes_step (calls.writing segment bytes.now written.now) (copy_of store memory.old) }
{
    let opened = look_up(&store, memory.len(), bytes);
    cluster::write(&opened, memory, segment, written)
}

// Call 8: the handle reduced in the mode named.
pub fn reduce(store: Store, memory: &[u8], mode: usize, bytes: &[u8]) -> Answer
    ensures { ended store memory.now result []
        ≡ aes_step (calls.reducing mode bytes.now) (copy_of store memory.now) }
{
    let opened = look_up(&store, memory.len(), bytes);
    cluster::reduce(&opened, mode)
}

// Call 9: the primary password of the mode named becomes the new one; the new primary handle.
pub fn new_password(
    store: Store,
    memory: &[u8],
    mode: usize,
    bytes: &[u8],
    password: Password,
) -> Result<Done, Number>
    ensures { finished store memory.now [] result
        ≡ aes_step (calls.renewing mode bytes.now password) (copy_of store memory.now) }
{
    change(
        &store,
        memory,
        bytes,
        |o| cluster::new_password(o, mode, password),
    )
}

// Call 10: the segment is frozen where it lies; one that is frozen already stays so.
pub fn freeze(
    store: Store,
    memory: &[u8],
    current: usize,
    segment: usize,
    bytes: &[u8],
) -> Result<Done, Number>
    ensures { finished store memory.now [] result
        ≡ aes_step (calls.freezing current segment bytes.now) (copy_of store memory.now) }
{
    change(
        &store,
        memory,
        bytes,
        |o| cluster::freeze(o, current, segment),
    )
}

// Call 11: two handles of one cluster joined in the mode named.
pub fn join(store: Store, memory: &[u8], mode: usize, bytes: &[u8], other: &[u8]) -> Answer
    ensures { ended store memory.now result []
        ≡ aes_step (calls.joining mode bytes.now other.now) (copy_of store memory.now) }
{
    let opened = look_up(&store, memory.len(), bytes);
    let second = Handle::decode(other);
    cluster::join(&opened, second, mode)
}

// Validation asked for by itself: the refusal that reduction would give.
pub fn validate(store: Store, memory: &[u8], mode: usize, bytes: &[u8]) -> Result<(), Number>
    ensures { told result ≡ (aes_step (calls.validating mode bytes.now) (copy_of store memory.now)).reply.number }
{
    let tables = aes::Tables::new();
    let opened = look_up(&store, memory.len(), bytes);
    cluster::validate(&tables, &opened, mode)
}

// Where the part that a look shows begins and ends in the memory, or why it shows none. The records and the length of the
// memory tell it: no byte of it is lent.
pub fn look_part(
    store: Store,
    size: usize,
    current: usize,
    segment: usize,
    bytes: &[u8],
) -> Result<Part, Number>
    ensures { looked_as result ≡ aes_looked (calls.looking current segment bytes.now) store size }
{
    let opened = look_up(&store, size, bytes);
    cluster::look(&opened, current, segment)
}

// The refusal of a look.
pub fn look_number(
    store: Store,
    memory: &[u8],
    current: usize,
    segment: usize,
    bytes: &[u8],
) -> Result<(), Number>
    ensures { told result ≡ (aes_step (calls.looking current segment bytes.now) (copy_of store memory.now)).reply.number }
{
    look_part(store, memory.len(), current, segment, bytes)?;
    Ok(())
}

// A look: the part of the memory that is the segment, for as long as the memory is lent; an empty part where it is refused.
// Nothing is copied: the part lies in the memory, where `look_part` says.
pub fn look<'a>(
    store: Store,
    memory: &'a [u8],
    current: usize,
    segment: usize,
    bytes: &[u8],
) -> &'a [u8]
    ensures shown { result.now ≡ (aes_step (calls.looking current segment bytes.now) (copy_of store memory.now)).reply.shown }
    ensures place { result.ref_ptr
        ≡ further memory.entry.ref_ptr (aes_looked (calls.looking current segment bytes.now) store (length memory.now)).part.from }
{
    match look_part(store, memory.len(), current, segment, bytes) {
        Ok(part) => &memory[part.from..part.to],
        Err(_) => &memory[..0],
    }
}
