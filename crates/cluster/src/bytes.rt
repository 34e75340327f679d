// Reading, writing and looking: the calls that are about the bytes of a segment and change no record.
ghost use Rattle.std.specs.Prelude.{◌≡◌, List, ◌++◌, ℕ, ◌^◌, ◌<◌, length, take, drop};
ghost use Rattle.numbers.specs.Codes.{told};
ghost use Rattle.handle.specs.Handles.{node_of};
ghost use Rattle.store.specs.declared.Store as declared;
ghost use Rattle.store.specs.Records.{base_of, address};
ghost use Rattle.calls.specs.Calls as calls;
ghost use Rattle.calls.specs.Steps.{aes_step, overwritten};
ghost use Rattle.calls.specs.Answers.{copy_of, ended, looked_as};
ghost use Rattle.calls.specs.Looks.{aes_looked};
ghost use Rattle.refusals.specs.Given.{OpenedFrom};
ghost use Rattle.cluster.specs.inner.Access.{reached, accessed, part_of, Reaches};

use calls::{Answer, Given, Part};
use handle::Handle;
use numbers::Number;
use refusals::Opened;
use sizes::{NODE_MEMORY, NODES};
use store::{READ_MODE, Span, WRITE_MODE};

// Where a place of the memory of a handle's node begins in the slice. Node and base have sixteen bits each.
fn start_of(handle: Handle, place: Option<Span>) -> usize
    ensures begins { result ≡ address (node_of handle) (base_of place) }
    ensures low { result < 2 ^ 32 }
{
    handle.node() * NODE_MEMORY + store::base_of(place) as usize
}

// The first refusal that applies, of the shared ones and then 11 and 14: of a read, a write or a look, where `far` and `away`
// tell whether its current node is bad or not the handle's.
fn reach(
    opened: &Opened,
    place: Option<Span>,
    segment: usize,
    far: bool,
    away: bool,
    mode: usize,
) -> Result<(), Number>
    ensures { told result ≡ reached opened.now.sound opened.now.handle opened.now.cluster place segment far away mode }
{
    let tables = aes::Tables::new();
    let field = opened.handle.beyond(segment);
    opened.first_refusal(&tables, far, field, away, mode)?;
    if !opened.handle.references(segment) {
        return Err(Number::NotReferenced);
    }
    if place.is_none() {
        return Err(Number::Absent);
    }
    Ok(())
}

// The first refusal of a read or a write that applies: those above, then 22, where `kept` tells whether the call would alter a
// frozen segment, then 15, where `room` is the length of the buffer or the data.
fn access(
    opened: &Opened,
    place: Option<Span>,
    segment: usize,
    kept: bool,
    room: usize,
    mode: usize,
) -> Result<(), Number>
    ensures { told result ≡ accessed opened.now.sound opened.now.handle opened.now.cluster place segment kept room mode }
{
    reach(opened, place, segment, false, false, mode)?;
    if kept {
        return Err(Number::Frozen);
    }
    if room < store::length_of(place) as usize {
        return Err(Number::Short);
    }
    Ok(())
}

// The part of the memory that is a place of a handle's node.
fn part_of(handle: Handle, place: Option<Span>) -> Part
    ensures { result ≡ part_of handle place }
{
    let from = start_of(handle, place);
    let to = from + store::length_of(place) as usize;
    Part { from, to }
}

// Overwrites a part with one of the same length.
// Stays: byte by byte. `copy_from_slice` of a length that is not known calls `memmove`, which the archive for C asks nobody for.
fn copy(to: &mut [u8], from: &[u8])
    requires { length from.now ≡ length to.old }
    ensures { to.new ≡ from.now }
{
    for (i, byte) in to.iter_mut().enumerate() {
        *byte = from[i];
    }
}

// The segment's own part of the memory, handed on to be copied to the buffer's first bytes.
fn copy_out(memory: &[u8], from: usize, size: usize, buffer: &mut [u8])
    requires { Reaches from size (length memory.now) (length buffer.old) }
    ensures { buffer.new ≡ take size (drop from memory.now) ++ drop size buffer.old }
{
    copy(&mut buffer[..size], &memory[from..from + size]);
}

// The segment's part of the memory, lent on to be overwritten with the first bytes of the data.
fn copy_in(memory: &mut [u8], from: usize, size: usize, written: &[u8])
    requires { Reaches from size (length memory.old) (length written.now) }
    ensures { memory.new ≡ overwritten memory.old from (take size written.now) }
{
    copy(&mut memory[from..from + size], &written[..size]);
}

// Call 5: the first bytes of the buffer become those of the segment, and its length is told.
pub fn read(opened: &Opened, memory: &[u8], buffer: &mut [u8], segment: usize) -> Answer
    ensures { (s : declared.Store) (b : List ℕ) → OpenedFrom opened.now s memory.now b
        → ended s memory.now result buffer.new
        ≡ aes_step (calls.reading segment b buffer.old) (copy_of s memory.now) }
{
    let place = store::place_of(opened.cluster, segment);
    access(opened, place, segment, false, buffer.len(), READ_MODE)?;
    let from = start_of(opened.handle, place);
    let size = store::length_of(place) as usize;
    if memory.len() < from + size {
        return Err(Number::Unsound);
    }
    copy_out(memory, from, size, buffer);
    Ok(Given::Length(size))
}

// Call 6: the segment becomes the first bytes of the data.
pub fn write(opened: &Opened, memory: &mut [u8], segment: usize, written: &[u8]) -> Answer
    ensures { (s : declared.Store) (b : List ℕ) → OpenedFrom opened.now s memory.old b
        → ended s memory.new result written.now
        ≡ aes_step (calls.writing segment b written.now) (copy_of s memory.old) }
{
    let place = store::place_of(opened.cluster, segment);
    let kept = store::frozen_of(opened.cluster, segment);
    access(opened, place, segment, kept, written.len(), WRITE_MODE)?;
    let from = start_of(opened.handle, place);
    let size = store::length_of(place) as usize;
    if memory.len() < from + size {
        return Err(Number::Unsound);
    }
    copy_in(memory, from, size, written);
    Ok(Given::Nothing)
}

// A look: where in the memory the segment lies. No byte of the memory is needed to tell it.
pub fn look(opened: &Opened, current: usize, segment: usize) -> Result<Part, Number>
    ensures { (s : declared.Store) (m b : List ℕ) → OpenedFrom opened.now s m b
        → looked_as result ≡ aes_looked (calls.looking current segment b) s (length m) }
{
    let place = store::place_of(opened.cluster, segment);
    let away = current != opened.handle.node();
    reach(opened, place, segment, NODES <= current, away, READ_MODE)?;
    Ok(part_of(opened.handle, place))
}
