// The call that makes a segment: it changes a record, and clears the segment's part of the memory. It comes in two, since
// the base depends on the records of a whole node: first the refusals that a base plays no part in, then the rest.
ghost use Rattle.std.specs.Prelude.{◌≡◌, List, ℕ, length};
ghost use Rattle.numbers.specs.Codes.{told};
ghost use Rattle.handle.specs.Handles.{node_of, first_of};
ghost use Rattle.store.specs.declared.Store as declared;
ghost use Rattle.store.specs.Records.{table_at};
ghost use Rattle.store.specs.Placement.{placed_by, placement};
ghost use Rattle.calls.specs.Calls as calls;
ghost use Rattle.calls.specs.Steps.{aes_step};
ghost use Rattle.calls.specs.Answers.{copy_of, changed};
ghost use Rattle.refusals.specs.Given.{OpenedFrom, record_found};
ghost use Rattle.cluster.specs.inner.Makes.{bad_fields, make_rows, can_make, CanMake, Made};

use calls::{Changed, Given};
use handle::Handle;
use numbers::Number;
use refusals::Opened;
use sizes::{MEMORY, NODE_MEMORY, NODES};
use store::{Cluster, Span};

// Whether the segment's number or its size is none that a cluster of the handle's width may have.
fn bad_fields(handle: Handle, segment: usize, size: usize) -> bool
    ensures { result ≡ bad_fields handle segment size }
{
    handle.beyond(segment) || size == 0 || NODE_MEMORY < size
}

// The first refusal but 16 that applies.
pub fn segment_refusal(
    opened: &Opened,
    current: usize,
    segment: usize,
    size: usize,
) -> Result<(), Number>
    ensures { told result ≡ first_of (make_rows opened.now.sound opened.now.handle opened.now.cluster current segment size) }
{
    opened.owner_refusal(current, bad_fields(opened.handle, segment, size))?;
    if store::place_of(opened.cluster, segment).is_some() {
        return Err(Number::Present);
    }
    Ok(())
}

// Whether a slice of `all` bytes is whole, the node one of the four, and the segment ends inside its memory. No sum is
// formed, so none can wrap.
#[tactic(auto, unfolding(crate::specs::inner::Makes::can_make))]
fn can_make(all: usize, node: usize, base: usize, size: usize) -> bool
    ensures { result ≡ can_make all node base size }
{
    all == MEMORY && node < NODES && base <= NODE_MEMORY && size <= NODE_MEMORY - base
}

// Clears the part of the memory that the new segment gets, and gives the record of its cluster with the segment at its
// place. The bounds keep the casts exact.
fn make(
    cluster: Cluster,
    memory: &mut [u8],
    node: usize,
    segment: usize,
    base: usize,
    size: usize,
) -> Cluster
    requires { CanMake (length memory.old) node base size }
    ensures { Made node segment base size cluster result memory.old memory.new }
{
    let from = node * NODE_MEMORY + base;
    memory[from..from + size].fill(0);
    let span = Span {
        base: base as u16,
        length: size as u16,
    };
    store::with_place(cluster, segment, Some(span))
}

// Call 3, once none of those refusals applies and placement has answered: the segment is present at the base found, and
// its bytes are zero.
pub fn new_segment(
    found: Option<usize>,
    opened: &Opened,
    memory: &mut [u8],
    segment: usize,
    size: usize,
) -> Result<Changed, Number>
    ensures { (s : declared.Store) (b : List ℕ) (current : ℕ) → OpenedFrom opened.now s memory.old b
        → first_of (make_rows opened.now.sound opened.now.handle opened.now.cluster current segment size) ≡ 0
        → placed_by found ≡ placement (table_at s) (node_of opened.now.handle) size
        → changed (record_found opened.now.handle) s memory.new result
        ≡ aes_step (calls.making_segment current segment size b) (copy_of s memory.old) }
{
    match found {
        None => Err(Number::NoRoom),
        Some(base) => {
            let node = opened.handle.node();
            if !can_make(memory.len(), node, base, size) {
                return Err(Number::Unsound);
            }
            Ok(Changed {
                cluster: make(opened.cluster, memory, node, segment, base, size),
                given: Given::Nothing,
            })
        }
    }
}
