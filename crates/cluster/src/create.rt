// Call 1, which makes a cluster, and call 7, which never looks at the store.
ghost use Rattle.std.specs.Prelude.{◌≡◌, List, [], ℕ};
ghost use Rattle.numbers.specs.Codes.{told};
ghost use Rattle.store.specs.declared.Store as declared;
ghost use Rattle.store.specs.Records.{record_at};
ghost use Rattle.calls.specs.Calls as calls;
ghost use Rattle.calls.specs.Steps.{aes_step};
ghost use Rattle.calls.specs.Answers.{copy_of, ended, changed};
ghost use Rattle.refusals.specs.Given.{GivenPlace};
ghost use Rattle.handle.specs.Handles.{decoded, first_of};
ghost use Rattle.cluster.specs.inner.Creates.{create_rows};

use calls::{Answer, Changed, Given};
use handle::{Handle, Width};
use numbers::Number;
use sizes::{CLUSTERS, NODES, Password};
use store::Cluster;

// The first refusal of call 1 that applies.
fn place_refusal(
    sound: bool,
    cluster: Cluster,
    current: usize,
    local: usize,
    width: usize,
    read: Password,
    write: Password,
) -> Result<(), Number>
    ensures { told result ≡ first_of (create_rows sound cluster current local width read write) }
{
    if !sound {
        return Err(Number::Unsound);
    }
    if NODES <= current || CLUSTERS <= local {
        return Err(Number::NoSuchPlace);
    }
    if !store::is_width(width) {
        return Err(Number::Field);
    }
    if cluster.active {
        return Err(Number::InUse);
    }
    if handle::same(read, write) {
        return Err(Number::Twins);
    }
    Ok(())
}

// Call 1: a cluster of the current node becomes active with a width and two passwords; its read and its write primary
// handle. The record is that of the place, or the first where there is no such place.
pub fn new_cluster(
    sound: bool,
    cluster: Cluster,
    current: usize,
    local: usize,
    width: usize,
    read: Password,
    write: Password,
) -> Result<Changed, Number>
    ensures { (s : declared.Store) (m : List ℕ) → GivenPlace sound cluster s m current local
        → changed (record_at current local) s m result
        ≡ aes_step (calls.making_cluster current local width read write) (copy_of s m) }
{
    place_refusal(sound, cluster, current, local, width, read, write)?;
    let named = Width::from_bits(width);
    let first = handle::primary_bytes(named, current as u16, local as u8, read);
    let second = handle::primary_bytes(named, current as u16, local as u8, write);
    Ok(Changed {
        cluster: store::started(width as u8, read, write),
        given: Given::Handles(first, second),
    })
}

// Call 7: the handle weakened by a mask, and how many segments it references; the same on every store and memory.
pub fn weaken(handle: Handle, mask: u16) -> Answer
    ensures { (b : List ℕ) (s : declared.Store) (m : List ℕ) → handle ≡ decoded b
        → ended s m result [] ≡ aes_step (calls.weakening_by mask b) (copy_of s m) }
{
    let weaker = handle.weaken(mask)?;
    Ok(Given::Counted(weaker.handle.encode(), weaker.count))
}
