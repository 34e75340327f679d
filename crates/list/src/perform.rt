// What the call of a record does.
ghost use Rattle.std.specs.Prelude.{◌≡◌, ℕ, List, [], length};
ghost use Rattle.handle.specs.Handles.{first_of};
ghost use Rattle.calls.specs.Calls as calls;
ghost use Rattle.calls.specs.Answers.{copy_of};
ghost use Rattle.numbers.specs.Codes.{code as number};
ghost use Rattle.list.specs.Records as records;
ghost use Rattle.list.specs.Runs.{bench, left, ran, misfit_rows, performed};

use crate::fields::{MOST_DATA, Record, WIDTH};
use calls::{Answer, Code, Done};
use handle::Handle;
use numbers::Number;
use sizes::{CLUSTERS, NODES};
use store::Store;

// The number of a write whose data length is above 32: 1, 2, or else 3. Its handle has the length of a list's handles.
fn misfit(store: Store, memory: &[u8], bytes: &[u8]) -> Number
    requires { length bytes.now ≡ records.handle_bytes }
    ensures { number result ≡ first_of (misfit_rows (calls.writing 0 bytes.now []) (copy_of store memory.now)) }
{
    let named = Handle::decode(bytes);
    if !store::sound(store, memory.len()) {
        return Number::Unsound;
    }
    if NODES <= named.node() {
        return Number::NoSuchPlace;
    }
    if CLUSTERS <= usize::from(named.local) {
        return Number::NoSuchPlace;
    }
    Number::Field
}

// What is answered by a call that ended so. The records become those that it leaves, where it is done; a refusal leaves them.
fn settle(store: &mut Store, done: Result<Done, Number>) -> Answer
    ensures { (m b : List ℕ) → left store.new result m b ≡ ran store.old done m b }
{
    let done = done?;
    *store = done.store;
    Ok(done.given)
}

// The call of a record. A code that means no call is 3, and nothing else is looked at.
pub fn perform(
    store: &mut Store,
    memory: &mut [u8],
    buffer: &mut [u8],
    called: Record<'_>,
) -> Answer
    ensures { left store.new result memory.new buffer.new ≡ performed called.entry.bytes.now (bench store.old memory.old buffer.old) }
{
    let Ok(code) = Code::try_from(called.code()) else {
        return Err(Number::Field);
    };
    let handle = called.handle();
    let done = match code {
        Code::NewCluster => guard::new_cluster(
            *store,
            memory,
            called.current(),
            called.entry(),
            WIDTH,
            called.first(),
            called.second(),
        ),
        Code::DeleteCluster => guard::delete_cluster(*store, memory, called.current(), handle),
        Code::NewSegment => guard::new_segment(
            *store,
            memory,
            called.current(),
            called.entry(),
            called.size(),
            handle,
        ),
        Code::DeleteSegment => guard::delete_segment(
            *store,
            memory,
            called.current(),
            called.entry(),
            handle,
        ),
        Code::Read => return guard::read(*store, memory, buffer, called.entry(), handle),
        Code::Write => {
            if MOST_DATA < called.data_length() {
                return Err(misfit(*store, memory, handle));
            }
            return guard::write(*store, memory, called.entry(), handle, called.data());
        }
        Code::Weaken => return guard::weaken(handle, called.mask()),
        Code::Reduce => return guard::reduce(*store, memory, called.mode(), handle),
        Code::NewPassword => {
            guard::new_password(*store, memory, called.mode(), handle, called.first())
        }
        Code::Freeze => guard::freeze(*store, memory, called.current(), called.entry(), handle),
        Code::Join => {
            return guard::join(*store, memory, called.mode(), handle, called.other());
        }
    };
    settle(store, done)
}
