// The calls that change a cluster's record and no byte of the memory.
ghost use Rattle.std.specs.Prelude.{◌≡◌, List, ℕ};
ghost use Rattle.numbers.specs.Codes.{told};
ghost use Rattle.store.specs.declared.Store as declared;
ghost use Rattle.calls.specs.Calls as calls;
ghost use Rattle.calls.specs.Steps.{aes_step};
ghost use Rattle.calls.specs.Answers.{copy_of, changed};
ghost use Rattle.refusals.specs.Given.{OpenedFrom, record_found};
ghost use Rattle.cluster.specs.inner.Owns.{own_segment};

use calls::{Changed, Given};
use numbers::Number;
use refusals::{Opened, bad_mode};
use sizes::Password;

// Call 2: the cluster's record becomes that of the starting store, unless a segment of it is frozen.
pub fn delete_cluster(opened: &Opened, current: usize) -> Result<Changed, Number>
    ensures { (s : declared.Store) (m b : List ℕ) → OpenedFrom opened.now s m b
        → changed (record_found opened.now.handle) s m result ≡ aes_step (calls.deleting_cluster current b) (copy_of s m) }
{
    opened.owner_refusal(current, false)?;
    if !store::none_frozen(opened.cluster) {
        return Err(Number::Frozen);
    }
    Ok(Changed {
        cluster: store::inactive_cluster(),
        given: Given::Nothing,
    })
}

// The first refusal that calls 4 and 10 share and that applies: those of a cluster's owner, then 14.
fn own_segment(opened: &Opened, current: usize, segment: usize) -> Result<(), Number>
    ensures { told result ≡ own_segment opened.now.sound opened.now.handle opened.now.cluster current segment }
{
    opened.owner_refusal(current, opened.handle.beyond(segment))?;
    if store::place_of(opened.cluster, segment).is_none() {
        return Err(Number::Absent);
    }
    Ok(())
}

// Call 4: the segment is absent, unless it is frozen; memory bytes stay.
pub fn delete_segment(opened: &Opened, current: usize, segment: usize) -> Result<Changed, Number>
    ensures { (s : declared.Store) (m b : List ℕ) → OpenedFrom opened.now s m b
        → changed (record_found opened.now.handle) s m result ≡ aes_step (calls.deleting_segment current segment b) (copy_of s m) }
{
    own_segment(opened, current, segment)?;
    if store::frozen_of(opened.cluster, segment) {
        return Err(Number::Frozen);
    }
    Ok(Changed {
        cluster: store::with_place(opened.cluster, segment, None),
        given: Given::Nothing,
    })
}

// Call 9: the primary password of the mode named becomes the new one; the new primary handle. The other mode's password
// is not looked at.
pub fn new_password(opened: &Opened, mode: usize, password: Password) -> Result<Changed, Number>
    ensures { (s : declared.Store) (m b : List ℕ) → OpenedFrom opened.now s m b
        → changed (record_found opened.now.handle) s m result ≡ aes_step (calls.renewing mode b password) (copy_of s m) }
{
    let tables = aes::Tables::new();
    let handle = opened.handle;
    opened.first_refusal(&tables, false, bad_mode(mode), false, mode)?;
    if !handle.primary() {
        return Err(Number::NotPrimary);
    }
    let current = store::primary(opened.cluster, mode);
    if handle::same(password, current) {
        return Err(Number::OldPassword);
    }
    let primary = handle::primary_bytes(handle.width, handle.node, handle.local, password);
    Ok(Changed {
        cluster: store::with_password(opened.cluster, mode, password),
        given: Given::Handle(primary),
    })
}

// Call 10: the segment is frozen where it lies; one that is frozen already stays so.
pub fn freeze(opened: &Opened, current: usize, segment: usize) -> Result<Changed, Number>
    ensures { (s : declared.Store) (m b : List ℕ) → OpenedFrom opened.now s m b
        → changed (record_found opened.now.handle) s m result ≡ aes_step (calls.freezing current segment b) (copy_of s m) }
{
    own_segment(opened, current, segment)?;
    Ok(Changed {
        cluster: store::with_mark(opened.cluster, segment),
        given: Given::Nothing,
    })
}
