// The refusals that calls share, by what their tests look at: 25 in its two places, 1 to 5, 8 and 9 of the calls that open a
// cluster by a handle, and 10 of those that need the write primary handle on its own node; and those of a join, which takes two.
#![tactic(auto)]

mod pair; // pair.rt: the refusals of a join

ghost use Rattle.std.specs.Prelude.{◌≡◌};
ghost use Rattle.numbers.specs.Codes.{told};
ghost use Rattle.handle.specs.Handles.{first_of, no_such_place};
ghost use Rattle.refusals.specs.Rows as rows;

use aes::Tables;
use handle::Handle;
use numbers::Number;
use sizes::{CLUSTERS, NODES};
use store::{Cluster, READ_MODE, WRITE_MODE};

// What opens a cluster, and what it opens: whether the store is sound, the handle, and the record of the cluster that the
// handle names; the first record where it names none.
// Stays: `sound` is no `Option` around the rest, since 25 comes before 1: an unsound store's handle is looked at first.
#[derive(Clone, Copy)]
pub struct Opened {
    pub sound: bool,
    pub handle: Handle,
    pub cluster: Cluster,
}

// Stays: a mode is a number here and no enum, since `first_refusal` and `store::primary` promise what each number gives, and an
// enum of the two modes would ask more of a caller.
pub fn bad_mode(mode: usize) -> bool
    ensures { result ≡ rows.bad_modes mode }
{
    mode != READ_MODE && mode != WRITE_MODE
}

fn no_such_place(handle: Handle) -> bool
    ensures { result ≡ no_such_place handle }
{
    NODES <= handle.node() || CLUSTERS <= handle.local as usize
}

impl Opened {
    // The first of the shared refusals that applies, where `far`, `field` and `away` tell whether the call's other places, its
    // fields and its current node are bad.
    pub fn first_refusal(
        &self,
        tables: &Tables,
        far: bool,
        field: bool,
        away: bool,
        mode: usize,
    ) -> Result<(), Number>
        ensures { told result ≡ first_of (rows.shared_rows self.now.sound self.now.handle self.now.cluster far field away mode) }
    {
        let handle = self.handle;
        if handle.has_width(0) {
            return Err(Number::Length);
        }
        if !self.sound {
            return Err(Number::Unsound);
        }
        if no_such_place(handle) || far {
            return Err(Number::NoSuchPlace);
        }
        if field {
            return Err(Number::Field);
        }
        if handle.gapped() {
            return Err(Number::Gapped);
        }
        if away {
            return Err(Number::Elsewhere);
        }
        if !self.cluster.active {
            return Err(Number::Inactive);
        }
        if !handle.has_width(self.cluster.width) {
            return Err(Number::Length);
        }
        let password = store::primary(self.cluster, mode);
        if !handle.validates_with(tables, password) {
            return Err(Number::Violated);
        }
        Ok(())
    }

    // The first of the refusals that calls 2, 3, 4 and 10 share: those above for the write mode and a current node, and 10.
    #[tactic(auto, unfolding(crate::specs::Rows::owner_rows))]
    pub fn owner_refusal(&self, current: usize, field: bool) -> Result<(), Number>
        ensures { told result ≡ first_of (rows.owner_rows self.now.sound self.now.handle self.now.cluster current field) }
    {
        let tables = aes::Tables::new();
        let away = current != self.handle.node();
        self.first_refusal(&tables, NODES <= current, field, away, WRITE_MODE)?;
        if !self.handle.primary() {
            return Err(Number::NotPrimary);
        }
        Ok(())
    }
}
