// The refusals of a join, which takes two handles: what the table says of a handle is asked of either.
ghost use Rattle.std.specs.Prelude.{◌≡◌};
ghost use Rattle.numbers.specs.Codes.{told};
ghost use Rattle.handle.specs.Handles.{first_of};
ghost use Rattle.refusals.specs.Rows.{join_rows};

use crate::{Opened, bad_mode, no_such_place};
use aes::Tables;
use handle::Handle;
use numbers::Number;

impl Opened {
    // The first refusal of a join that applies: of two handles and the record of the first one's cluster, which is the second
    // one's too where the names do not differ.
    pub fn pair_refusal(&self, tables: &Tables, other: Handle, mode: usize) -> Result<(), Number>
        ensures { told result ≡ first_of (join_rows self.now.sound self.now.handle other self.now.cluster mode) }
    {
        let handle = self.handle;
        if handle.has_width(0) || other.has_width(0) {
            return Err(Number::Length);
        }
        if !self.sound {
            return Err(Number::Unsound);
        }
        if no_such_place(handle) || no_such_place(other) {
            return Err(Number::NoSuchPlace);
        }
        if bad_mode(mode) {
            return Err(Number::Field);
        }
        if handle.gapped() || other.gapped() {
            return Err(Number::Gapped);
        }
        if !handle.same_name(other) {
            return Err(Number::Apart);
        }
        if !self.cluster.active {
            return Err(Number::Inactive);
        }
        let width = self.cluster.width;
        if !handle.has_width(width) || !other.has_width(width) {
            return Err(Number::Length);
        }
        let password = store::primary(self.cluster, mode);
        if !handle.validates_with(tables, password) {
            return Err(Number::Violated);
        }
        if !other.validates_with(tables, password) {
            return Err(Number::Violated);
        }
        if handle.whole_union(other) {
            return Err(Number::Whole);
        }
        Ok(())
    }
}
