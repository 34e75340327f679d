// Reduction (document 01) and joining (document 02, §5): both make a handle that holds a set of segments in subselector 0
// alone, with a password from the primary one.
ghost use Rattle.std.specs.Prelude.{◌≡◌};
ghost use Rattle.handle.specs.Selectors as sel;
ghost use Rattle.handle.specs.Handles as spec;
ghost use Rattle.handle.specs.Conversion.{product};

use crate::{Handle, convert_with};
use aes::Tables;
use sizes::Password;

impl Handle {
    // The handle's name and width, with a set of segments in subselector 0 and the password made from the primary one.
    fn made_with(self, tables: &Tables, primary: Password, set: u16) -> Handle
        ensures { result ≡ spec.made (spec.width_of self) (product (spec.name_of self)) self primary set }
    {
        let width = self.width;
        let flat = width.full();
        let password = convert_with(tables, primary, set);
        Handle {
            node: self.node,
            local: self.local,
            password,
            width,
            selector: [set, flat, flat, flat],
        }
    }

    // The handle reduced: the common bits in subselector 0.
    pub fn reduce_with(self, tables: &Tables, primary: Password) -> Handle
        ensures { result ≡ spec.reduced (spec.width_of self) (product (spec.name_of self)) self primary }
    {
        if self.primary() {
            return self;
        }
        let common = self.common();
        self.made_with(tables, primary, common)
    }

    // Whether two handles have the same node and the same local number.
    pub fn same_name(self, other: Handle) -> bool
        ensures { result ≡ spec.same_name self other }
    {
        (self.node() == other.node()) & (self.local == other.local)
    }

    // The bits, of this handle's width, of the segments that it or another references.
    fn either(self, other: Handle) -> u16
        ensures { result ≡ sel.union (spec.width_of self) self.selector other.selector }
    {
        let width = self.width;
        let ours = self.shared();
        let theirs = other.shared();
        (ours | theirs) & width.full()
    }

    // Whether these are all of the width.
    pub fn whole_union(self, other: Handle) -> bool
        ensures { result ≡ sel.whole_union (spec.width_of self) self.selector other.selector }
    {
        let width = self.width;
        let flat = width.full();
        let union = self.either(other);
        union == flat
    }

    // The handle joined with another: the union of what either references in subselector 0.
    pub fn join_with(self, tables: &Tables, other: Handle, primary: Password) -> Handle
        ensures { result ≡ spec.joined (spec.width_of self) (product (spec.name_of self)) self other primary }
    {
        let union = self.either(other);
        self.made_with(tables, primary, union)
    }
}
