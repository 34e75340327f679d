// Weakening (document 01, document 02, §1 and §8): the handle with a parameter in its first flat subselector, and what it is
// refused with. The store plays no part.
ghost use Rattle.std.specs.Prelude.{◌≡◌, ◌-◌, ◌≤◌, ◌<◌, Ok};
ghost use Rattle.bits.specs.Sets.{full};
ghost use Rattle.numbers.specs.Codes.{told};
ghost use Rattle.handle.specs.Sizes.{subselectors};
ghost use Rattle.handle.specs.Selectors as sel;
ghost use Rattle.handle.specs.Handles as spec;
ghost use Rattle.handle.specs.Conversion.{product};

use crate::{Handle, Weaker, convert_with};
use aes::Tables;
use numbers::Number;
use sizes::{CLUSTERS, NODES};

// A weakening done: the handle, and how many segments it references.
fn done(handle: Handle) -> Weaker
    ensures { spec.reply_of (Ok result) ≡ spec.reply 0 handle (sel.referenced (spec.width_of handle) handle.selector) }
{
    let count = handle.count();
    Weaker { handle, count }
}

impl Handle {
    // The refusal by what the handle is, whatever the mask: none of the three lengths, no such place, gapped.
    fn standing(self) -> Result<(), Number>
        ensures { told result ≡ spec.first_of (spec.own_rows (spec.width_of self) self) }
    {
        let width = self.width;
        if width.bits() == 0 {
            return Err(Number::Length);
        }
        if NODES <= self.node() {
            return Err(Number::NoSuchPlace);
        }
        if CLUSTERS <= self.local as usize {
            return Err(Number::NoSuchPlace);
        }
        if self.gapped() {
            return Err(Number::Gapped);
        }
        Ok(())
    }

    // The handle with the parameter in one of its subselectors, all bits of the width less those of the excluded segments;
    // and its password through the conversion of the parameter.
    fn cut_with(self, tables: &Tables, place: usize, excluded: u16) -> Handle
        requires place_lt_subselectors { place < subselectors }
        requires excluded_bound { excluded ≤ full (spec.width_of self) }
        ensures { result ≡ spec.cut (product (spec.name_of self)) self place (full (spec.width_of self) - excluded) }
    {
        let width = self.width;
        let parameter = width.full() - excluded;
        let old = self.password;
        let password = convert_with(tables, old, parameter);
        let mut selector = self.selector;
        selector[place] = parameter;
        Handle {
            node: self.node,
            local: self.local,
            password,
            width,
            selector,
        }
    }

    // The handle weakened by a mask, and how many segments the new one references. The store plays no part.
    pub fn weaken_with(self, tables: &Tables, mask: u16) -> Result<Weaker, Number>
        ensures { spec.reply_of result ≡ spec.weakening (spec.width_of self) (product (spec.name_of self)) self mask }
    {
        self.standing()?;
        let common = self.common();
        let kept = common & mask;
        if kept == 0 {
            return Err(Number::Empty);
        }
        let excluded = common & !mask;
        if excluded == 0 {
            return Ok(done(self));
        }
        let Some(place) = self.first_flat() else {
            return Err(Number::Spent);
        };
        let weaker = self.cut_with(tables, place, excluded);
        Ok(done(weaker))
    }

    // The same, with the tables taken for this one call.
    pub fn weaken(self, mask: u16) -> Result<Weaker, Number>
        ensures { spec.reply_of result ≡ spec.weakening (spec.width_of self) (product (spec.name_of self)) self mask }
    {
        let tables = aes::Tables::new();
        self.weaken_with(&tables, mask)
    }
}
