//! The order of locations, so that what stands at one is found in few steps in a map.

ghost use Rattle.std.specs.Prelude.{◌≡◌, refl, IfOk};
ghost use Rattle.std.specs.Cmp.{eq_by_cmp_equiv, partial_equiv_from_equiv, partial_order_from_total};
ghost use Rattle.std.specs.Ordering.{as_partial_cmp, eq_by_cmp};
ghost use Rattle.dh_watch_files.specs.OrderedLocs.{ordered_cmp, ordered_total};

use dh_record::is_loc_before;
use dh_syntax::Loc;
use std::alloc::{AllocError, Global};
use std::cmp::Ordering;

/// A location as a key of a map, in the order of the parts of locations.
#[derive(Debug)]
pub struct OrderedLoc {
    pub loc: Loc,
}

// Written by hand: a derived one puts the drop of the location inline wherever one may die.
impl Drop for OrderedLoc {
    fn drop(self) {
        let OrderedLoc { loc: _ } = self;
    }
}

impl OrderedLoc {
    /// A copy of a location, as such a key.
    pub fn copied(alloc: Global, loc: &Loc) -> Result<OrderedLoc, AllocError>
        ensures { IfOk result (λ key. key.loc ≡ loc.now) }
    {
        Ok(OrderedLoc {
            loc: loc.copied(alloc)?,
        })
    }
}

impl PartialEq for OrderedLoc {
    ghost eq = { eq_by_cmp ordered_cmp };

    ghost laws = { partial_equiv_from_equiv (eq_by_cmp_equiv ordered_total) };

    fn eq(&self, other: &OrderedLoc) -> bool {
        self.cmp(other).is_eq()
    }
}

impl Eq for OrderedLoc {
    ghost laws = { eq_by_cmp_equiv ordered_total };
}

impl PartialOrd for OrderedLoc {
    ghost partial_cmp = { as_partial_cmp ordered_cmp };

    ghost laws = { partial_order_from_total ordered_total };

    fn partial_cmp(&self, other: &OrderedLoc) -> Option<Ordering> {
        Some(self.cmp(other))
    }
}

impl Ord for OrderedLoc {
    ghost cmp = { ordered_cmp };

    ghost total = { ordered_total };

    ghost matches_partial_cmp = { λ a b. refl };

    ghost matches_eq = { λ a b. refl };

    fn cmp(&self, other: &OrderedLoc) -> Ordering {
        if is_loc_before(&self.loc, &other.loc) {
            return Ordering::Less;
        }
        if is_loc_before(&other.loc, &self.loc) {
            return Ordering::Greater;
        }
        Ordering::Equal
    }
}
