//! Room for a search and for a loop, so that a claim takes no memory.

ghost use Rattle.std.specs.Prelude.{◌≡◌, ◌≤◌, ℕ, false, length, IfOk, OnOk};
ghost use Rattle.dh_table.specs.Inside.Searching.{IsSameKnown};
ghost use Rattle.dh_table.specs.Tables.{IsRoomy};

use crate::search::{Explored, mark_all};
use dh_demand::Marks;
use std::alloc::{AllocError, Global};

/// What earlier searches found, marks of keys, and a list of keys.
#[derive(Debug, Drop)]
pub(crate) struct Scratch {
    pub explored: Explored,
    pub seen: Marks,
    pub trail: Vec<u32>,
}

impl Scratch {
    /// Room for so many keys, of which nothing is known.
    pub fn for_keys(alloc: Global, keys: usize) -> Result<Scratch, AllocError>
        ensures room { IfOk result (λ s. IsRoomy keys s) }
        ensures unknown { IfOk result (λ s. s.explored.known ≡ false) }
    {
        let explored = Explored::for_keys(alloc, keys)?;
        let seen = Marks::of(vec![in alloc; false; keys]?);
        let trail = Vec::with_capacity(alloc, keys)?;
        Ok(Scratch {
            explored,
            seen,
            trail,
        })
    }

    /// Makes room for so many keys. Where memory is wanting, there is room for as many as before.
    pub fn grow(&mut self, keys: usize) -> Result<(), AllocError>
        ensures roomy { (n : ℕ) → IsRoomy n self.old → OnOk result (IsRoomy keys self.new) }
        ensures kept { (n : ℕ) → IsRoomy n self.old → IsRoomy n self.new }
        ensures same { IsSameKnown self.old.explored self.new.explored }
    {
        self.explored.grow(keys)?;
        self.trail.clear();
        self.trail.reserve(keys)?;
        mark_all(&mut self.seen, keys)?;
        Ok(())
    }
}
