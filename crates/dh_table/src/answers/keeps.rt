//! What a run keeps in the cache.

ghost use Rattle.std.specs.Prelude.{◌≡◌, ℕ, [], IfOk, map};
ghost use Rattle.dh_syntax.specs.Expressions.Tree.{Term};
ghost use Rattle.dh_imports.specs.Keeps.{AreKeeps};
ghost use Rattle.dh_imports.specs.Machine.{root_walk};
ghost use Rattle.dh_imports.specs.Replay.{root_end};
ghost use Rattle.dh_imports.specs.Resolver.{resolve};
ghost use Rattle.dh_imports.specs.Walk.{Ready};
ghost use Rattle.dh_table.specs.Kept.{IsKeeping};
ghost use Rattle.dh_record.specs.Kept.{pair_of};
ghost use Rattle.dh_table.specs.States.{state_of};

use crate::tables::Table;
use dh_demand::{Marks, Next};
use dh_ports::{Cache, World};
use dh_record::{entries_of, least_fresh, mark_visited};
use dh_syntax::{MOST_KEYS, Many};
use std::alloc::{AllocError, Global};

impl<W: World> Table<W> {
    /// The cache entries that the run keeps, by ascending digest: where the root is ready, those of the keys with digests on its
    /// way that were not found in the cache, else none.
    pub fn keeps(&self, alloc: Global) -> Result<Cache, AllocError>
        ensures { IfOk result (λ kept. IsKeeping (state_of self.now) (root_end (state_of self.now)) (map pair_of kept)) }
    {
        if self.keys.len() > MOST_KEYS {
            return Ok(Many::new(alloc));
        }
        match self.root_next() {
            Next::Ready => self.ready_keeps(alloc),
            Next::Fault(_) | Next::Need(_) => Ok(Many::new(alloc)),
        }
    }

    // The cache entries of a run whose root is ready.
    fn ready_keeps(&self, alloc: Global) -> Result<Cache, AllocError>
        requires { (v : Term) × (root_walk (state_of self.now) ≡ Ready v) }
        ensures { IfOk result (λ kept. (n : ℕ) × AreKeeps (state_of self.now).recorded (resolve (state_of self.now).recorded n []) (state_of self.now).root (map pair_of kept)) }
    {
        let len = self.keys.len();
        let mut marks = Marks::of(vec![in alloc; false; len]?);
        let mut seen = Marks::of(vec![in alloc; false; len]?);
        let texts = self.found_texts();
        let looks = self.found_looks();
        mark_visited(
            &self.root, &self.keys, &texts, &looks, &mut marks, &mut seen,
        );
        let found = least_fresh(alloc, &self.keys, &looks, &marks)?;
        entries_of(alloc, &self.keys, found.as_slice())
    }
}
