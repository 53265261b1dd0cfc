//! What was found for pairs of numbers.

ghost use Rattle.std.specs.Prelude.{◌≡◌, ℕ, ◌&&◌, nat_eq, Some, None, OnOk, if◌then◌else◌};
ghost use Rattle.dh_types.specs.Memos.{entry};

use std::alloc::{AllocError, Global};
use std::collections::HashMap;

/// What was found for pairs of numbers.
#[derive(Drop)]
pub struct Memo<V: Copy> {
    pub(crate) found: HashMap<(u32, u32), V>,
}

impl<V: Copy> Memo<V> {
    #[tactic(auto, unfolding(crate::specs::Memos::entry))]
    pub fn new(alloc: Global) -> Memo<V>
        ensures { (a b : ℕ) → entry result a b ≡ None }
    {
        Memo {
            found: HashMap::new(alloc),
        }
    }

    /// What was found for two numbers.
    #[tactic(auto, unfolding(crate::specs::Memos::entry))]
    pub fn get(&self, a: u32, b: u32) -> Option<V>
        ensures { result ≡ entry self.now a b }
    {
        self.found.get(&(a, b)).copied()
    }

    /// Keeps what was found for two numbers.
    pub fn put(&mut self, a: u32, b: u32, value: V) -> Result<(), AllocError>
        ensures { OnOk result ((c d : ℕ) → entry self.new c d ≡ (if nat_eq a c && nat_eq b d then Some value else entry self.old c d)) }
    {
        match self.found.insert((a, b), value) {
            Ok(_) => Ok(()),
            Err(_) => Err(AllocError),
        }
    }
}
