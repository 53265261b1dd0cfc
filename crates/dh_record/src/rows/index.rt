//! Numbers in the order of what they stand for, so that one is found in few steps.

ghost use Rattle.std.specs.Prelude.{◌≡◌, ◌<◌, ◌≤◌, ◌+◌, ◌++◌, ◌∷◌, [], ℕ, All, List, None, length, take, vec_len, vec_capacity, OnOk};
ghost use Rattle.dh_record.specs.Sorting.{Ascends, Rank, IsOrder, IsPlace, IsRanked};

use std::alloc::{AllocError, Global};

/// What is looked for among things that have numbers. Each of them has a rank, by which it is ordered.
pub trait Probe {
    ghost use Rattle.std.specs.Prelude.{◌≡◌, ◌<◌, List, length};
    ghost use Rattle.dh_syntax.specs.Imports.Keys.{texts_before};
    ghost use Rattle.dh_record.specs.Sorting.{Rank, rank_at};

    // the ranks of the things, by their numbers
    ghost ranks: { Self → List Rank };

    // the rank of what is looked for
    ghost sought: { Self → Rank };

    /// Whether what is looked for comes behind the thing of this number.
    fn is_behind(&self, n: u32) -> bool
        requires { n < length (ranks self.now) }
        ensures { result ≡ texts_before (rank_at (ranks self.now) n) (sought self.now) };

    /// Whether what is looked for comes before the thing of this number.
    fn is_before(&self, n: u32) -> bool
        requires { n < length (ranks self.now) }
        ensures { result ≡ texts_before (sought self.now) (rank_at (ranks self.now) n) };
}

/// Numbers in the order of what they stand for.
#[derive(Debug, Drop)]
pub struct Order {
    pub numbers: Vec<u32>,
}

/// The first place whose number is not of a thing before what is looked for.
pub fn place_in<P: Probe>(numbers: &[u32], probe: &P) -> usize
    requires inside { All (λ (n : ℕ). n < length (P.ranks probe.now)) numbers.now }
    requires ascends { Ascends (P.ranks probe.now) numbers.now }
    ensures { IsPlace (P.ranks probe.now) (P.sought probe.now) numbers.now result }
{
    let mut low = 0;
    let mut high = numbers.len();
    while low < high {
        let middle = low + (high - low) / 2;
        if probe.is_behind(numbers[middle]) {
            low = middle + 1;
        } else {
            high = middle;
        }
    }
    low
}

impl Order {
    /// No numbers. It takes no memory.
    pub fn new(alloc: Global) -> Order
        ensures { IsOrder [] result.numbers.items }
    {
        Order {
            numbers: Vec::new(alloc),
        }
    }

    /// The number of what is looked for.
    pub fn find<P: Probe>(&self, probe: &P) -> Option<u32>
        requires { IsOrder (P.ranks probe.now) self.now.numbers.items }
        ensures { IsRanked (P.ranks probe.now) (P.sought probe.now) result }
    {
        let numbers = self.numbers.as_slice();
        let place = place_in(numbers, probe);
        if place >= numbers.len() {
            return None;
        }
        let number = numbers[place];
        if probe.is_before(number) {
            None
        } else {
            Some(number)
        }
    }

    /// Makes room for one more number.
    pub fn reserve(&mut self) -> Result<(), AllocError>
        ensures same { self.new.numbers.items ≡ self.old.numbers.items }
        ensures room { OnOk result (vec_len self.new.numbers < vec_capacity self.new.numbers) }
    {
        self.numbers.reserve(1)?;
        Ok(())
    }

    /// Adds the number of what is looked for, as the last thing.
    pub fn insert<P: Probe>(&mut self, probe: &P, number: u32)
        requires order { IsOrder (P.ranks probe.now) self.old.numbers.items }
        requires next { number ≡ length (P.ranks probe.now) }
        requires new { IsRanked (P.ranks probe.now) (P.sought probe.now) None }
        requires room { vec_len self.old.numbers < vec_capacity self.old.numbers }
        ensures { IsOrder (P.ranks probe.now ++ P.sought probe.now ∷ []) self.new.numbers.items }
    {
        let place = place_in(self.numbers.as_slice(), probe);
        let Ok(()) = self.numbers.insert(place, number) else {
            unreachable!()
        };
    }

    /// Keeps the numbers of the first things alone.
    pub fn truncate(&mut self, len: usize)
        ensures { (ranks : List Rank) → IsOrder ranks self.old.numbers.items → IsOrder (take len ranks) self.new.numbers.items }
    {
        self.numbers.retain(|n| (*n as usize) < len);
    }
}
