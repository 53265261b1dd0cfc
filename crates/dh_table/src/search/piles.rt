//! Piles of keys, each key on one pile at most.

ghost use Rattle.std.specs.Prelude.{◌≡◌, ◌<◌, ◌≤◌, ◌+◌, ◌++◌, ◌∷◌, [], ℕ, length, replicate, slice_set, IfOk, OnOk, OnErr, MatchBool, MatchOption};
ghost use Rattle.dh_table.specs.Inside.Piling.{IsBare, IsPoured, number_at};

use std::alloc::{AllocError, Global};
use std::marker::Model;

/// For each key the number of its pile: 0 where it was on none yet, and 1 where it was taken from one.
#[derive(Debug, Drop)]
pub(crate) struct Piles {
    places: Vec<usize>,
    // for each pile the key on top, and for each key the one below it: its number and one more, or 0 for none
    tops: Vec<usize>,
    below: Vec<usize>,
}

impl Model for Piles {
    ghost use Rattle.std.specs.Prelude.{List, ℕ};
    ghost use Rattle.dh_table.specs.Inside.Piling.{ArePiled};

    ghost Value = { List ℕ };

    ghost view = { λ p. p.places.items };

    ghost invariant = { λ p. ArePiled p.places.items p.tops.items p.below.items };
}

impl Piles {
    /// Piles of no keys.
    pub fn new(alloc: Global) -> Result<Piles, AllocError>
        ensures { IfOk result (λ p. p ≡ []) }
    {
        Ok(Piles {
            places: Vec::new(alloc),
            tops: vec![in alloc; 0; 4]?,
            below: Vec::new(alloc),
        })
    }

    /// How many keys there is room for.
    pub fn len(&self) -> usize
        ensures { result ≡ length self.now }
    {
        self.places.len()
    }

    /// Makes room for one more key and its pile. Where memory is wanting the piles stay as they were.
    pub fn add(&mut self) -> Result<(), AllocError>
        ensures ok { OnOk result (self.new ≡ self.old ++ 0 ∷ []) }
        ensures err { OnErr result (self.new ≡ self.old) }
    {
        self.tops.push(0)?;
        self.below.push(0)?;
        self.places.push(0)?;
        Ok(())
    }

    /// Takes every key from its pile, as if it had been on none.
    pub fn clear(&mut self)
        ensures { self.new ≡ replicate (length self.old) 0 }
    {
        self.places.fill(0);
        self.tops.fill(0);
    }

    /// Whether a key was on no pile yet.
    pub fn is_new(&self, n: u32) -> bool
        requires { n < length self.now }
        ensures { MatchBool result (number_at self.now n ≡ 0) (¬ (number_at self.now n ≡ 0)) }
    {
        self.places[n as usize] == 0
    }

    /// Puts a key that is on no pile on one.
    pub fn push(&mut self, pile: usize, n: usize)
        requires pile { 2 ≤ pile }
        requires inside { pile < length self.old + 4 }
        requires key { n < length self.old }
        requires free { number_at self.old n < 2 }
        ensures { self.new ≡ slice_set self.old n pile }
    {
        self.below[n] = self.tops[pile];
        self.tops[pile] = n + 1;
        self.places[n] = pile;
    }

    /// Takes the key on top of a pile; `None` exactly where there is none.
    pub fn pop(&mut self, pile: usize) -> Option<usize>
        requires pile { 2 ≤ pile }
        requires inside { pile < length self.old + 4 }
        ensures { MatchOption result (IsBare pile self.old × (self.new ≡ self.old)) (λ n. (number_at self.old n ≡ pile) × (self.new ≡ slice_set self.old n 1)) }
    {
        let top = self.tops[pile];
        if top == 0 {
            return None;
        }
        let n = top - 1;
        self.tops[pile] = self.below[n];
        self.places[n] = 1;
        Some(n)
    }
}

/// Puts the keys of a pile on another.
pub(crate) fn pour(piles: &mut Piles, from: usize, to: usize)
    requires from { 2 ≤ from }
    requires from_inside { from < length piles.old + 4 }
    requires to { 2 ≤ to }
    requires to_inside { to < length piles.old + 4 }
    requires other { ¬ (to ≡ from) }
    ensures poured { IsPoured from to piles.old piles.new }
    ensures len { length piles.new ≡ length piles.old }
{
    'keys: loop {
        match piles.pop(from) {
            Some(n) => piles.push(to, n),
            None => return,
        }
    }
}
