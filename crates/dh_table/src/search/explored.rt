//! What searches have found so far, so that the next one looks only at what has changed.

ghost use Rattle.std.specs.Prelude.{◌≡◌, ◌<◌, ◌≤◌, ◌+◌, ℕ, true, false, length, max, replicate, IfOk, OnOk};
ghost use Rattle.dh_table.specs.Inside.Piling.{IsPoured, number_at};
ghost use Rattle.dh_record.specs.Marks.{is_set};
ghost use Rattle.dh_table.specs.Inside.Searching.{HasRoom, IsSameKnown};

use crate::search::{Piles, pour};
use dh_demand::Marks;
use std::alloc::{AllocError, Global};

/// The pile of the keys to look at next.
pub(crate) const READY: usize = 2;

/// The pile of the keys whose task was seen in flight.
pub(crate) const HELD: usize = 3;

/// The pile of the keys that wait for one.
pub(crate) fn waiters(n: u32) -> usize
    ensures { result ≡ n + 4 }
{
    n as usize + 4
}

/// The keys that were found to be wanted, each on a pile: of those to look at, of those in flight, or of those that wait for
/// one key. The marks are those of the text that was walked last.
#[derive(Debug, Drop)]
pub(crate) struct Explored {
    /// Whether the piles are true of the table as it stands.
    pub known: bool,
    pub marks: Marks,
    pub piles: Piles,
}

impl Explored {
    /// Nothing is known, and there is room for so many keys.
    pub fn for_keys(alloc: Global, keys: usize) -> Result<Explored, AllocError>
        ensures unknown { IfOk result (λ e. e.known ≡ false) }
        ensures room { IfOk result (λ e. HasRoom keys e) }
    {
        let marks = Marks::of(vec![in alloc; false; keys]?);
        let mut piles = Piles::new(alloc)?;
        pile_all(&mut piles, keys)?;
        Ok(Explored {
            known: false,
            marks,
            piles,
        })
    }

    /// Makes room for so many keys. Where memory is wanting, there is room for as many as before.
    pub fn grow(&mut self, keys: usize) -> Result<(), AllocError>
        ensures same { IsSameKnown self.old self.new }
        ensures room { OnOk result (HasRoom keys self.new) }
        ensures kept { (n : ℕ) → HasRoom n self.old → HasRoom n self.new }
    {
        mark_all(&mut self.marks, keys)?;
        pile_all(&mut self.piles, keys)?;
        Ok(())
    }

    /// Begins anew: no key is on a pile.
    pub fn clear(&mut self)
        ensures known { self.new.known ≡ true }
        ensures marks { self.new.marks ≡ self.old.marks }
        ensures piles { self.new.piles ≡ replicate (length self.old.piles) 0 }
    {
        self.piles.clear();
        self.known = true;
    }

    /// The key of this number is decided: those that wait for it are to be looked at. Where not every text may read its value,
    /// nothing is known from then on.
    pub fn free(&mut self, n: u32, passes: bool)
        requires { n < length self.old.piles }
        ensures known { self.new.known ≡ true → self.old.known ≡ true }
        ensures passes { self.new.known ≡ true → passes ≡ true }
        ensures poured { IsPoured (n + 4) 2 self.old.piles self.new.piles }
        ensures room { (keys : ℕ) → HasRoom keys self.old → HasRoom keys self.new }
    {
        self.known = self.known && passes;
        pour(&mut self.piles, waiters(n), READY);
    }
}

/// Adds marks, so that there are at least so many.
pub(crate) fn mark_all(marks: &mut Marks, len: usize) -> Result<(), AllocError>
    ensures enough { OnOk result (len ≤ length marks.new) }
    ensures more { length marks.old ≤ length marks.new }
    ensures most { length marks.new ≤ max (length marks.old) len }
    ensures same { (n : ℕ) → is_set marks.new n ≡ is_set marks.old n }
{
    while marks.len() < len {
        marks.push(false)?;
    }
    Ok(())
}

// Adds keys on no pile, so that there are at least so many.
fn pile_all(piles: &mut Piles, len: usize) -> Result<(), AllocError>
    ensures enough { OnOk result (len ≤ length piles.new) }
    ensures more { length piles.old ≤ length piles.new }
    ensures same { (n : ℕ) → number_at piles.new n ≡ number_at piles.old n }
{
    while piles.len() < len {
        piles.add()?;
    }
    Ok(())
}
