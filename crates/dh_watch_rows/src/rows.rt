//! The rows of what is kept.

ghost use Rattle.std.specs.Prelude.{◌≡◌, ◌<◌, length, is_some, IfOk};
ghost use Rattle.dh_imports.specs.Machine.{IsDue};
ghost use Rattle.dh_record.specs.Due.{IsItem};
ghost use Rattle.dh_record.specs.Reading.{IsReach};
ghost use Rattle.dh_record.specs.Rows.{key_named, rows_of};
ghost use Rattle.dh_record.specs.Values.{IsFit};
ghost use Rattle.dh_record.specs.Ways.{IsWay};
ghost use Rattle.dh_watch_laws.specs.Kept.{known, nothing_kept};
ghost use Rattle.dh_watch_laws.specs.Running.{stage_at};
ghost use Rattle.dh_watch_rows.specs.KeptRows.{IsGood, kept_of};

use dh_demand::{Headway, Results};
use dh_record::{Entrants, Item, Look, Looks, Order, Reach, Text, Texts, due_item, look_on};
use std::alloc::{AllocError, Global};

/// The keys with their outcomes, the texts and the looks, by their numbers.
#[derive(Debug)]
pub struct Rows {
    pub(crate) keys: Entrants,
    pub(crate) texts: Vec<Text>,
    pub(crate) looks: Vec<Look>,
    // the numbers of the texts and of the looks, in the order of their locations and digests
    pub(crate) text_order: Order,
    pub(crate) look_order: Order,
    // the numbers of the keys that have outcomes, in the order in which these were found
    pub(crate) found: Vec<u32>,
    // of these, the numbers of those that were decided by a limit
    pub(crate) limited: Vec<u32>,
}

// Written by hand: a derived one puts the drop of each field inline wherever rows may die.
impl Drop for Rows {
    fn drop(self) {
        let Rows {
            keys: _,
            texts: _,
            looks: _,
            text_order: _,
            look_order: _,
            found: _,
            limited: _,
        } = self;
    }
}

impl Rows {
    /// Nothing is kept. It takes no memory.
    pub fn new(alloc: Global) -> Rows
        ensures nothing { kept_of result ≡ nothing_kept }
        ensures good { IsGood result }
    {
        Rows {
            keys: Entrants::new(alloc),
            texts: Vec::new(alloc),
            looks: Vec::new(alloc),
            text_order: Order::new(alloc),
            look_order: Order::new(alloc),
            found: Vec::new(alloc),
            limited: Vec::new(alloc),
        }
    }

    // The recorded texts, with their order.
    pub(crate) fn found_texts(&self) -> Texts<'_>
        requires { IsGood self.now }
        ensures { result ≡ self.now.texts.items }
    {
        Texts::of(self.texts.as_slice(), &self.text_order)
    }

    // The recorded looks, with their order.
    pub(crate) fn found_looks(&self) -> Looks<'_>
        requires { IsGood self.now }
        ensures { result ≡ self.now.looks.items }
    {
        Looks::of(self.looks.as_slice(), &self.look_order)
    }

    /// How many texts are kept.
    pub fn text_count(&self) -> usize
        ensures { result ≡ length (kept_of self.now).recorded.texts }
    {
        self.texts.len()
    }

    /// What is left to do for the key of this number, where the walk of its text is known to come so far; and how far it comes then.
    pub fn reach(&self, n: u32, way: Headway) -> (Reach, Headway)
        requires good { IsGood self.now }
        requires inside { n < length self.now.keys }
        requires way { IsWay (kept_of self.now).recorded (known (kept_of self.now).outcomes) (key_named self.now.keys n) way }
        ensures reach { IsReach (rows_of self.now.keys) (key_named self.now.keys n) (stage_at (kept_of self.now) (key_named self.now.keys n)) result.0 }
        ensures way { IsWay (kept_of self.now).recorded (known (kept_of self.now).outcomes) (key_named self.now.keys n) result.1 }
    {
        let texts = self.found_texts();
        let looks = self.found_looks();
        look_on(&self.keys, &texts, &looks, n, way)
    }

    /// The item of the key of this number, whose last step is due.
    pub fn item(&self, alloc: Global, n: u32) -> Result<Item, AllocError>
        requires good { IsGood self.now }
        requires inside { n < length self.now.keys }
        requires due { IsDue (stage_at (kept_of self.now) (key_named self.now.keys n)) }
        ensures item { IfOk result (IsItem (key_named self.now.keys n) (stage_at (kept_of self.now) (key_named self.now.keys n))) }
        ensures fits { IfOk result (λ i. IsFit i.body) }
    {
        let texts = self.found_texts();
        let looks = self.found_looks();
        due_item(alloc, &self.keys, &texts, &looks, n)
    }

    /// Whether the key of this number has an outcome.
    pub fn is_known(&self, n: u32) -> bool
        requires good { IsGood self.now }
        requires inside { n < length self.now.keys }
        ensures { result ≡ is_some (known (kept_of self.now).outcomes (key_named self.now.keys n)) }
    {
        self.keys.outcome(n).is_some()
    }
}
