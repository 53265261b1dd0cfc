//! The keys of a table, by their numbers.

ghost use Rattle.std.specs.Prelude.{◌≡◌, ◌<◌, ◌++◌, ◌∷◌, ◌^◌, [], None, length, take, slice_index_or, OnOk, OnErr};
ghost use Rattle.dh_demand.specs.Results.{number_of};
ghost use Rattle.dh_record.specs.Entering.{decided_at, undecided_at};
ghost use Rattle.dh_record.specs.Rows.{nobody, rows_of};

use crate::rows::{Entrant, KeyProbe, Order, put};
use dh_demand::Results;
use dh_imports::{Blame, Outcome, Why};
use dh_syntax::Key;
use std::alloc::{AllocError, Global};
use std::marker::Model;

/// The keys of a table with their outcomes, by their numbers.
#[derive(Debug, Drop)]
pub struct Entrants {
    rows: Vec<Entrant>,
    // their numbers in the order of the keys
    order: Order,
}

impl Model for Entrants {
    ghost use Rattle.dh_syntax.specs.contracts.expressions.Expr as e;
    ghost use Rattle.std.specs.Coded.{codes};
    ghost use Rattle.std.specs.Prelude.{List, map};
    ghost use Rattle.dh_record.specs.declared.rows.recorded.Entrant.{Entrant};
    ghost use Rattle.dh_record.specs.Sorting.{IsOrder, rank_of_entrant};

    ghost Value = { List Entrant };

    ghost coded = { Prim.hlevel (codes, e.the_row.coded) };

    ghost view = { λ a. a.rows.items };

    ghost invariant = { λ a. IsOrder (map rank_of_entrant a.rows.items) a.order.numbers.items };
}

impl Entrants {
    /// No keys. It takes no memory.
    pub fn new(alloc: Global) -> Entrants
        ensures { result ≡ [] }
    {
        Entrants {
            rows: Vec::new(alloc),
            order: Order::new(alloc),
        }
    }

    /// How many keys there are.
    pub fn len(&self) -> usize
        ensures { result ≡ length self.now }
    {
        self.rows.len()
    }

    /// The keys, by their numbers.
    pub fn as_slice(&self) -> &[Entrant]
        ensures { result.now ≡ self.now }
    {
        self.rows.as_slice()
    }

    /// The number of a key, where it is there.
    pub fn number(&self, key: &Key) -> Option<u32>
        ensures { result ≡ number_of (rows_of self.now) key.now }
    {
        let rows = self.rows.as_slice();
        self.order.find(&KeyProbe { rows, key })
    }

    /// Adds a new key. Where memory is wanting the keys stay as they were.
    pub fn push(&mut self, entrant: Entrant) -> Result<(), AllocError>
        requires new { number_of (rows_of self.old) entrant.key ≡ None }
        requires few { length self.old < 2 ^ 32 }
        ensures ok { OnOk result (self.new ≡ self.old ++ entrant ∷ []) }
        ensures err { OnErr result (self.new ≡ self.old) }
    {
        self.order.reserve()?;
        self.rows.reserve(1)?;
        let number = self.rows.len() as u32;
        let rows = self.rows.as_slice();
        let key = &entrant.key;
        self.order.insert(&KeyProbe { rows, key }, number);
        put(&mut self.rows, entrant);
        Ok(())
    }

    /// Gives a key its outcome.
    pub fn decide(&mut self, n: u32, outcome: Outcome)
        requires { n < length self.old }
        ensures { self.new ≡ decided_at self.old n outcome }
    {
        let entrant = &mut self.rows[n as usize];
        entrant.outcome = Some(outcome);
        entrant.own = None;
    }

    /// Takes a key's outcome away, where it has one.
    pub fn undecide(&mut self, n: u32)
        requires { n < length self.old }
        ensures { self.new ≡ undecided_at self.old n }
    {
        let entrant = &mut self.rows[n as usize];
        entrant.outcome = None;
    }

    /// Gives a key the fault of a loop, of which it is the least key. It takes no memory.
    pub fn mark(&mut self, n: u32)
        requires { n < length self.old }
        ensures { self.new ≡ decided_at self.old n (Outcome.Bad (record { at = (slice_index_or self.old n nobody).own; why = Why.Cycle })) }
    {
        let entrant = &mut self.rows[n as usize];
        let at = entrant.own.take();
        entrant.outcome = Some(Outcome::Bad(Blame {
            at,
            why: Why::Cycle,
        }));
    }

    /// Keeps the first keys alone.
    pub fn truncate(&mut self, len: usize)
        ensures { self.new ≡ take len self.old }
    {
        self.order.truncate(len);
        self.rows.truncate(len);
    }
}

impl Results for Entrants {
    ghost use Rattle.dh_record.specs.Rows.{rows_of};

    ghost rows = { λ t. rows_of t };

    fn outcome(&self, key: u32) -> Option<&Outcome> {
        self.rows[key as usize].outcome.as_ref()
    }

    fn key(&self, key: u32) -> &Key {
        &self.rows[key as usize].key
    }
}
