//! What a last step takes, and what it gives.

ghost use Rattle.std.specs.Prelude.{◌≡◌, true, false};
ghost use Rattle.dh_record.specs.Items.{IsLast};
ghost use Rattle.dh_record.specs.Values.{HasValue};

use dh_imports::{Blame, Origin, Outcome};
use dh_syntax::{Bytes, Expr, Key, Loc};
use std::marker::Model;

/// What was found for a key.
#[derive(Debug, Drop)]
pub struct Item {
    pub key: Key,
    /// The allowed origin of the key's recorded text.
    pub allow: Option<Bytes>,
    pub body: Body,
}

/// What the last step of a key takes.
#[derive(Debug)]
pub enum Body {
    /// Its code, with a value for each import.
    Code(Expr),
    Text(Bytes),
    Location(Loc),
    /// The value of the key without digest.
    Compare(Expr, Origin),
    /// The expression of a good cache entry.
    Entry(Expr),
    /// The fault of its walk or of what is recorded for it.
    Fault(Blame),
}

// Written by hand: a derived one puts every arm inline wherever a value may die.
impl Drop for Body {
    fn drop(self) {
        match self {
            Body::Code(_) | Body::Entry(_) => {}
            Body::Text(_) | Body::Location(_) => {}
            Body::Compare(_, _) | Body::Fault(_) => {}
        }
    }
}

/// The outcome of a key, with the item that it came of: that of the last step, or a limit that is licensed for the item.
#[derive(Debug, Drop)]
pub struct Done {
    item: Item,
    outcome: Outcome,
    limited: bool,
}

impl Model for Done {
    ghost use Rattle.dh_syntax.specs.contracts.expressions.Expr as e;
    ghost use Rattle.std.specs.Coded.{codes};
    ghost use Rattle.dh_record.specs.Ends.{DoneParts};

    ghost Value = { DoneParts };

    ghost coded = { Prim.hlevel (codes, e.the_row.coded) };

    ghost use Rattle.dh_record.specs.Items.{IsLast};
    ghost use Rattle.dh_record.specs.Values.{HasValue};

    ghost view = { λ a. record { item = a.item; outcome = a.outcome; limited = a.limited } };

    ghost invariant = { λ a. IsLast a.item a.outcome a.limited × HasValue a.outcome };
}

impl Done {
    /// What the last step gives on an item.
    pub fn of(item: Item, outcome: Outcome) -> Done
        requires last { IsLast item outcome false }
        requires value { HasValue outcome }
        ensures { result ≡ record { item = item; outcome = outcome; limited = false } }
    {
        Done {
            item,
            outcome,
            limited: false,
        }
    }

    /// A limit that is licensed for an item.
    pub fn limit(item: Item, outcome: Outcome) -> Done
        requires { IsLast item outcome true }
        ensures { result ≡ record { item = item; outcome = outcome; limited = true } }
    {
        Done {
            item,
            outcome,
            limited: true,
        }
    }

    /// The item of which it is the outcome.
    pub fn item(&self) -> &Item
        ensures { result.now ≡ self.now.item }
    {
        &self.item
    }

    /// Whether the outcome is a limit.
    pub fn is_limit(&self) -> bool
        ensures { result ≡ self.now.limited }
    {
        self.limited
    }

    /// The outcome of the last step of the item, or a limit that is licensed for it.
    pub fn outcome(&self) -> &Outcome
        ensures { result.now ≡ self.now.outcome }
    {
        &self.outcome
    }

    /// The outcome alone.
    pub fn into_outcome(self) -> Outcome
        ensures { result ≡ self.outcome }
    {
        let Done {
            item: _,
            outcome,
            limited: _,
        } = self;
        outcome
    }

    /// States that the value of its outcome, where it has one, is a value. Does nothing: a caller's proof uses it.
    pub fn by_value(&self)
        ensures { HasValue self.now.outcome }
    {
        let _outcome = &self.outcome;
    }

    /// States that the outcome is that of the last step on the item, or a limit that is licensed for it. Does nothing: a caller's proof
    /// uses it.
    pub fn by_last_step(&self)
        ensures { IsLast self.now.item self.now.outcome self.now.limited }
    {
        let _outcome = &self.outcome;
    }
}
