//! What a walk does next.

ghost use Rattle.std.specs.Prelude.{◌≡◌, drop};
ghost use Rattle.std.specs.Option.{option_copied};
ghost use Rattle.dh_syntax.specs.Expressions.Bridge.{term};
ghost use Rattle.dh_imports.specs.Walk.{walk, keys_of};
ghost use Rattle.dh_demand.specs.Results.{ask_of};
ghost use Rattle.dh_demand.specs.Scans.{Begins, AreInside, Fits, text_key, imports};
ghost use Rattle.dh_demand.specs.Nexts.{IsNext, IsInside};

use crate::ends::Next;
use crate::results::Results;
use crate::scans::{Edge, Scan};
use crate::visitors::Visitor;
use crate::visits::{recovers, visit};
use crate::walks::walk_in;
use dh_syntax::{Expr, Loc};

/// What the walk of a text at this parent does next ("Import resolution"). With no parent, the text is the input.
pub fn next<R: Results>(scan: &Scan, parent: Option<&Loc>, results: &R) -> Next
    requires { Fits (option_copied parent) (R.rows results.now) (term scan.now.expr) scan.now.edges }
    ensures next { IsNext (option_copied parent.entry) (R.rows results.now) (walk (text_key (option_copied parent.entry)) (ask_of (R.rows results.now)) (term scan.now.expr)) result }
    ensures inside { IsInside (R.rows results.now) result }
{
    let (next, _rest) = next_in(&scan.expr, scan.edges.as_slice(), parent, results);
    next
}

/// What comes next in an expression, and the edges after it.
pub(crate) fn next_in<'a, R: Results>(
    e: &Expr,
    edges: &'a [Edge],
    parent: Option<&Loc>,
    results: &R,
) -> (Next, &'a [Edge])
    requires { AreInside (R.rows results.now) edges.now }
    ensures next { Begins (option_copied parent.entry) (R.rows results.now) (keys_of (option_copied parent.entry) (term e.now)) edges.now →
        IsNext (option_copied parent.entry) (R.rows results.now) (walk (text_key (option_copied parent.entry)) (ask_of (R.rows results.now)) (term e.now)) result.0 }
    ensures inside { IsInside (R.rows results.now) result.0 }
    ensures rest { result.1.now ≡ drop (imports (term e.now)) edges.now }
{
    walk_in(&Asker { parent, results }, false, e, edges, &mut [])
}

// A visitor that writes nothing.
#[derive(Drop)]
struct Asker<'a, R> {
    parent: Option<&'a Loc>,
    results: &'a R,
}

impl<'a, R: Results> Visitor for Asker<'a, R> {
    ghost use Rattle.std.specs.Option.{option_copied};
    ghost use Rattle.dh_demand.specs.Results.{ask_of};

    type Slot = bool;

    ghost sight = { λ a. record { parent = option_copied a.parent; rows = R.rows a.results.now; ask = ask_of (R.rows a.results.now); note = λ left k slots. slots } };

    fn visit(&self, edge: Edge, _left: usize, _slots: &mut [bool]) -> Next {
        visit(edge, self.parent, self.results)
    }

    fn recovers(&self, next: &Next) -> bool {
        recovers(next, self.results)
    }
}
