//! The keys that a walk wants, and those that it asks.

ghost use Rattle.std.specs.Prelude.{◌≡◌};
ghost use Rattle.std.specs.Option.{option_copied};
ghost use Rattle.dh_syntax.specs.Expressions.Bridge.{term};
ghost use Rattle.dh_imports.specs.Walk.{course, wants};
ghost use Rattle.dh_demand.specs.Results.{ask_of};
ghost use Rattle.dh_demand.specs.Scans.{Fits, text_key};
ghost use Rattle.dh_demand.specs.Wants.{AreMarked, HaveMarks};
ghost use Rattle.dh_demand.specs.Inside.Marking.{noting, passing, picked};

use crate::ends::Next;
use crate::marks::Marks;
use crate::results::Results;
use crate::scans::{Edge, Scan};
use crate::visitors::{Visitor, write};
use crate::visits::{recovers, visit};
use crate::walks::walk_in;
use dh_syntax::Loc;

/// Marks each key without an outcome that the walk of a text at this parent asks if each such key turns out good and passes
/// the cross-origin test. With no parent, the text is the input. It takes no memory.
pub fn wanted<R: Results>(scan: &Scan, parent: Option<&Loc>, results: &R, marks: &mut Marks)
    requires fits { Fits (option_copied parent) (R.rows results.now) (term scan.now.expr) scan.now.edges }
    requires room { HaveMarks marks.old scan.now.edges }
    ensures { AreMarked (R.rows results.now) (wants (text_key (option_copied parent.entry)) (ask_of (R.rows results.now)) (term scan.now.expr)) marks.old marks.new }
{
    mark_asked(false, scan, parent, results, marks);
}

/// Marks each key that the walk of a text at this parent asks if each one without an outcome turns out good and passes the
/// cross-origin test. With no parent, the text is the input. It takes no memory.
pub fn asked<R: Results>(scan: &Scan, parent: Option<&Loc>, results: &R, marks: &mut Marks)
    requires fits { Fits (option_copied parent) (R.rows results.now) (term scan.now.expr) scan.now.edges }
    requires room { HaveMarks marks.old scan.now.edges }
    ensures { AreMarked (R.rows results.now) (course (text_key (option_copied parent.entry)) (ask_of (R.rows results.now)) (term scan.now.expr)).asked marks.old marks.new }
{
    mark_asked(true, scan, parent, results, marks);
}

// Marks all keys that the walk asks, or those of them without an outcome, if each of these turns out good and passes the
// cross-origin test.
fn mark_asked<R: Results>(
    all: bool,
    scan: &Scan,
    parent: Option<&Loc>,
    results: &R,
    marks: &mut Marks,
)
    requires fits { Fits (option_copied parent) (R.rows results.now) (term scan.now.expr) scan.now.edges }
    requires room { HaveMarks marks.old scan.now.edges }
    ensures { AreMarked (R.rows results.now) (picked all (ask_of (R.rows results.now)) (course (text_key (option_copied parent.entry)) (ask_of (R.rows results.now)) (term scan.now.expr)).asked) marks.old marks.new }
{
    let marker = Marker {
        all,
        parent,
        results,
    };
    let (_next, _rest) = walk_in(
        &marker,
        false,
        &scan.expr,
        scan.edges.as_slice(),
        marks.marks.as_mut_slice(),
    );
}

// A visitor that marks all keys that are asked, or those without an outcome; the walk goes on after the latter.
#[derive(Drop)]
struct Marker<'a, R> {
    all: bool,
    parent: Option<&'a Loc>,
    results: &'a R,
}

impl<'a, R: Results> Visitor for Marker<'a, R> {
    ghost use Rattle.std.specs.Option.{option_copied};
    ghost use Rattle.dh_demand.specs.Inside.Marking.{marking};

    type Slot = bool;

    ghost sight = { λ m. marking m.all (option_copied m.parent) (R.rows m.results.now) };

    fn visit(&self, edge: Edge, _left: usize, marks: &mut [bool]) -> Next {
        let next = visit(edge, self.parent, self.results);
        if !is_noted(self.all, edge.sane, &next) {
            return passing(next);
        }
        write(marks, edge.key as usize, true);
        passing(next)
    }

    fn recovers(&self, next: &Next) -> bool {
        recovers(next, self.results)
    }
}

// Whether the key of an import is marked, by whether the import is sane and what comes next at it.
fn is_noted(all: bool, sane: bool, next: &Next) -> bool
    ensures { result ≡ noting all sane next.now }
{
    match next {
        Next::Need(_) => true,
        Next::Ready => all,
        Next::Fault(_) => all && sane,
    }
}

// What comes next where a key without an outcome counts as one with a value.
fn passing(next: Next) -> Next
    ensures { result ≡ passing next }
{
    match next {
        Next::Need(_) => Next::Ready,
        Next::Ready => Next::Ready,
        Next::Fault(edge) => Next::Fault(edge),
    }
}
