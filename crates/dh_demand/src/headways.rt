//! How far the walk of a text is known to come.

ghost use Rattle.std.specs.Prelude.{◌≡◌};
ghost use Rattle.dh_syntax.specs.Expressions.Bridge.{term, row_of};
ghost use Rattle.dh_demand.specs.Headways.{is_straight, are_straight};

use crate::parts::{Part, node_part};
use dh_syntax::{Expr, Kids};

/// How far the walk of a text is known to come.
#[derive(Clone, Copy, Debug)]
pub enum Headway {
    /// Nothing is known.
    Unknown,
    /// A `?` stands in the text: by what becomes of one import its walk may leave out others.
    Branching,
    /// No `?` stands in the text, which has so many imports, and the first so many of them have values that it may read. They are
    /// not looked at again.
    Straight { imports: usize, passed: usize },
}

/// Whether no `?` stands in an expression.
#[cycle(straight)]
pub(crate) fn is_straight(e: &Expr) -> bool
    ensures { result ≡ is_straight (term e.now) }
{
    match e {
        Expr::Var(_, _) => true,
        Expr::Node(op, kids) => match node_part(op) {
            Part::Import => kids.is_empty(),
            Part::Choice => false,
            Part::Other => are_straight(kids),
        },
    }
}

// Whether no `?` stands in the parts of a node.
#[cycle(straight)]
fn are_straight(kids: &Kids) -> bool
    ensures { result ≡ are_straight (row_of kids.now) }
{
    for kid in kids.as_slice() {
        if !is_straight(&kid.body) {
            return false;
        }
    }
    true
}
