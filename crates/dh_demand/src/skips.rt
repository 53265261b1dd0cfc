//! Going past the imports of an expression.

ghost use Rattle.std.specs.Prelude.{◌≡◌, drop};
ghost use Rattle.dh_syntax.specs.Expressions.Bridge.{term, row_of};
ghost use Rattle.dh_demand.specs.Scans.{imports, imports_of_parts, own_imports};
ghost use Rattle.dh_imports.specs.Walk.{form_of};

use crate::parts::{Part, node_part};
use crate::scans::Edge;
use dh_syntax::{Expr, Kids, Op};

/// The edges after those of an expression.
#[cycle(skip)]
pub(crate) fn skip<'a>(e: &Expr, edges: &'a [Edge]) -> &'a [Edge]
    ensures { result.now ≡ drop (imports (term e.now)) edges.now }
{
    match e {
        Expr::Var(_, _) => edges,
        Expr::Node(op, kids) => skip_kids(kids, skip_node(op, edges)),
    }
}

/// The edges after those of the parts of a node.
#[cycle(skip)]
pub(crate) fn skip_kids<'a>(kids: &Kids, edges: &'a [Edge]) -> &'a [Edge]
    ensures { result.now ≡ drop (imports_of_parts (row_of kids.now)) edges.now }
{
    let mut rest = edges;
    for kid in kids.as_slice() {
        rest = skip(&kid.body, rest);
    }
    rest
}

// The edges after that of a node itself, where it is an import.
fn skip_node<'a>(op: &Op, edges: &'a [Edge]) -> &'a [Edge]
    ensures { result.now ≡ drop (own_imports (form_of op.now)) edges.now }
{
    match node_part(op) {
        Part::Import => after_first(edges),
        Part::Choice => edges,
        Part::Other => edges,
    }
}

/// The edges after the first.
pub(crate) fn after_first(edges: &[Edge]) -> &[Edge]
    ensures { result.now ≡ drop 1 edges.now }
{
    match edges {
        [] => edges,
        [_first, rest @ ..] => rest,
    }
}
