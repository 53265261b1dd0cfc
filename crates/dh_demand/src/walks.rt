//! The one walk through a text.

ghost use Rattle.std.specs.Prelude.{◌≡◌, List, ◌∷◌, [], Some, true, false, drop};
ghost use Rattle.dh_syntax.specs.declared.locations.Key.{Key};
ghost use Rattle.dh_syntax.specs.Expressions.Bridge.{term, row_of};
ghost use Rattle.dh_syntax.specs.Expressions.Tree.{Term};
ghost use Rattle.dh_imports.specs.Freezing.{goes_on};
ghost use Rattle.dh_imports.specs.Walk.{Walked, Ready, choosing, walk_key, walks, keys_of_row};
ghost use Rattle.dh_demand.specs.Nexts.{IsNext, IsInside};
ghost use Rattle.dh_demand.specs.Scans.{Begins, AreInside, text_key, imports, imports_of_parts};
ghost use Rattle.dh_demand.specs.Inside.Seen.{Came, WalksIn, chooses, form_by, last, seen_row};
ghost use Rattle.dh_demand.specs.Inside.Walking.{choice};

use crate::ends::Next;
use crate::parts::{Part, node_part};
use crate::scans::Edge;
use crate::skips::skip;
use crate::visitors::Visitor;
use dh_syntax::{Expr, Kid};

/// What comes next in an expression, and the edges after it; the visitor writes of each import to which the walk comes.
/// `unspelled` says whether it writes by the rules of what no text spells as well: of the imports in the parts of an import, and
/// in a choice of other than two parts by the rule of a choice.
#[cycle(walk)]
pub(crate) fn walk_in<'a, V: Visitor>(
    visitor: &V,
    unspelled: bool,
    e: &Expr,
    edges: &'a [Edge],
    slots: &mut [V::Slot],
) -> (Next, &'a [Edge])
    requires { AreInside (V.sight visitor.now).rows edges.now }
    ensures came { WalksIn (V.sight visitor.now) unspelled edges.now (term e.now) slots.old result.0 slots.new }
    ensures inside { IsInside (V.sight visitor.now).rows result.0 }
    ensures rest { result.1.now ≡ drop (imports (term e.now)) edges.now }
{
    match e {
        Expr::Var(_, _) => (Next::Ready, edges),
        Expr::Node(op, kids) => {
            let kids = kids.as_slice();
            match node_part(op) {
                Part::Import => {
                    let (next, behind) = walk_import(visitor, edges, slots);
                    let (_inner, rest) = walk_kids(
                        visitor, unspelled, false, unspelled, kids, behind, slots,
                    );
                    (next, rest)
                }
                Part::Choice => walk_choice(visitor, unspelled, kids, edges, slots),
                Part::Other => walk_kids(visitor, unspelled, false, true, kids, edges, slots),
            }
        }
    }
}

// The parts of a node in turn, where the walk comes to them by the rule of a choice or by that of other nodes; `comes` says
// whether it comes to the first.
#[cycle(walk)]
fn walk_kids<'a, V: Visitor>(
    visitor: &V,
    unspelled: bool,
    choice: bool,
    comes: bool,
    kids: &[Kid],
    edges: &'a [Edge],
    slots: &mut [V::Slot],
) -> (Next, &'a [Edge])
    requires { AreInside (V.sight visitor.now).rows edges.now }
    ensures came { Begins (V.sight visitor.now).parent (V.sight visitor.now).rows (keys_of_row (V.sight visitor.now).parent (row_of kids.now)) edges.now →
        Came (V.sight visitor.now) edges.now (seen_row (V.sight visitor.now) unspelled choice comes (row_of kids.now))
        (last choice comes (Ready tt) (walks (text_key (V.sight visitor.now).parent) (V.sight visitor.now).ask (row_of kids.now))) slots.old result.0 slots.new }
    ensures inside { IsInside (V.sight visitor.now).rows result.0 }
    ensures rest { result.1.now ≡ drop (imports_of_parts (row_of kids.now)) edges.now }
{
    let mut here = comes;
    let mut next = Next::Ready;
    let mut rest = edges;
    for kid in kids {
        if !here {
            rest = skip(&kid.body, rest);
            continue;
        }
        let (after, left) = walk_in(visitor, unspelled, &kid.body, rest, slots);
        here = goes_on(visitor, choice, &after);
        next = after;
        rest = left;
    }
    (next, rest)
}

// The parts of a choice. With more than two, which no text spells, what comes next goes by the rule of other nodes, and what is
// written by that of a choice where `unspelled`: each has a walk of its own. The one that writes nothing is told to leave out what
// no text spells, or such choices in one another would double the walk. With one part the two rules are one.
#[cycle(walk)]
fn walk_choice<'a, V: Visitor>(
    visitor: &V,
    unspelled: bool,
    kids: &[Kid],
    edges: &'a [Edge],
    slots: &mut [V::Slot],
) -> (Next, &'a [Edge])
    requires { AreInside (V.sight visitor.now).rows edges.now }
    ensures came { Begins (V.sight visitor.now).parent (V.sight visitor.now).rows (keys_of_row (V.sight visitor.now).parent (row_of kids.now)) edges.now →
        Came (V.sight visitor.now) edges.now (seen_row (V.sight visitor.now) unspelled (chooses unspelled choosing (row_of kids.now)) true (row_of kids.now))
        (choice (walks (text_key (V.sight visitor.now).parent) (V.sight visitor.now).ask (row_of kids.now))) slots.old result.0 slots.new }
    ensures inside { IsInside (V.sight visitor.now).rows result.0 }
    ensures rest { result.1.now ≡ drop (imports_of_parts (row_of kids.now)) edges.now }
{
    if kids.len() < 3 {
        return walk_kids(visitor, unspelled, true, true, kids, edges, slots);
    }
    if unspelled {
        let (_last, rest) = walk_kids(visitor, true, true, true, kids, edges, slots);
        let (next, _rest) = walk_kids(visitor, false, false, true, kids, edges, &mut []);
        return (next, rest);
    }
    walk_kids(visitor, false, false, true, kids, edges, slots)
}

// What comes next at an import, whose edge is the first.
fn walk_import<'a, V: Visitor>(
    visitor: &V,
    edges: &'a [Edge],
    slots: &mut [V::Slot],
) -> (Next, &'a [Edge])
    requires { AreInside (V.sight visitor.now).rows edges.now }
    ensures came { (k : Key) (ks : List Key) → Begins (V.sight visitor.now).parent (V.sight visitor.now).rows (k ∷ ks) edges.now →
        Came (V.sight visitor.now) edges.now (Some k ∷ []) (walk_key (text_key (V.sight visitor.now).parent) (V.sight visitor.now).ask k) slots.old result.0 slots.new }
    ensures inside { IsInside (V.sight visitor.now).rows result.0 }
    ensures rest { result.1.now ≡ drop 1 edges.now }
    ensures rest_inside { AreInside (V.sight visitor.now).rows result.1.now }
{
    match edges {
        [] => (Next::Ready, edges),
        [edge, rest @ ..] => (visitor.visit(*edge, edges.len(), slots), rest),
    }
}

// Whether the walk comes to the next part of a node after what came of one.
fn goes_on<V: Visitor>(visitor: &V, choice: bool, next: &Next) -> bool
    requires { IsInside (V.sight visitor.now).rows next.now }
    ensures { (w : Walked Term) → IsNext (V.sight visitor.now).parent (V.sight visitor.now).rows w next.now → result ≡ goes_on (form_by choice) w }
{
    if choice {
        visitor.recovers(next)
    } else {
        next.is_ready()
    }
}
