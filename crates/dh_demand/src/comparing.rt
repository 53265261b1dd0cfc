//! Whether an expression is a text with each value in its place.

ghost use Rattle.std.specs.Prelude.{◌≡◌, ◌<◌, ◌∷◌, ◌&&◌, List, Option, None, Some, length, drop};
ghost use Rattle.std.specs.Option.{option_copied, option_map};
ghost use Rattle.dh_syntax.specs.declared.locations.Key.{Key};
ghost use Rattle.dh_syntax.specs.declared.locations.Loc.{Loc};
ghost use Rattle.dh_syntax.specs.Expressions.Bridge.{term, row_of};
ghost use Rattle.dh_syntax.specs.Expressions.SameTree.{term_eq};
ghost use Rattle.dh_syntax.specs.Expressions.Tree.{Term};
ghost use Rattle.dh_imports.specs.Walk.{in_order, walk, walk_key, walks, keys_of, keys_of_row};
ghost use Rattle.dh_demand.specs.Results.{ask_of};
ghost use Rattle.dh_demand.specs.Scans.{IsEdge, Begins, AreInside, text_key, imports, imports_of_parts};
ghost use Rattle.dh_demand.specs.Values.{IsReady, IsReadySomewhere};
ghost use Rattle.dh_demand.specs.Inside.Building.{value_of_outcome};
ghost use Rattle.dh_demand.specs.Inside.Comparing.{is_term, parts_under, going_on, IsCompared, AreCompared, IsSideCompared, body_of, kid_at, has_binder, has_no_more};

use crate::parts::{Part, node_part};
use crate::results::Results;
use crate::scans::{Edge, Scan};
use crate::skips::{skip, skip_kids};
use dh_imports::Outcome;
use dh_syntax::{Expr, Kid, Kids, Op};
use dh_terms::{is_same_binder, is_same_expr, is_same_op};

/// Whether an expression is the value of a text: the text with each value for its import, and for `l ? r` the side that was
/// taken. It takes no memory.
pub fn is_assembled<R: Results>(scan: &Scan, results: &R, value: &Expr) -> bool
    requires { IsReadySomewhere (R.rows results.now) (term scan.now.expr) scan.now.edges }
    ensures { (parent : Option Loc) (v : Term) → IsReady parent (R.rows results.now) (term scan.now.expr) scan.now.edges v → result ≡ term_eq v (term value.now) }
{
    let (same, _rest) = compare_in(&scan.expr, scan.edges.as_slice(), results, Some(value));
    match same {
        Some(same) => same,
        None => unreachable!(),
    }
}

// Whether an expression is there and is the value of this one, and the edges after it. There is no answer where its walk fails
// and a run may go on.
#[cycle(compare)]
fn compare_in<'a, R: Results>(
    e: &Expr,
    edges: &'a [Edge],
    results: &R,
    other: Option<&Expr>,
) -> (Option<bool>, &'a [Edge])
    requires { AreInside (R.rows results.now) edges.now }
    ensures same { (parent : Option Loc) → Begins parent (R.rows results.now) (keys_of parent (term e.now)) edges.now →
        IsCompared (walk (text_key parent) (ask_of (R.rows results.now)) (term e.now)) (option_map term (option_copied other.entry)) result.0 }
    ensures rest { result.1.now ≡ drop (imports (term e.now)) edges.now }
{
    match e {
        Expr::Var(_, _) => (Some(is_there(e, other)), edges),
        Expr::Node(op, kids) => match node_part(op) {
            Part::Import => {
                let (same, rest) = compare_import(edges, results, other);
                (same, skip_kids(kids, rest))
            }
            Part::Choice => {
                if kids.len() == 2 {
                    compare_choice(kids, edges, results, other)
                } else {
                    compare_kids(kids, edges, results, kids_under(op, other))
                }
            }
            Part::Other => compare_kids(kids, edges, results, kids_under(op, other)),
        },
    }
}

// Whether an expression is there, and is this one.
fn is_there(e: &Expr, other: Option<&Expr>) -> bool
    ensures { result ≡ is_term (term e.now) (option_map term (option_copied other.entry)) }
{
    match other {
        Some(other) => is_same_expr(e, other),
        None => false,
    }
}

// The parts of an expression that is a node with this operator.
fn kids_under<'a>(op: &Op, other: Option<&'a Expr>) -> Option<&'a Kids>
    ensures { option_map row_of (option_copied result) ≡ parts_under op.now (option_map term (option_copied other.entry)) }
{
    match other {
        Some(other) => match other {
            Expr::Node(own, kids) => {
                if is_same_op(op, own) {
                    Some(kids)
                } else {
                    None
                }
            }
            Expr::Var(_, _) => None,
        },
        None => None,
    }
}

// The comparison of the parts of a node with these, and the edges after them.
#[cycle(compare)]
fn compare_kids<'a, R: Results>(
    kids: &Kids,
    edges: &'a [Edge],
    results: &R,
    others: Option<&Kids>,
) -> (Option<bool>, &'a [Edge])
    requires { AreInside (R.rows results.now) edges.now }
    ensures same { (parent : Option Loc) → Begins parent (R.rows results.now) (keys_of_row parent (row_of kids.now)) edges.now →
        AreCompared (row_of kids.now) (in_order (walks (text_key parent) (ask_of (R.rows results.now)) (row_of kids.now))) (option_map row_of (option_copied others.entry)) result.0 }
    ensures rest { result.1.now ≡ drop (imports_of_parts (row_of kids.now)) edges.now }
{
    let kids = kids.as_slice();
    let mut same = Some(true);
    let mut rest = edges;
    for i in 0..kids.len() {
        let kid = &kids[i];
        let other = kid_at(others, i);
        let (part, left) = compare_in(&kid.body, rest, results, body_of(other));
        rest = left;
        same = go_on(same, has_binder_of(kid, other), part);
    }
    (ended(same, kids.len(), others), rest)
}

// A comparison with one more part.
fn go_on(same: Option<bool>, binder: bool, part: Option<bool>) -> Option<bool>
    ensures { result ≡ going_on same binder part }
{
    match (same, part) {
        (Some(same), Some(part)) => Some(same && (binder && part)),
        (Some(_), None) => None,
        (None, Some(_)) | (None, None) => None,
    }
}

// A comparison of so many parts with these, at its end.
fn ended(same: Option<bool>, len: usize, others: Option<&Kids>) -> Option<bool>
    ensures { result ≡ option_map (λ b. b && has_no_more len (option_copied others.entry)) same }
{
    match (same, others) {
        (Some(same), Some(others)) => Some(same && others.get(len).is_none()),
        (Some(_), None) => Some(false),
        (None, Some(_)) | (None, None) => None,
    }
}

// The part of this number, where there is one.
fn kid_at<'a>(kids: Option<&'a Kids>, i: usize) -> Option<&'a Kid>
    ensures { option_copied result ≡ kid_at (option_copied kids.entry) i }
{
    match kids {
        Some(kids) => kids.get(i),
        None => None,
    }
}

fn body_of(kid: Option<&Kid>) -> Option<&Expr>
    ensures { option_copied result ≡ option_map body_of (option_copied kid.entry) }
{
    match kid {
        Some(kid) => Some(&kid.body),
        None => None,
    }
}

// Whether a part is there, and has the binder of this one.
fn has_binder_of(kid: &Kid, other: Option<&Kid>) -> bool
    ensures { result ≡ has_binder kid.now.binder (option_copied other.entry) }
{
    match other {
        Some(other) => is_same_binder(&kid.binder, &other.binder),
        None => false,
    }
}

// The comparison with the value of the side of `l ? r` that is taken, and the edges after both.
#[cycle(compare)]
fn compare_choice<'a, R: Results>(
    kids: &Kids,
    edges: &'a [Edge],
    results: &R,
    other: Option<&Expr>,
) -> (Option<bool>, &'a [Edge])
    requires inside { AreInside (R.rows results.now) edges.now }
    requires two { length kids.now ≡ 2 }
    ensures same { (parent : Option Loc) → Begins parent (R.rows results.now) (keys_of_row parent (row_of kids.now)) edges.now →
        IsSideCompared (walks (text_key parent) (ask_of (R.rows results.now)) (row_of kids.now)) (option_map term (option_copied other.entry)) result.0 }
    ensures rest { result.1.now ≡ drop (imports_of_parts (row_of kids.now)) edges.now }
{
    let kids = kids.as_slice();
    let left = &kids[0];
    let right = &kids[1];
    let (same, middle) = compare_in(&left.body, edges, results, other);
    match same {
        Some(same) => (Some(same), skip(&right.body, middle)),
        None => compare_in(&right.body, middle, results, other),
    }
}

// The comparison with the value of an import, whose edge is the first, and the edges after it.
fn compare_import<'a, R: Results>(
    edges: &'a [Edge],
    results: &R,
    other: Option<&Expr>,
) -> (Option<bool>, &'a [Edge])
    requires { AreInside (R.rows results.now) edges.now }
    ensures same { (parent : Option Loc) (k : Key) (ks : List Key) → Begins parent (R.rows results.now) (k ∷ ks) edges.now →
        IsCompared (walk_key (text_key parent) (ask_of (R.rows results.now)) k) (option_map term (option_copied other.entry)) result.0 }
    ensures rest { result.1.now ≡ drop 1 edges.now }
{
    match edges {
        [] => (None, edges),
        [edge, rest @ ..] => (compare_at(*edge, results, other), rest),
    }
}

// The comparison with the value of the import with this edge.
fn compare_at<R: Results>(edge: Edge, results: &R, other: Option<&Expr>) -> Option<bool>
    requires { edge.key < length (R.rows results.now) }
    ensures { (parent : Option Loc) (k : Key) → IsEdge parent (R.rows results.now) k edge →
        IsCompared (walk_key (text_key parent) (ask_of (R.rows results.now)) k) (option_map term (option_copied other.entry)) result }
{
    compare_value(results.outcome(edge.key), other)
}

// The comparison with the value of an outcome, where it has one.
fn compare_value(outcome: Option<&Outcome>, other: Option<&Expr>) -> Option<bool>
    ensures { result ≡ option_map (λ v. is_term (term v) (option_map term (option_copied other.entry))) (value_of_outcome (option_copied outcome.entry)) }
{
    match outcome {
        Some(Outcome::Good { value, origin: _ }) => Some(is_there(value, other)),
        Some(Outcome::Bad(_)) | None => None,
    }
}
