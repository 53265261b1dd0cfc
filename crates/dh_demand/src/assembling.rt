//! A text with each value in its place.

ghost use Rattle.std.specs.Prelude.{◌≡◌, ◌<◌, ◌∷◌, List, Option, length, drop, is_some, IfOk, OnOk};
ghost use Rattle.std.specs.Option.{option_copied, option_map};
ghost use Rattle.dh_syntax.specs.declared.locations.Key.{Key};
ghost use Rattle.dh_syntax.specs.declared.locations.Loc.{Loc};
ghost use Rattle.dh_syntax.specs.Expressions.Bridge.{term, row_of};
ghost use Rattle.dh_syntax.specs.Expressions.Tree.{Term};
ghost use Rattle.dh_imports.specs.Walk.{in_order, walk, walk_key, walks, keys_of, keys_of_row};
ghost use Rattle.dh_demand.specs.Results.{ask_of};
ghost use Rattle.dh_demand.specs.Scans.{IsEdge, Begins, AreInside, text_key, imports, imports_of_parts};
ghost use Rattle.dh_demand.specs.Values.{IsReady, IsReadySomewhere};
ghost use Rattle.dh_demand.specs.Inside.Building.{IsBuilt, AreBuilt, IsSideBuilt, with_kid, value_of_outcome};

use crate::parts::{Part, node_part};
use crate::results::Results;
use crate::scans::{Edge, Scan};
use crate::skips::{skip, skip_kids};
use dh_imports::Outcome;
use dh_syntax::{Expr, Kid, Kids, Label, Many, Op, copy, copy_name};
use std::alloc::{AllocError, Global};

/// The text with each value for its import, and for `l ? r` the side that was taken ("Import resolution").
pub fn assemble<R: Results>(alloc: Global, scan: &Scan, results: &R) -> Result<Expr, AllocError>
    requires { IsReadySomewhere (R.rows results.now) (term scan.now.expr) scan.now.edges }
    ensures { IfOk result (λ c. (parent : Option Loc) (v : Term) → IsReady parent (R.rows results.now) (term scan.now.expr) scan.now.edges v → term c ≡ v) }
{
    let (built, _rest) = assemble_in(alloc, &scan.expr, scan.edges.as_slice(), results)?;
    match built {
        Some(value) => Ok(value),
        None => unreachable!(),
    }
}

// The value of an expression, and the edges after it. There is none where its walk fails and a run may go on.
#[cycle(assemble)]
fn assemble_in<'a, R: Results>(
    alloc: Global,
    e: &Expr,
    edges: &'a [Edge],
    results: &R,
) -> Result<(Option<Expr>, &'a [Edge]), AllocError>
    requires { AreInside (R.rows results.now) edges.now }
    ensures built { IfOk result (λ p. (parent : Option Loc) → Begins parent (R.rows results.now) (keys_of parent (term e.now)) edges.now →
        IsBuilt (walk (text_key parent) (ask_of (R.rows results.now)) (term e.now)) p.0) }
    ensures rest { IfOk result (λ p. p.1.now ≡ drop (imports (term e.now)) edges.now) }
{
    match e {
        Expr::Var(name, index) => Ok((Some(Expr::Var(name.copied(alloc)?, *index)), edges)),
        Expr::Node(op, kids) => match node_part(op) {
            Part::Import => {
                let (value, rest) = assemble_import(alloc, edges, results)?;
                Ok((value, skip_kids(kids, rest)))
            }
            Part::Choice => {
                if kids.len() == 2 {
                    let (value, rest) = assemble_choice(alloc, kids, edges, results)?;
                    Ok((value, rest))
                } else {
                    let op = op.copied(alloc)?;
                    let (parts, rest) = assemble_kids(alloc, kids, edges, results)?;
                    Ok((node(op, parts), rest))
                }
            }
            Part::Other => {
                let op = op.copied(alloc)?;
                let (parts, rest) = assemble_kids(alloc, kids, edges, results)?;
                Ok((node(op, parts), rest))
            }
        },
    }
}

// The node with these parts.
fn node(op: Op, parts: Option<Kids>) -> Option<Expr>
    ensures { result ≡ option_map (λ ks. Expr.Node op ks) parts }
{
    match parts {
        Some(kids) => Some(Expr::Node(op, kids)),
        None => None,
    }
}

// The parts of a node with their values, and the edges after them.
#[cycle(assemble)]
fn assemble_kids<'a, R: Results>(
    alloc: Global,
    kids: &Kids,
    edges: &'a [Edge],
    results: &R,
) -> Result<(Option<Kids>, &'a [Edge]), AllocError>
    requires { AreInside (R.rows results.now) edges.now }
    ensures built { IfOk result (λ p. (parent : Option Loc) → Begins parent (R.rows results.now) (keys_of_row parent (row_of kids.now)) edges.now →
        AreBuilt (row_of kids.now) (in_order (walks (text_key parent) (ask_of (R.rows results.now)) (row_of kids.now))) p.0) }
    ensures rest { IfOk result (λ p. p.1.now ≡ drop (imports_of_parts (row_of kids.now)) edges.now) }
{
    let mut done = Many::new(alloc);
    let mut failed = false;
    let mut rest = edges;
    for kid in kids.as_slice() {
        if failed {
            rest = skip(&kid.body, rest);
        } else {
            let (value, left) = assemble_in(alloc, &kid.body, rest, results)?;
            rest = left;
            failed = !keep(alloc, &mut done, &kid.binder, value)?;
        }
    }
    if failed {
        Ok((None, rest))
    } else {
        Ok((Some(done), rest))
    }
}

// Adds a kid with this value, where there is one. Answers whether there is.
fn keep(
    alloc: Global,
    done: &mut Kids,
    binder: &Option<Label>,
    value: Option<Expr>,
) -> Result<bool, AllocError>
    ensures kid { OnOk result (done.new ≡ with_kid done.old binder.now value) }
    ensures kept { IfOk result (λ b. b ≡ is_some value) }
{
    match value {
        Some(body) => {
            let binder = copy_name(alloc, binder)?;
            done.push(Kid { binder, body })?;
            Ok(true)
        }
        None => Ok(false),
    }
}

// The value of the side of `l ? r` that is taken, and the edges after both.
#[cycle(assemble)]
fn assemble_choice<'a, R: Results>(
    alloc: Global,
    kids: &Kids,
    edges: &'a [Edge],
    results: &R,
) -> Result<(Option<Expr>, &'a [Edge]), AllocError>
    requires inside { AreInside (R.rows results.now) edges.now }
    requires two { length kids.now ≡ 2 }
    ensures built { IfOk result (λ p. (parent : Option Loc) → Begins parent (R.rows results.now) (keys_of_row parent (row_of kids.now)) edges.now →
        IsSideBuilt (walks (text_key parent) (ask_of (R.rows results.now)) (row_of kids.now)) p.0) }
    ensures rest { IfOk result (λ p. p.1.now ≡ drop (imports_of_parts (row_of kids.now)) edges.now) }
{
    let kids = kids.as_slice();
    let left = &kids[0];
    let right = &kids[1];
    let (value, middle) = assemble_in(alloc, &left.body, edges, results)?;
    match value {
        Some(value) => Ok((Some(value), skip(&right.body, middle))),
        None => {
            let (value, rest) = assemble_in(alloc, &right.body, middle, results)?;
            Ok((value, rest))
        }
    }
}

// The value of an import, whose edge is the first, and the edges after it.
fn assemble_import<'a, R: Results>(
    alloc: Global,
    edges: &'a [Edge],
    results: &R,
) -> Result<(Option<Expr>, &'a [Edge]), AllocError>
    requires { AreInside (R.rows results.now) edges.now }
    ensures built { IfOk result (λ p. (parent : Option Loc) (k : Key) (ks : List Key) → Begins parent (R.rows results.now) (k ∷ ks) edges.now →
        IsBuilt (walk_key (text_key parent) (ask_of (R.rows results.now)) k) p.0) }
    ensures rest { IfOk result (λ p. p.1.now ≡ drop 1 edges.now) }
{
    match edges {
        [] => Ok((None, edges)),
        [edge, rest @ ..] => Ok((value_at(alloc, *edge, results)?, rest)),
    }
}

// The value of the import with this edge.
fn value_at<R: Results>(alloc: Global, edge: Edge, results: &R) -> Result<Option<Expr>, AllocError>
    requires { edge.key < length (R.rows results.now) }
    ensures { IfOk result (λ o. (parent : Option Loc) (k : Key) → IsEdge parent (R.rows results.now) k edge →
        IsBuilt (walk_key (text_key parent) (ask_of (R.rows results.now)) k) o) }
{
    let value = value_of(alloc, results.outcome(edge.key))?;
    Ok(value)
}

// A copy of the value of an outcome, where it has one.
fn value_of(alloc: Global, outcome: Option<&Outcome>) -> Result<Option<Expr>, AllocError>
    ensures { IfOk result (λ o. o ≡ value_of_outcome (option_copied outcome.entry)) }
{
    match outcome {
        Some(Outcome::Good { value, origin: _ }) => Ok(Some(copy(alloc, value)?)),
        Some(Outcome::Bad(_)) | None => Ok(None),
    }
}
