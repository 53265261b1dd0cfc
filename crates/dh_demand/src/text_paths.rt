//! Where a place in a text with its values stands in the text itself.

ghost use Rattle.std.specs.Prelude.{◌≡◌, ◌++◌, List, length, IfOk, OnOk};
ghost use Rattle.std.specs.Option.{option_copied};
ghost use Rattle.dh_syntax.specs.Expressions.Bridge.{term, row_of};
ghost use Rattle.dh_imports.specs.TextPaths.{text_path, text_paths, way_into, way_on};
ghost use Rattle.dh_imports.specs.Walk.{choosing, keys_of, keys_of_row, walks};
ghost use Rattle.dh_demand.specs.Results.{ask_of};
ghost use Rattle.dh_demand.specs.Scans.{Begins, AreInside, Fits, text_key};

use crate::ends::Next;
use crate::nexts::next_in;
use crate::parts::{Part, node_part};
use crate::results::Results;
use crate::scans::{Edge, Scan};
use crate::skips::skip;
use dh_syntax::{Expr, Kids, Loc};
use std::alloc::{AllocError, Global};

/// The path in a text of the node to which a path leads in the text with its values ("Import resolution"): at `l ? r` it goes to the
/// side that was taken, and it ends at an import, whose value is no part of the text.
pub fn text_path<R: Results>(
    alloc: Global,
    scan: &Scan,
    parent: Option<&Loc>,
    results: &R,
    path: &[u32],
) -> Result<Vec<u32>, AllocError>
    requires { Fits (option_copied parent) (R.rows results.now) (term scan.now.expr) scan.now.edges }
    ensures { IfOk result (λ p. p.items ≡ text_path (text_key (option_copied parent.entry)) (ask_of (R.rows results.now)) (term scan.now.expr) path.now) }
{
    let mut way = Vec::new(alloc);
    let edges = scan.edges.as_slice();
    push_way(&mut way, &scan.expr, edges, parent, results, path)?;
    Ok(way)
}

// Adds the way into an expression, whose edges are the first.
#[cycle(text_paths)]
fn push_way<R: Results>(
    way: &mut Vec<u32>,
    e: &Expr,
    edges: &[Edge],
    parent: Option<&Loc>,
    results: &R,
    path: &[u32],
) -> Result<(), AllocError>
    requires { AreInside (R.rows results.now) edges.now }
    ensures { OnOk result (Begins (option_copied parent.entry) (R.rows results.now) (keys_of (option_copied parent.entry) (term e.now)) edges.now →
        way.new.items ≡ way.old.items ++ text_path (text_key (option_copied parent.entry)) (ask_of (R.rows results.now)) (term e.now) path.now) }
{
    match e {
        Expr::Var(_, _) => Ok(()),
        Expr::Node(op, kids) => match node_part(op) {
            Part::Import => Ok(()),
            Part::Choice => {
                if kids.len() == 2 {
                    push_side(way, kids, edges, parent, results, path)
                } else {
                    push_part(way, kids, edges, parent, results, path)
                }
            }
            Part::Other => push_part(way, kids, edges, parent, results, path),
        },
    }
}

// Adds the way into the side of `l ? r` that was taken.
#[cycle(text_paths)]
fn push_side<R: Results>(
    way: &mut Vec<u32>,
    kids: &Kids,
    edges: &[Edge],
    parent: Option<&Loc>,
    results: &R,
    path: &[u32],
) -> Result<(), AllocError>
    requires inside { AreInside (R.rows results.now) edges.now }
    requires two { length kids.now ≡ 2 }
    ensures { OnOk result (Begins (option_copied parent.entry) (R.rows results.now) (keys_of_row (option_copied parent.entry) (row_of kids.now)) edges.now →
        way.new.items ≡ way.old.items ++ way_into choosing (walks (text_key (option_copied parent.entry)) (ask_of (R.rows results.now)) (row_of kids.now))
        (text_paths (text_key (option_copied parent.entry)) (ask_of (R.rows results.now)) (row_of kids.now)) path.now) }
{
    let kids = kids.as_slice();
    let left = &kids[0];
    let right = &kids[1];
    let (first, middle) = next_in(&left.body, edges, parent, results);
    if first.is_ready() {
        way.push(0)?;
        push_way(way, &left.body, edges, parent, results, path)
    } else {
        way.push(1)?;
        push_way(way, &right.body, middle, parent, results, path)
    }
}

// Adds the way into the part of a node to which the path leads.
#[cycle(text_paths)]
fn push_part<R: Results>(
    way: &mut Vec<u32>,
    kids: &Kids,
    edges: &[Edge],
    parent: Option<&Loc>,
    results: &R,
    path: &[u32],
) -> Result<(), AllocError>
    requires { AreInside (R.rows results.now) edges.now }
    ensures { OnOk result (Begins (option_copied parent.entry) (R.rows results.now) (keys_of_row (option_copied parent.entry) (row_of kids.now)) edges.now →
        way.new.items ≡ way.old.items ++ way_on (text_paths (text_key (option_copied parent.entry)) (ask_of (R.rows results.now)) (row_of kids.now)) path.now) }
{
    let Some((number, rest)) = path.split_first() else {
        return Ok(());
    };
    way.push(*number)?;
    let mut left = *number;
    let mut edges = edges;
    for kid in kids.as_slice() {
        if left == 0 {
            return push_way(way, &kid.body, edges, parent, results, rest);
        }
        left -= 1;
        edges = skip(&kid.body, edges);
    }
    Ok(())
}
