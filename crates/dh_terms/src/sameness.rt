//! Whether two expressions differ only in the names of their binders.

ghost use Rattle.std.specs.Prelude.{◌≡◌, ◌-◌, ◌^◌, ◌&&◌, IfOk};
ghost use Rattle.std.specs.Bool.{Decides};
ghost use Rattle.dh_syntax.specs.Names.Alpha.{IsSame, same};
ghost use Rattle.dh_syntax.specs.Expressions.Bridge.{term, row_of};
ghost use Rattle.dh_syntax.specs.Names.Indices.{IndicesBelow};
ghost use Rattle.dh_syntax.specs.Expressions.Nesting.{nesting};
ghost use Rattle.dh_syntax.specs.Expressions.Numbers.{bytes_eq};
ghost use Rattle.dh_syntax.specs.Expressions.SameTree.{option_eq, term_eq, row_eq};

use crate::alpha_forms::alpha;
use crate::binders::is_same_label;
use crate::equality::is_same_op;
use dh_syntax::{Expr, Kid, Kids, Label};
use std::alloc::{AllocError, Global};

/// Whether two expressions differ only in the names of their binders.
pub fn same(alloc: Global, a: &Expr, b: &Expr) -> Result<bool, AllocError>
    requires left { IndicesBelow (2 ^ 32 - nesting (term a.now)) (term a.now) }
    requires right { IndicesBelow (2 ^ 32 - nesting (term b.now)) (term b.now) }
    ensures tests { IfOk result (λ r. r ≡ same (term a.now) (term b.now)) }
    ensures decides { IfOk result (λ r. Decides r (IsSame (term a.now) (term b.now))) }
{
    let left = alpha(alloc, a)?;
    let right = alpha(alloc, b)?;
    Ok(is_same_expr(&left, &right))
}

/// Whether the two binders, where they are there, have one name.
pub fn is_same_binder(x: &Option<Label>, y: &Option<Label>) -> bool
    ensures { result ≡ option_eq bytes_eq x.now y.now }
{
    match (x, y) {
        (Some(x), Some(y)) => is_same_label(x, y),
        (None, None) => true,
        _ => false,
    }
}

/// Whether the two expressions are equal.
#[cycle(same_expr)]
pub fn is_same_expr(a: &Expr, b: &Expr) -> bool
    ensures { result ≡ term_eq (term a.now) (term b.now) }
{
    match (a, b) {
        (Expr::Var(x, i), Expr::Var(y, j)) => is_same_label(x, y) && i == j,
        (Expr::Node(o, kids), Expr::Node(p, others)) => is_same_op(o, p)
            && are_same_kids(kids, others),
        (Expr::Var(_, _), Expr::Node(_, _)) => false,
        (Expr::Node(_, _), Expr::Var(_, _)) => false,
    }
}

#[cycle(same_expr)]
fn are_same_kids(kids: &Kids, others: &Kids) -> bool
    ensures { result ≡ row_eq (row_of kids.now) (row_of others.now) }
{
    let kids = kids.as_slice();
    let others = others.as_slice();
    if kids.len() != others.len() {
        return false;
    }
    for i in 0..kids.len() {
        if !is_same_kid(&kids[i], &others[i]) {
            return false;
        }
    }
    true
}

#[cycle(same_expr)]
fn is_same_kid(kid: &Kid, other: &Kid) -> bool
    ensures { result ≡ (option_eq bytes_eq kid.now.binder other.now.binder && term_eq (term kid.now.body) (term other.now.body)) }
{
    is_same_binder(&kid.binder, &other.binder) && is_same_expr(&kid.body, &other.body)
}
