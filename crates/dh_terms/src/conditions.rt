//! Tests of the conditions on indices, so that no index of a result passes 32 bits.

ghost use Rattle.std.specs.Prelude.{◌≡◌, ◌↔◌, ◌<◌, ◌-◌, ◌^◌, min, false, IsTrue};
ghost use Rattle.dh_syntax.specs.Expressions.Bridge.{term, row_of};
ghost use Rattle.dh_syntax.specs.Names.Indices.{IndicesBelow, RowIndicesBelow};
ghost use Rattle.dh_syntax.specs.Expressions.Nesting.{nesting, parts_nesting};
ghost use Rattle.dh_syntax.specs.Names.Subst.{is_free};

use crate::free_variables::free;
use dh_syntax::{Expr, Kids, Label};

/// Whether the condition of `shift` holds.
pub fn fits_shift(up: bool, x: &Label, from: u32, e: &Expr) -> bool
    ensures { IsTrue result ↔ ((IsTrue up → IndicesBelow (2 ^ 32 - 1) (term e.now)) × (up ≡ false → is_free x.now from (term e.now) ≡ false)) }
{
    if up {
        are_indices_below((1 << 32) - 1, e)
    } else {
        !free(x, from, e)
    }
}

/// Whether the condition of `subst` holds.
pub fn fits_subst(n: u32, a: &Expr, e: &Expr) -> bool
    ensures { IsTrue result ↔ ((n < 2 ^ 32 - nesting (term e.now)) × IndicesBelow (2 ^ 32 - nesting (term e.now)) (term a.now)) }
{
    let room = room_below(e);
    u64::from(n) < room && are_indices_below(room, a)
}

/// Whether the condition of `alpha`, and of `same` on either side, holds.
pub fn fits_alpha(e: &Expr) -> bool
    ensures { IsTrue result ↔ IndicesBelow (2 ^ 32 - nesting (term e.now)) (term e.now) }
{
    are_indices_below(room_below(e), e)
}

/// The number below which an index stays one of 32 bits, when it grows by one with each level of the expression.
fn room_below(e: &Expr) -> u64
    ensures { result ≡ 2 ^ 32 - nesting (term e.now) }
{
    (1 << 32) - levels(e)
}

/// How deep an expression nests. It stops at 2^32.
#[cycle(levels)]
fn levels(e: &Expr) -> u64
    ensures { result ≡ min (nesting (term e.now)) (2 ^ 32) }
{
    match e {
        Expr::Var(_, _) => 0,
        Expr::Node(_, kids) => levels_of_kids(kids),
    }
}

#[cycle(levels)]
fn levels_of_kids(kids: &Kids) -> u64
    ensures { result ≡ min (parts_nesting (row_of kids.now)) (2 ^ 32) }
{
    let mut most: u64 = 0;
    for kid in kids.as_slice() {
        most = most.max((levels(&kid.body) + 1).min(1 << 32));
    }
    most
}

/// Whether each index in an expression is below the limit.
#[cycle(indices)]
fn are_indices_below(limit: u64, e: &Expr) -> bool
    ensures { IsTrue result ↔ IndicesBelow limit (term e.now) }
{
    match e {
        Expr::Var(_, index) => u64::from(*index) < limit,
        Expr::Node(_, kids) => are_kids_below(limit, kids),
    }
}

#[cycle(indices)]
fn are_kids_below(limit: u64, kids: &Kids) -> bool
    ensures { IsTrue result ↔ RowIndicesBelow limit (row_of kids.now) }
{
    for kid in kids.as_slice() {
        if !are_indices_below(limit, &kid.body) {
            return false;
        }
    }
    true
}
