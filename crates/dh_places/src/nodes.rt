//! Nodes by the numbers of their tokens.
ghost use Rattle.std.specs.Prelude.{◌≡◌, suc, IfOk};
ghost use Rattle.dh_grammar.specs.Placing.{back, node, special_node, two, one_behind, fenced};
ghost use Rattle.dh_places.specs.Parts.{placed_of};
ghost use Rattle.dh_syntax.specs.Text.Noting.{if_there};

use crate::notes::Notes;
use crate::parts::Placed;
use std::alloc::{AllocError, Global};

/// The number of the token that stands so many before the one of this number.
pub fn back(count: u32, at: u32) -> u32
    ensures { result ≡ back count at }
{
    at.saturating_sub(count)
}

/// The number of the token behind the one of this number. A text has too few tokens for it to fail.
pub fn after(at: u32) -> Result<u32, AllocError>
    ensures { IfOk result (λ next. next ≡ suc at) }
{
    at.checked_add(1).ok_or(AllocError)
}

/// How many tokens a mark takes that may stand there.
pub fn if_there(there: bool) -> u32
    ensures { result ≡ if_there there }
{
    if there { 1 } else { 0 }
}

/// A node of these tokens.
pub fn node<N: Notes>(
    alloc: Global,
    level: u32,
    first: u32,
    last: u32,
    parts: N::Row,
) -> Result<Placed<N::Row>, AllocError>
    ensures { IfOk result (λ x. placed_of N.noting N.view x ≡ node N.noting level first last (N.view parts)) }
{
    Ok(Placed {
        first,
        last,
        nodes: N::node(alloc, first, last, parts)?,
        level,
        special: false,
    })
}

/// A node of two parts.
pub fn two<N: Notes>(
    alloc: Global,
    level: u32,
    left: Placed<N::Row>,
    right: Placed<N::Row>,
) -> Result<Placed<N::Row>, AllocError>
    ensures { IfOk result (λ x. placed_of N.noting N.view x ≡ two N.noting level (placed_of N.noting N.view left) (placed_of N.noting N.view right)) }
{
    let parts = N::joined(left.nodes, right.nodes)?;
    node::<N>(alloc, level, left.first, right.last, parts)
}

/// `merge` with two arguments, or `toMap` with one.
pub fn special_node<N: Notes>(
    alloc: Global,
    first: u32,
    last: u32,
    parts: N::Row,
) -> Result<Placed<N::Row>, AllocError>
    ensures { IfOk result (λ x. placed_of N.noting N.view x ≡ special_node N.noting first last (N.view parts)) }
{
    Ok(Placed {
        first,
        last,
        nodes: N::node(alloc, first, last, parts)?,
        level: 14,
        special: true,
    })
}

/// A node of one part, behind so many tokens.
pub fn one_behind<N: Notes>(
    alloc: Global,
    level: u32,
    count: u32,
    part: Placed<N::Row>,
) -> Result<Placed<N::Row>, AllocError>
    ensures { IfOk result (λ x. placed_of N.noting N.view x ≡ one_behind N.noting level count (placed_of N.noting N.view part)) }
{
    node::<N>(alloc, level, back(count, part.first), part.last, part.nodes)
}

/// A node without parts, up to the token that is read.
pub fn leaf<N: Notes>(alloc: Global, first: u32, at: u32) -> Result<Placed<N::Row>, AllocError>
    ensures { IfOk result (λ x. placed_of N.noting N.view x ≡ node N.noting 17 first (suc at) N.noting.none) }
{
    node::<N>(alloc, 17, first, after(at)?, N::none(alloc))
}

/// A selection from an operand, up to the token that is read.
pub fn selection<N: Notes>(
    alloc: Global,
    at: u32,
    first: u32,
    parts: N::Row,
) -> Result<Placed<N::Row>, AllocError>
    ensures { IfOk result (λ x. placed_of N.noting N.view x ≡ node N.noting 16 first (suc at) (N.view parts)) }
{
    node::<N>(alloc, 16, first, after(at)?, parts)
}

/// A node between brackets of one token each, of which the last is read; `mark` says whether a comma or a bar stands behind the
/// first.
pub fn fenced<N: Notes>(
    alloc: Global,
    at: u32,
    first: u32,
    mark: bool,
    parts: N::Row,
) -> Result<Placed<N::Row>, AllocError>
    ensures { IfOk result (λ x. placed_of N.noting N.view x ≡ fenced N.noting at first mark (N.view parts)) }
{
    let first = back(1, back(if_there(mark), first));
    node::<N>(alloc, 17, first, after(at)?, parts)
}
