//! Nodes of no, one, two, three or several parts.
ghost use Rattle.std.specs.Prelude.{◌≡◌, None, IfOk, [], ◌∷◌, map};
ghost use Rattle.dh_grammar.specs.Stubs.{node, unbound};
ghost use Rattle.dh_operands.specs.Operands.{part_of};

use crate::gathering::{Gathering, kept};
use crate::parts::Part;
use dh_syntax::{Expr, Kids, Label, Op};
use std::alloc::{AllocError, Global};

/// A node without parts. It takes no memory.
pub fn leaf(alloc: Global, op: Op) -> Part
    ensures { part_of result ≡ node op [] }
{
    kept(alloc, Expr::Node(op, Kids::new(alloc)), 0)
}

/// A node with one part.
pub fn one(alloc: Global, op: Op, part: Part) -> Result<Part, AllocError>
    ensures { IfOk result (λ p. part_of p ≡ node op ((None, part_of part) ∷ [])) }
{
    let mut parts = Gathering::new(alloc);
    parts.push(None, part)?;
    Ok(parts.finish(alloc, op))
}

/// A node with two parts, the second under a binder where there is one.
pub fn two(
    alloc: Global,
    op: Op,
    left: Part,
    binder: Option<Label>,
    right: Part,
) -> Result<Part, AllocError>
    ensures { IfOk result (λ p. part_of p ≡ node op ((None, part_of left) ∷ (binder, part_of right) ∷ [])) }
{
    let mut parts = Gathering::new(alloc);
    parts.push(None, left)?;
    parts.push(binder, right)?;
    Ok(parts.finish(alloc, op))
}

/// A node with three parts, the third under a binder where there is one.
pub fn three(
    alloc: Global,
    op: Op,
    first: Part,
    second: Part,
    binder: Option<Label>,
    third: Part,
) -> Result<Part, AllocError>
    ensures { IfOk result (λ p.
        part_of p ≡ node op ((None, part_of first) ∷ (None, part_of second) ∷ (binder, part_of third) ∷ [])) }
{
    let mut parts = Gathering::new(alloc);
    parts.push(None, first)?;
    parts.push(None, second)?;
    parts.push(binder, third)?;
    Ok(parts.finish(alloc, op))
}

/// A node with these parts.
pub fn several(alloc: Global, op: Op, parts: Vec<Part>) -> Result<Part, AllocError>
    ensures { IfOk result (λ p. part_of p ≡ node op (unbound (map part_of parts.items))) }
{
    let mut gathered = Gathering::new(alloc);
    gathered.push_all(parts)?;
    Ok(gathered.finish(alloc, op))
}
