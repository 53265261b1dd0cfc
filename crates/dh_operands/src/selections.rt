//! Selections: a field, a projection by labels, a projection by a type.
ghost use Rattle.std.specs.Prelude.{◌≡◌, false, IfOk};
ghost use Rattle.dh_grammar.specs.Stubs.{stubs, at, one};
ghost use Rattle.dh_operands.specs.Operands.{operand_of};
ghost use Rattle.dh_making.specs.Projections.{projection_of};
ghost use Rattle.dh_making.specs.Words.{key_of};

use crate::nodes::{one, two};
use crate::operands::Operand;
use dh_making::{EntryKey, Projection};
use dh_syntax::{Many, Op};
use std::alloc::{AllocError, Global};

impl Operand {
    /// `whole.key`
    pub fn field(alloc: Global, whole: Operand, key: EntryKey) -> Result<Operand, AllocError>
        ensures { IfOk result (λ x. operand_of x ≡ stubs.field (operand_of whole) (key_of key)) }
    {
        let op = Op::Field(key.into_label(alloc)?);
        selected(alloc, op, whole)
    }

    /// `whole.{ }`
    pub fn project_none(alloc: Global, whole: Operand) -> Result<Operand, AllocError>
        ensures { IfOk result (λ x. operand_of x ≡ stubs.project_none (operand_of whole) false) }
    {
        selected(alloc, Op::Project(Many::new(alloc)), whole)
    }

    /// `whole.{ a, b }`
    pub fn project(alloc: Global, whole: Operand, labels: Projection) -> Result<Operand, AllocError>
        ensures { IfOk result (λ x.
            operand_of x ≡ stubs.project (operand_of whole) false (projection_of labels) false) }
    {
        let op = Op::Project(labels.into_labels(alloc)?);
        selected(alloc, op, whole)
    }

    /// `whole.(type)`
    pub fn project_by(alloc: Global, whole: Operand, fields: Operand) -> Result<Operand, AllocError>
        ensures { IfOk result (λ x. operand_of x ≡ stubs.project_by (operand_of whole) (operand_of fields)) }
    {
        let part = two(alloc, Op::ProjectType, whole.part, None, fields.part)?;
        Ok(Operand { part, level: 16 })
    }
}

/// A node over an operand.
fn selected(alloc: Global, op: Op, whole: Operand) -> Result<Operand, AllocError>
    ensures { IfOk result (λ x. operand_of x ≡ at 16 (one op (operand_of whole))) }
{
    let part = one(alloc, op, whole.part)?;
    Ok(Operand { part, level: 16 })
}
