//! Annotations.
ghost use Rattle.std.specs.Prelude.{◌≡◌, IfOk};
ghost use Rattle.dh_grammar.specs.Stubs.{stubs, note_on};
ghost use Rattle.dh_operands.specs.Inside.Nodes.{with_annotation};
ghost use Rattle.dh_operands.specs.Operands.{part_of, operand_of};
ghost use Rattle.dh_syntax.specs.Expressions.Bridge.{term};

use crate::gathering::Gathering;
use crate::nodes::two;
use crate::operands::Operand;
use crate::parts::Part;
use dh_syntax::{Expr, Op};
use std::alloc::{AllocError, Global};

impl Operand {
    /// `value : annotation`. That of `merge` or `toMap` without brackets is their own.
    pub fn noting(alloc: Global, value: Operand, annotation: Operand) -> Result<Operand, AllocError>
        ensures { IfOk result (λ x. operand_of x ≡ stubs.noting (operand_of value) (operand_of annotation)) }
    {
        let part = if value.level == 14 {
            noted(alloc, value.part, annotation.part)?
        } else {
            two(alloc, Op::Annot, value.part, None, annotation.part)?
        };
        Ok(Operand { part, level: 0 })
    }
}

/// An annotation on a part that is no bracketed `merge` or `toMap`.
fn noted(alloc: Global, value: Part, annotation: Part) -> Result<Part, AllocError>
    ensures { IfOk result (λ p. part_of p ≡ note_on (term value.expression) (part_of value) (part_of annotation)) }
{
    let Part { expression, nests } = value;
    match expression {
        Expr::Node(op, kids) => match with_annotation(&op) {
            Some(annotated) => {
                let mut parts = Gathering { kids, nests };
                parts.push(None, annotation)?;
                Ok(parts.finish(alloc, annotated))
            }
            None => {
                let expression = Expr::Node(op, kids);
                let value = Part { expression, nests };
                two(alloc, Op::Annot, value, None, annotation)
            }
        },
        Expr::Var(label, index) => {
            let expression = Expr::Var(label, index);
            let value = Part { expression, nests };
            two(alloc, Op::Annot, value, None, annotation)
        }
    }
}

/// `merge` or `toMap` with an annotation, where it is one of them without.
fn with_annotation(op: &Op) -> Option<Op>
    ensures { result ≡ with_annotation op.now }
{
    match op {
        Op::Merge(false) => Some(Op::Merge(true)),
        Op::ToMap(false) => Some(Op::ToMap(true)),
        Op::Merge(true) | Op::ToMap(true) => None,
        Op::Builtin(_) | Op::Bool(_) | Op::Nat(_) | Op::Int(_) | Op::Text(_) => None,
        Op::Import(_) | Op::Lam | Op::Pi | Op::Let(_) | Op::App | Op::If => None,
        Op::Bin(_) | Op::EmptyList | Op::List | Op::Some => None,
        Op::RecordType(_) | Op::Record(_) | Op::Field(_) | Op::Project(_) => None,
        Op::ProjectType | Op::Union(_) | Op::Assert | Op::Annot | Op::With(_) => None,
    }
}
