//! What a node is to a walk.

ghost use Rattle.std.specs.Prelude.{◌≡◌};
ghost use Rattle.dh_demand.specs.Inside.Parts.{part_of};

use dh_syntax::{BinOp, Op};

/// What a node is to a walk.
#[derive(Clone, Copy)]
pub(crate) enum Part {
    Import,
    /// `l ? r`
    Choice,
    Other,
}

/// What a node with this operator is to a walk.
pub(crate) fn node_part(op: &Op) -> Part
    ensures { result ≡ part_of op.now }
{
    match op {
        Op::Import(_) => Part::Import,
        Op::Bin(BinOp::Fallback) => Part::Choice,
        Op::Bin(_) => Part::Other,
        Op::Builtin(_) | Op::Bool(_) | Op::Nat(_) | Op::Int(_) | Op::Text(_) => Part::Other,
        Op::Lam | Op::Pi | Op::Let(_) | Op::App | Op::If => Part::Other,
        Op::EmptyList | Op::List | Op::Some | Op::Merge(_) | Op::RecordType(_) => Part::Other,
        Op::Record(_) | Op::Field(_) | Op::Project(_) | Op::ProjectType => Part::Other,
        Op::Union(_) | Op::Assert | Op::Annot | Op::ToMap(_) | Op::With(_) => Part::Other,
    }
}
