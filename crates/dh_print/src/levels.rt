//! The levels of the grammar, from the one at which any expression may stand to that of the primitives.
ghost use Rattle.std.specs.Prelude.{◌≡◌};
ghost use Rattle.dh_syntax.specs.Expressions.Arity.{IsWellFormed, AreWellFormed};
ghost use Rattle.dh_syntax.specs.Expressions.Bridge.{term, row_of};
ghost use Rattle.dh_syntax.specs.Text.Printed.{layout};
ghost use Rattle.dh_print.specs.Inside.Levels.{level_by_op, is_bare_op, IsLevelBeforeAnnotation};

use dh_syntax::{Expr, Kid, Op};

/// Where any expression may stand.
pub const ANY: u32 = 0;
/// Where any operator may stand, and no form that runs on to the right.
pub const OPERATOR: u32 = 1;
/// Where an application may stand.
pub const APPLICATION: u32 = 14;
/// Where an import or a completion may stand.
pub const IMPORT: u32 = 15;
/// Where a selection may stand.
pub const SELECTION: u32 = 16;
/// Where only a primitive may stand.
pub const PRIMITIVE: u32 = 17;

/// The level of an expression.
pub fn level(e: &Expr) -> u32
    requires { IsWellFormed (term e.now) }
    ensures { result ≡ (layout (term e.now)).level }
{
    match e {
        Expr::Var(_, _) => PRIMITIVE,
        Expr::Node(op, _) => op_level(op),
    }
}

/// The level at which the first part of an annotation is needed. A `merge` or a `toMap` without annotation would take
/// this one for its own.
pub fn level_before_annotation(kids: &[Kid]) -> u32
    requires { AreWellFormed (row_of kids.now) }
    ensures { IsLevelBeforeAnnotation result (row_of kids.now) }
{
    match kids {
        [] => OPERATOR,
        [first, ..] => {
            if is_bare(&first.body) {
                IMPORT
            } else {
                OPERATOR
            }
        }
    }
}

/// Whether an expression is a `merge` or a `toMap` without annotation, which an annotation behind it would belong to.
fn is_bare(e: &Expr) -> bool
    requires { IsWellFormed (term e.now) }
    ensures { result ≡ (layout (term e.now)).bare }
{
    match e {
        Expr::Var(_, _) => false,
        Expr::Node(op, _) => is_bare_op(op),
    }
}

/// The level of a node that has its parts.
fn op_level(op: &Op) -> u32
    ensures { result ≡ level_by_op op.now }
{
    match op {
        Op::Builtin(_) | Op::Bool(_) | Op::Nat(_) | Op::Int(_) | Op::Text(_) => PRIMITIVE,
        Op::List | Op::RecordType(_) | Op::Record(_) | Op::Union(_) => PRIMITIVE,
        Op::Field(_) | Op::Project(_) | Op::ProjectType => SELECTION,
        Op::Import(_) => IMPORT,
        Op::App | Op::Some | Op::Merge(false) | Op::ToMap(false) => APPLICATION,
        Op::Bin(operator) => operator.level(),
        Op::Lam | Op::Pi | Op::Let(_) | Op::If | Op::EmptyList | Op::Merge(true) => ANY,
        Op::Assert | Op::Annot | Op::ToMap(true) | Op::With(_) => ANY,
    }
}

fn is_bare_op(op: &Op) -> bool
    ensures { result ≡ is_bare_op op.now }
{
    matches!(op, Op::Merge(false) | Op::ToMap(false))
}
