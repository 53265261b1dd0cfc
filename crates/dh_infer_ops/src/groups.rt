//! The rule of a node of this group.

ghost use Rattle.std.specs.Prelude.{◌≡◌, ◌<◌, ◌∷◌, [], map, IfOk, IfSome};
ghost use Rattle.std.specs.Option.{option_map};
ghost use Rattle.dh_syntax.specs.Typing.NamelessTyping.{core_scopes};
ghost use Rattle.dh_syntax.specs.Typing.TypeRulesOperators.{operator, operator_ruling};
ghost use Rattle.dh_store.specs.Cells.{code_core, AreBelow, AreCoded};
ghost use Rattle.dh_store.specs.Growth.{count};
ghost use Rattle.dh_types.specs.ClosedSteps.{AreTypesClosed, IsFoundClosed, IsStepClosed};
ghost use Rattle.dh_types.specs.Following.{course_of, facts_of, follow};
ghost use Rattle.dh_types.specs.Growing.{Grows};
ghost use Rattle.dh_types.specs.There.{IsFoundThere, IsStepThere};
ghost use Rattle.dh_infer_ops.specs.Drafts.{draft_of, IsDraftBelow};

use crate::drafts::{Draft, step};
use crate::equalities::{annotation, assertion, equivalence};
use crate::lists::{empty_list, list, some, text};
use crate::operators::{if_then_else, list_append, two_of};
use dh_store::{CodeId, Codes};
use dh_syntax::{BinOp, Builtin, Op};
use dh_types::{Found, Step};
use std::alloc::{AllocError, Global};

/// The rule of an operator between two expressions.
fn binary(
    alloc: Global,
    codes: &Codes,
    found: &Found,
    name: BinOp,
    l: CodeId,
    r: CodeId,
) -> Result<Option<Draft>, AllocError>
    requires coded { AreCoded codes.now }
    requires there { l < count codes.now }
    ensures rule { IfOk result (λ o. option_map (draft_of (code_core codes.now)) o ≡ option_map (follow (facts_of (code_core codes.now) found.now)) (operator core_scopes name (code_core codes.now l) (code_core codes.now r))) }
    ensures there { IfOk result (λ o. IfSome o (IsDraftBelow (count codes.now))) }
{
    match name {
        BinOp::Or | BinOp::And | BinOp::Equal | BinOp::NotEqual => {
            Ok(Some(two_of(codes, Builtin::Bool, l, r)))
        }
        BinOp::Plus | BinOp::Times => Ok(Some(two_of(codes, Builtin::Natural, l, r))),
        BinOp::TextAppend => Ok(Some(two_of(codes, Builtin::Text, l, r))),
        BinOp::ListAppend => Ok(Some(list_append(alloc, codes, l, r)?)),
        BinOp::Equivalent => Ok(Some(equivalence(alloc, codes, found, l, r)?)),
        _ => Ok(None),
    }
}

/// The rule of a node by the types of its parts; none for a node of another group.
fn draft(
    alloc: Global,
    codes: &Codes,
    found: &Found,
    op: &Op,
    types: &[CodeId],
) -> Result<Option<Draft>, AllocError>
    requires coded { AreCoded codes.now }
    requires found { IsFoundThere codes.now found.now }
    requires types { AreBelow (count codes.now) types.now }
    ensures rule { IfOk result (λ o. option_map (draft_of (code_core codes.now)) o ≡ option_map (follow (facts_of (code_core codes.now) found.now)) (operator_ruling core_scopes op.now (map (code_core codes.now) types.now))) }
    ensures there { IfOk result (λ o. IfSome o (IsDraftBelow (count codes.now))) }
{
    match op {
        Op::If => match types {
            [p, l, r] => Ok(Some(if_then_else(alloc, codes, found, *p, *l, *r)?)),
            [] => Ok(None),
            [_p] => Ok(None),
            [_p, _l] => Ok(None),
            [_p, _l, _r, _other, ..] => Ok(None),
        },
        Op::Bin(operator) => match types {
            [l, r] => binary(alloc, codes, found, *operator, *l, *r),
            [] => Ok(None),
            [_l] => Ok(None),
            [_l, _r, _other, ..] => Ok(None),
        },
        Op::EmptyList => Ok(Some(empty_list(codes, found))),
        Op::List => match types {
            [t, others @ ..] => Ok(Some(list(alloc, codes, found, *t, others)?)),
            [] => Ok(None),
        },
        Op::Some => match types {
            [t] => Ok(Some(some(codes, found, *t))),
            [] => Ok(None),
            [_t, _other, ..] => Ok(None),
        },
        Op::Text(_) => Ok(Some(text(codes, types))),
        Op::Assert => match types {
            [t] => Ok(Some(assertion(alloc, codes, found, *t)?)),
            [] => Ok(None),
            [_t, _other, ..] => Ok(None),
        },
        Op::Annot => match types {
            [t, ..] => Ok(Some(annotation(alloc, codes, found, *t)?)),
            [] => Ok(None),
        },
        _ => Ok(None),
    }
}

/// How far the rule of a node goes.
fn answer(
    alloc: Global,
    codes: &mut Codes,
    found: &Found,
    op: &Op,
    types: &[CodeId],
) -> Result<Option<Step>, AllocError>
    requires coded { AreCoded codes.old }
    requires found { IsFoundThere codes.old found.now }
    requires types { AreBelow (count codes.old) types.now }
    ensures grows { Grows codes.old codes.new }
    ensures rule { IfOk result (λ s. option_map (course_of (code_core codes.new)) s ≡ option_map (follow (facts_of (code_core codes.old) found.now)) (operator_ruling core_scopes op.now (map (code_core codes.old) types.now))) }
    ensures there { IfOk result (λ s. IfSome s (IsStepThere codes.new)) }
{
    match draft(alloc, codes, found, op, types)? {
        Some(draft) => Ok(Some(step(alloc, codes, draft)?)),
        None => Ok(None),
    }
}

/// How far the rule of a node goes, by the types of its parts and what is known beside them; none for a node of another group.
pub fn operator_step(
    alloc: Global,
    codes: &mut Codes,
    found: &Found,
    op: &Op,
    types: &[CodeId],
) -> Result<Option<Step>, AllocError>
    requires coded { AreCoded codes.old }
    requires found { IsFoundThere codes.old found.now }
    requires types { AreBelow (count codes.old) types.now }
    requires closed { AreTypesClosed (code_core codes.old) types.now }
    requires found_closed { IsFoundClosed (code_core codes.old) found.now }
    ensures grows { Grows codes.old codes.new }
    ensures rule { IfOk result (λ s. option_map (course_of (code_core codes.new)) s ≡ option_map (follow (facts_of (code_core codes.old) found.now)) (operator_ruling core_scopes op.now (map (code_core codes.old) types.now))) }
    ensures there { IfOk result (λ s. IfSome s (IsStepThere codes.new)) }
    ensures closed { IfOk result (λ s. IfSome s (IsStepClosed (code_core codes.new))) }
{
    answer(alloc, codes, found, op, types)
}
