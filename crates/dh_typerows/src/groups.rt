//! The rule of a node of this group.

ghost use Rattle.std.specs.Prelude.{◌≡◌, length, map, true, false, IfOk, IfSome};
ghost use Rattle.std.specs.Option.{option_map};
ghost use Rattle.dh_syntax.specs.Typing.NamelessTyping.{core_scopes};
ghost use Rattle.dh_syntax.specs.Typing.TypeRulesUnions.{record_ruling};
ghost use Rattle.dh_store.specs.Cells.{code_core, AreBelow, AreCoded};
ghost use Rattle.dh_store.specs.Growth.{count};
ghost use Rattle.dh_types.specs.Closed.{IsClosed};
ghost use Rattle.dh_types.specs.ClosedSteps.{AreTypesClosed, IsFoundClosed, IsStepClosed};
ghost use Rattle.dh_types.specs.Following.{course_of, facts_of, follow};
ghost use Rattle.dh_types.specs.Growing.{Grows};
ghost use Rattle.dh_types.specs.There.{IsFoundThere, IsStepThere};
ghost use Rattle.dh_typerows.specs.Drafts.{draft_of, IsDraftBelow};
ghost use Rattle.dh_typerows.specs.Groups.{is_making, is_named_op, IsLabelled};

use crate::combining::{combine, combine_types};
use crate::drafts::{Draft, step};
use crate::maps::to_map;
use crate::merges::merge;
use crate::preferring::prefer;
use crate::records::{projection, record_literal, typed_projection};
use crate::unions::selection;
use crate::universes::greatest_of;
use crate::updates::update;
use dh_store::{CodeId, Codes};
use dh_syntax::{BinOp, Op};
use dh_types::{Found, Step, rules};
use std::alloc::{AllocError, Global};

/// The rule of a node whose type may have labels of its own, by the types of its parts.
fn labelled(
    alloc: Global,
    codes: &Codes,
    found: &Found,
    op: &Op,
    types: &[CodeId],
) -> Result<Option<Draft>, AllocError>
    requires coded { AreCoded codes.now }
    requires found { IsFoundThere codes.now found.now }
    requires types { AreBelow (count codes.now) types.now }
    requires labelled { IsLabelled op.now (length types.now) }
    requires closed { IfSome found.now.first (λ c. IsClosed (code_core codes.now c)) }
    requires named { is_named_op op.now ≡ true }
    ensures rule { IfOk result (λ o. option_map (draft_of (code_core codes.now)) o ≡ option_map (follow (facts_of (code_core codes.now) found.now)) (record_ruling core_scopes op.now (map (code_core codes.now) types.now))) }
    ensures there { IfOk result (λ o. IfSome o (IsDraftBelow (count codes.now))) }
{
    match op {
        Op::Record(labels) => Ok(Some(record_literal(alloc, codes, labels, types)?)),
        Op::Field(x) => match types {
            [t] => Ok(Some(selection(alloc, codes, found, x, *t)?)),
            [] => Ok(None),
            [_t, _other, ..] => Ok(None),
        },
        Op::Project(xs) => match types {
            [t] => Ok(Some(projection(alloc, codes, xs, *t)?)),
            [] => Ok(None),
            [_t, _other, ..] => Ok(None),
        },
        Op::Bin(BinOp::Prefer) => match types {
            [l, r] => Ok(Some(prefer(alloc, codes, *l, *r)?)),
            [] => Ok(None),
            [_l] => Ok(None),
            [_l, _r, _other, ..] => Ok(None),
        },
        _ => Ok(None),
    }
}

/// The rule of another node, by the types of its parts.
fn unlabelled(
    alloc: Global,
    codes: &Codes,
    found: &Found,
    op: &Op,
    types: &[CodeId],
) -> Result<Option<Draft>, AllocError>
    requires coded { AreCoded codes.now }
    requires found { IsFoundThere codes.now found.now }
    requires types { AreBelow (count codes.now) types.now }
    requires closed { AreTypesClosed (code_core codes.now) types.now }
    requires unnamed { is_named_op op.now ≡ false }
    requires settled { is_making op.now ≡ false }
    ensures rule { IfOk result (λ o. option_map (draft_of (code_core codes.now)) o ≡ option_map (follow (facts_of (code_core codes.now) found.now)) (record_ruling core_scopes op.now (map (code_core codes.now) types.now))) }
    ensures there { IfOk result (λ o. IfSome o (IsDraftBelow (count codes.now))) }
{
    match op {
        Op::RecordType(_) => Ok(Some(greatest_of(codes, rules::FIELD_TYPE_NO_UNIVERSE, types))),
        Op::Union(_) => Ok(Some(greatest_of(codes, rules::ALTERNATIVE_NO_UNIVERSE, types))),
        Op::ProjectType => match types {
            [t, _u] => Ok(Some(typed_projection(alloc, codes, found, *t)?)),
            [] => Ok(None),
            [_t] => Ok(None),
            [_t, _u, _other, ..] => Ok(None),
        },
        Op::Merge(annotated) => match types {
            [h, u, ..] => Ok(Some(merge(alloc, codes, found, *annotated, *h, *u)?)),
            [] => Ok(None),
            [_h] => Ok(None),
        },
        Op::ToMap(annotated) => match types {
            [t, ..] => Ok(Some(to_map(alloc, codes, found, *annotated, *t)?)),
            [] => Ok(None),
        },
        _ => Ok(None),
    }
}

/// Whether the type of a node of this group may have labels of its own.
fn is_named_op(op: &Op) -> bool
    ensures { result ≡ is_named_op op.now }
{
    matches!(
        op,
        Op::Record(_) | Op::Field(_) | Op::Project(_) | Op::Bin(BinOp::Prefer)
    )
}

/// The rule of a node by the types of its parts.
fn draft(
    alloc: Global,
    codes: &Codes,
    found: &Found,
    op: &Op,
    types: &[CodeId],
) -> Result<Option<Draft>, AllocError>
    requires coded { AreCoded codes.now }
    requires found { IsFoundThere codes.now found.now }
    requires types { AreBelow (count codes.now) types.now }
    requires labelled { IsLabelled op.now (length types.now) }
    requires closed { AreTypesClosed (code_core codes.now) types.now }
    requires found_closed { IfSome found.now.first (λ c. IsClosed (code_core codes.now c)) }
    requires settled { is_making op.now ≡ false }
    ensures rule { IfOk result (λ o. option_map (draft_of (code_core codes.now)) o ≡ option_map (follow (facts_of (code_core codes.now) found.now)) (record_ruling core_scopes op.now (map (code_core codes.now) types.now))) }
    ensures there { IfOk result (λ o. IfSome o (IsDraftBelow (count codes.now))) }
{
    if is_named_op(op) {
        labelled(alloc, codes, found, op, types)
    } else {
        unlabelled(alloc, codes, found, op, types)
    }
}

/// How far the rule of a node goes that joins record types or sets a path.
fn making(
    alloc: Global,
    codes: &mut Codes,
    found: &Found,
    op: &Op,
    types: &[CodeId],
) -> Result<Option<Step>, AllocError>
    requires coded { AreCoded codes.old }
    requires found { IsFoundThere codes.old found.now }
    requires types { AreBelow (count codes.old) types.now }
    requires making { is_making op.now ≡ true }
    ensures grows { Grows codes.old codes.new }
    ensures rule { IfOk result (λ s. option_map (course_of (code_core codes.new)) s ≡ option_map (follow (facts_of (code_core codes.old) found.now)) (record_ruling core_scopes op.now (map (code_core codes.old) types.now))) }
    ensures there { IfOk result (λ s. IfSome s (IsStepThere codes.new)) }
{
    match op {
        Op::Bin(BinOp::Combine) => match types {
            [l, r] => Ok(Some(combine(alloc, codes, *l, *r)?)),
            [] => Ok(None),
            [_l] => Ok(None),
            [_l, _r, _other, ..] => Ok(None),
        },
        Op::Bin(BinOp::CombineTypes) => match types {
            [t, u] => Ok(Some(combine_types(alloc, codes, found, *t, *u)?)),
            [] => Ok(None),
            [_t] => Ok(None),
            [_t, _u, _other, ..] => Ok(None),
        },
        Op::With(path) => match types {
            [t, v] => Ok(Some(update(alloc, codes, path.as_slice(), *t, *v)?)),
            [] => Ok(None),
            [_t] => Ok(None),
            [_t, _v, _other, ..] => Ok(None),
        },
        _ => Ok(None),
    }
}

/// Whether a node of this group joins record types or sets a path.
fn is_making(op: &Op) -> bool
    ensures { result ≡ is_making op.now }
{
    matches!(
        op,
        Op::Bin(BinOp::Combine | BinOp::CombineTypes) | Op::With(_)
    )
}

/// How far the rule of a node goes.
fn answer(
    alloc: Global,
    codes: &mut Codes,
    found: &Found,
    op: &Op,
    types: &[CodeId],
) -> Result<Option<Step>, AllocError>
    requires coded { AreCoded codes.old }
    requires found { IsFoundThere codes.old found.now }
    requires types { AreBelow (count codes.old) types.now }
    requires labelled { IsLabelled op.now (length types.now) }
    requires closed { AreTypesClosed (code_core codes.old) types.now }
    requires found_closed { IsFoundClosed (code_core codes.old) found.now }
    ensures grows { Grows codes.old codes.new }
    ensures rule { IfOk result (λ s. option_map (course_of (code_core codes.new)) s ≡ option_map (follow (facts_of (code_core codes.old) found.now)) (record_ruling core_scopes op.now (map (code_core codes.old) types.now))) }
    ensures there { IfOk result (λ s. IfSome s (IsStepThere codes.new)) }
{
    if is_making(op) {
        return making(alloc, codes, found, op, types);
    }
    match draft(alloc, codes, found, op, types)? {
        Some(draft) => Ok(Some(step(alloc, codes, draft)?)),
        None => Ok(None),
    }
}

/// How far the rule of a node goes, by the types of its parts and what is known beside them; none for a node of another group.
pub fn row_step(
    alloc: Global,
    codes: &mut Codes,
    found: &Found,
    op: &Op,
    types: &[CodeId],
) -> Result<Option<Step>, AllocError>
    requires coded { AreCoded codes.old }
    requires found { IsFoundThere codes.old found.now }
    requires types { AreBelow (count codes.old) types.now }
    requires labelled { IsLabelled op.now (length types.now) }
    requires closed { AreTypesClosed (code_core codes.old) types.now }
    requires found_closed { IsFoundClosed (code_core codes.old) found.now }
    ensures grows { Grows codes.old codes.new }
    ensures rule { IfOk result (λ s. option_map (course_of (code_core codes.new)) s ≡ option_map (follow (facts_of (code_core codes.old) found.now)) (record_ruling core_scopes op.now (map (code_core codes.old) types.now))) }
    ensures there { IfOk result (λ s. IfSome s (IsStepThere codes.new)) }
    ensures closed { IfOk result (λ s. IfSome s (IsStepClosed (code_core codes.new))) }
{
    answer(alloc, codes, found, op, types)
}
