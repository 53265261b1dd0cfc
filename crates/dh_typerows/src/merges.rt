//! `merge`.

ghost use Rattle.std.specs.Prelude.{◌≡◌, ◌<◌, length, true, Option, Some, None, IfOk, IfSome};
ghost use Rattle.std.specs.Option.{option_map};
ghost use Rattle.dh_syntax.specs.Names.Nameless.{Core};
ghost use Rattle.dh_syntax.specs.Typing.NamelessTyping.{core_scopes};
ghost use Rattle.dh_syntax.specs.Typing.TypeRuling.{Ruling};
ghost use Rattle.dh_syntax.specs.Typing.TypeRulesUnions as rules_of;
ghost use Rattle.dh_syntax.specs.Typing.TypeViews.{optional_alternatives};
ghost use Rattle.dh_store.specs.Cells.{code_core, AreCoded, AreKidsBelow};
ghost use Rattle.dh_store.specs.Growth.{count};
ghost use Rattle.dh_types.specs.Closed.{AreClosedTypes, IsClosed};
ghost use Rattle.dh_types.specs.Following.{facts_of, follow, Facts};
ghost use Rattle.dh_types.specs.Parts.{alternatives_of, fields_of};
ghost use Rattle.dh_types.specs.There.{IsFoundThere};
ghost use Rattle.dh_typerows.specs.Drafts.{draft_of, IsDraftBelow};
ghost use Rattle.dh_typerows.specs.Merging.{beside, handled_all, handled_by, merged_with, result_course, results_course};

use crate::drafts::Draft;
use crate::labels::{are_labels, are_optional_labels};
use crate::unions::split;
use dh_store::{CodeId, CodeKid, Codes};
use dh_syntax::{Alt, Builtin, Label};
use dh_types::{Found, argument_of, forall, record_type, rules, same, seen_outside, union_type};
use std::alloc::{AllocError, Global};

/// The result of a handler for an alternative with this type.
fn result_of(
    alloc: Global,
    codes: &Codes,
    t: CodeId,
    h: CodeId,
) -> Result<Result<CodeId, u8>, AllocError>
    requires coded { AreCoded codes.now }
    requires there { h < count codes.now }
    requires closed { IsClosed (code_core codes.now h) }
    ensures rule { IfOk result (λ o. (facts : Facts Core) (next : Core → Ruling Core) → follow facts (rules_of.handled core_scopes (Some (code_core codes.now t)) (code_core codes.now h) next) ≡ result_course (code_core codes.now) o (λ r. follow facts (next r))) }
    ensures there { IfOk result (λ o. IfOk o (λ r. r < count codes.now)) }
{
    match forall(codes, h) {
        Some((domain, _, range)) => {
            if !same(alloc, codes, domain, t)? {
                return Ok(Err(rules::HANDLER_NO_FUNCTION));
            }
            match seen_outside(alloc, codes, range)? {
                Some(result) => Ok(Ok(result)),
                None => Ok(Err(rules::HANDLER_RESULT_DEPENDS)),
            }
        }
        None => Ok(Err(rules::HANDLER_NO_FUNCTION)),
    }
}

/// The result of a handler for an alternative with or without a type.
fn handled(
    alloc: Global,
    codes: &Codes,
    t: Option<CodeId>,
    h: CodeId,
) -> Result<Result<CodeId, u8>, AllocError>
    requires coded { AreCoded codes.now }
    requires there { h < count codes.now }
    requires closed { IsClosed (code_core codes.now h) }
    ensures rule { IfOk result (λ o. (facts : Facts Core) (next : Core → Ruling Core) → follow facts (rules_of.handled core_scopes (option_map (code_core codes.now) t) (code_core codes.now h) next) ≡ result_course (code_core codes.now) o (λ r. follow facts (next r))) }
    ensures there { IfOk result (λ o. IfOk o (λ r. r < count codes.now)) }
{
    match t {
        Some(t) => result_of(alloc, codes, t, h),
        None => Ok(Ok(h)),
    }
}

/// A result beside the one of the handlers before, if there is one: the first one.
fn agreed(
    alloc: Global,
    codes: &Codes,
    before: Option<CodeId>,
    r: CodeId,
) -> Result<Result<CodeId, u8>, AllocError>
    requires coded { AreCoded codes.now }
    requires before { IfSome before (λ q. q < count codes.now) }
    requires there { r < count codes.now }
    ensures rule { IfOk result (λ o. (facts : Facts Core) (next : Core → Ruling Core) → follow facts (rules_of.agreed core_scopes (option_map (code_core codes.now) before) (code_core codes.now r) next) ≡ result_course (code_core codes.now) o (λ r. follow facts (next r))) }
    ensures there { IfOk result (λ o. IfOk o (λ r. r < count codes.now)) }
{
    match before {
        Some(q) => {
            if same(alloc, codes, q, r)? {
                Ok(Ok(q))
            } else {
                Ok(Err(rules::HANDLER_RESULTS_DIFFER))
            }
        }
        None => Ok(Ok(r)),
    }
}

/// The result of one more handler, beside that of those before.
fn next_result(
    alloc: Global,
    codes: &Codes,
    before: Option<CodeId>,
    t: Option<CodeId>,
    h: CodeId,
) -> Result<Result<CodeId, u8>, AllocError>
    requires coded { AreCoded codes.now }
    requires before { IfSome before (λ q. q < count codes.now) }
    requires there { h < count codes.now }
    requires closed { IsClosed (code_core codes.now h) }
    ensures rule { IfOk result (λ o. (facts : Facts Core) (next : Core → Ruling Core) → follow facts (handled_by core_scopes (option_map (code_core codes.now) before) (option_map (code_core codes.now) t) (code_core codes.now h) next) ≡ result_course (code_core codes.now) o (λ r. follow facts (next r))) }
    ensures there { IfOk result (λ o. IfOk o (λ r. r < count codes.now)) }
{
    match handled(alloc, codes, t, h)? {
        Ok(r) => agreed(alloc, codes, before, r),
        Err(rule) => Ok(Err(rule)),
    }
}

/// The result of all handlers, one after the other; none where there is no handler.
fn all_handled(
    alloc: Global,
    codes: &Codes,
    labels: &[Label],
    handlers: &[CodeKid],
    alts: &[Alt],
    types: &[CodeKid],
) -> Result<Result<Option<CodeId>, u8>, AllocError>
    requires coded { AreCoded codes.now }
    requires paired { length labels.now ≡ length handlers.now }
    requires counted { length labels.now ≡ length alts.now }
    requires there { AreKidsBelow (count codes.now) handlers.now }
    requires closed { AreClosedTypes (code_core codes.now) handlers.now }
    ensures rule { IfOk result (λ o. (facts : Facts Core) (next : Option Core → Ruling Core) → follow facts (rules_of.all_handled core_scopes None (fields_of (code_core codes.now) labels.now handlers.now) (alternatives_of (code_core codes.now) alts.now types.now) next) ≡ results_course (code_core codes.now) o (λ r. follow facts (next r))) }
    ensures there { IfOk result (λ o. IfOk o (λ r. IfSome r (λ q. q < count codes.now))) }
{
    let mut outcome = None;
    let mut rest = types;
    for i in 0..handlers.len() {
        let (t, others) = split(&alts[i], rest);
        match next_result(alloc, codes, outcome, t, handlers[i].code)? {
            Ok(r) => outcome = Some(r),
            Err(rule) => return Ok(Err(rule)),
        }
        rest = others;
    }
    Ok(Ok(outcome))
}

/// The result of all handlers beside the annotation, in normal form.
fn beside(alloc: Global, codes: &Codes, r: CodeId, t: CodeId) -> Result<Draft, AllocError>
    requires coded { AreCoded codes.now }
    requires there { r < count codes.now }
    ensures rule { IfOk result (λ d. (facts : Facts Core) → draft_of (code_core codes.now) d ≡ follow facts (beside core_scopes (code_core codes.now r) (code_core codes.now t))) }
    ensures there { IfOk result (λ d. IsDraftBelow (count codes.now) d) }
{
    if same(alloc, codes, r, t)? {
        Ok(Draft::Takes(r))
    } else {
        Ok(Draft::Refuses(rules::MERGE_ANNOTATION))
    }
}

/// The type of a `merge` with an annotation, and with or without a result of its handlers.
fn annotated_merge(
    alloc: Global,
    codes: &Codes,
    found: &Found,
    outcome: Option<CodeId>,
) -> Result<Draft, AllocError>
    requires coded { AreCoded codes.now }
    requires found { IsFoundThere codes.now found.now }
    requires there { IfSome outcome (λ r. r < count codes.now) }
    ensures rule { IfOk result (λ d. draft_of (code_core codes.now) d ≡ follow (facts_of (code_core codes.now) found.now) (rules_of.merged core_scopes true (option_map (code_core codes.now) outcome))) }
    ensures there { IfOk result (λ d. IsDraftBelow (count codes.now) d) }
{
    match found.third {
        Some(annotation) => match outcome {
            Some(r) => beside(alloc, codes, r, annotation),
            None => Ok(Draft::Takes(annotation)),
        },
        None => Ok(Draft::WantsNormal(2)),
    }
}

/// The type of a `merge` with or without annotation, and with or without a result of its handlers.
fn merged(
    alloc: Global,
    codes: &Codes,
    found: &Found,
    annotated: bool,
    outcome: Option<CodeId>,
) -> Result<Draft, AllocError>
    requires coded { AreCoded codes.now }
    requires found { IsFoundThere codes.now found.now }
    requires there { IfSome outcome (λ r. r < count codes.now) }
    ensures rule { IfOk result (λ d. draft_of (code_core codes.now) d ≡ follow (facts_of (code_core codes.now) found.now) (rules_of.merged core_scopes annotated (option_map (code_core codes.now) outcome))) }
    ensures there { IfOk result (λ d. IsDraftBelow (count codes.now) d) }
{
    if annotated {
        return annotated_merge(alloc, codes, found, outcome);
    }
    match outcome {
        Some(r) => Ok(Draft::Takes(r)),
        None => Ok(Draft::Refuses(rules::MERGE_EMPTY)),
    }
}

/// A `merge` of a union with these alternatives, whose handlers have these types.
fn merge_union(
    alloc: Global,
    codes: &Codes,
    found: &Found,
    annotated: bool,
    labels: &[Label],
    handlers: &[CodeKid],
    alts: &[Alt],
    types: &[CodeKid],
) -> Result<Draft, AllocError>
    requires coded { AreCoded codes.now }
    requires found { IsFoundThere codes.now found.now }
    requires paired { length labels.now ≡ length handlers.now }
    requires there { AreKidsBelow (count codes.now) handlers.now }
    requires closed { AreClosedTypes (code_core codes.now) handlers.now }
    ensures rule { IfOk result (λ d. draft_of (code_core codes.now) d ≡ follow (facts_of (code_core codes.now) found.now) (handled_all core_scopes annotated (fields_of (code_core codes.now) labels.now handlers.now) (alternatives_of (code_core codes.now) alts.now types.now))) }
    ensures there { IfOk result (λ d. IsDraftBelow (count codes.now) d) }
{
    if !are_labels(labels, alts) {
        return Ok(Draft::Refuses(rules::HANDLER_LABELS));
    }
    match all_handled(alloc, codes, labels, handlers, alts, types)? {
        Ok(outcome) => merged(alloc, codes, found, annotated, outcome),
        Err(rule) => Ok(Draft::Refuses(rule)),
    }
}

/// The results of the handlers of an optional value whose type is `Optional t`: of `None`, and of `Some`.
fn both_handled(
    alloc: Global,
    codes: &Codes,
    none: CodeId,
    some: CodeId,
    t: CodeId,
) -> Result<Result<CodeId, u8>, AllocError>
    requires coded { AreCoded codes.now }
    requires none { none < count codes.now }
    requires some { some < count codes.now }
    requires closed { IsClosed (code_core codes.now some) }
    ensures rule { IfOk result (λ o. (facts : Facts Core) (next : Core → Ruling Core) → follow facts (handled_by core_scopes (Some (code_core codes.now none)) (Some (code_core codes.now t)) (code_core codes.now some) next) ≡ result_course (code_core codes.now) o (λ r. follow facts (next r))) }
    ensures there { IfOk result (λ o. IfOk o (λ r. r < count codes.now)) }
{
    next_result(alloc, codes, Some(none), Some(t), some)
}

/// A `merge` of an optional value whose type is `Optional t`.
fn merge_optional(
    alloc: Global,
    codes: &Codes,
    found: &Found,
    annotated: bool,
    labels: &[Label],
    handlers: &[CodeKid],
    t: CodeId,
) -> Result<Draft, AllocError>
    requires coded { AreCoded codes.now }
    requires found { IsFoundThere codes.now found.now }
    requires paired { length labels.now ≡ length handlers.now }
    requires there { AreKidsBelow (count codes.now) handlers.now }
    requires closed { AreClosedTypes (code_core codes.now) handlers.now }
    ensures rule { IfOk result (λ d. draft_of (code_core codes.now) d ≡ follow (facts_of (code_core codes.now) found.now) (handled_all core_scopes annotated (fields_of (code_core codes.now) labels.now handlers.now) (optional_alternatives (code_core codes.now t)))) }
    ensures there { IfOk result (λ d. IsDraftBelow (count codes.now) d) }
{
    if !are_optional_labels(labels) {
        return Ok(Draft::Refuses(rules::HANDLER_LABELS));
    }
    match handlers {
        [none, some] => match both_handled(alloc, codes, none.code, some.code, t)? {
            Ok(outcome) => merged(alloc, codes, found, annotated, Some(outcome)),
            Err(rule) => Ok(Draft::Refuses(rule)),
        },
        [] => Ok(Draft::Refuses(rules::HANDLER_LABELS)),
        [_none] => Ok(Draft::Refuses(rules::HANDLER_LABELS)),
        [_none, _some, _other, ..] => Ok(Draft::Refuses(rules::HANDLER_LABELS)),
    }
}

/// A `merge` of a union or an optional value of this type, whose handlers have these types.
fn merge_with(
    alloc: Global,
    codes: &Codes,
    found: &Found,
    annotated: bool,
    labels: &[Label],
    handlers: &[CodeKid],
    u: CodeId,
) -> Result<Draft, AllocError>
    requires coded { AreCoded codes.now }
    requires found { IsFoundThere codes.now found.now }
    requires paired { length labels.now ≡ length handlers.now }
    requires there { AreKidsBelow (count codes.now) handlers.now }
    requires closed { AreClosedTypes (code_core codes.now) handlers.now }
    ensures rule { IfOk result (λ d. draft_of (code_core codes.now) d ≡ follow (facts_of (code_core codes.now) found.now) (merged_with core_scopes annotated (fields_of (code_core codes.now) labels.now handlers.now) (code_core codes.now u))) }
    ensures there { IfOk result (λ d. IsDraftBelow (count codes.now) d) }
{
    match union_type(codes, u) {
        Some((alts, types)) => {
            merge_union(
                alloc, codes, found, annotated, labels, handlers, alts, types,
            )
        }
        None => match argument_of(codes, Builtin::Optional, u) {
            Some(t) => merge_optional(alloc, codes, found, annotated, labels, handlers, t),
            None => Ok(Draft::Refuses(rules::MERGE_NO_UNION)),
        },
    }
}

/// `merge h u`, with or without annotation, where h and u have these types.
pub(crate) fn merge(
    alloc: Global,
    codes: &Codes,
    found: &Found,
    annotated: bool,
    h: CodeId,
    u: CodeId,
) -> Result<Draft, AllocError>
    requires coded { AreCoded codes.now }
    requires found { IsFoundThere codes.now found.now }
    requires there { h < count codes.now }
    requires closed { IsClosed (code_core codes.now h) }
    ensures rule { IfOk result (λ d. draft_of (code_core codes.now) d ≡ follow (facts_of (code_core codes.now) found.now) (rules_of.merge core_scopes annotated (code_core codes.now h) (code_core codes.now u))) }
    ensures there { IfOk result (λ d. IsDraftBelow (count codes.now) d) }
{
    match record_type(codes, h) {
        Some((labels, handlers)) => merge_with(alloc, codes, found, annotated, labels, handlers, u),
        None => Ok(Draft::Refuses(rules::HANDLERS_NO_RECORD)),
    }
}
