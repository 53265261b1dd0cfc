//! `∧` and `⩓`: record types joined into one.

ghost use Rattle.std.specs.Prelude.{◌≡◌, ◌<◌, ℕ, true, false, IfOk, IfSome, is_some};
ghost use Rattle.dh_syntax.specs.Expressions.Views.{as_record_type};
ghost use Rattle.dh_syntax.specs.Names.Nameless.{Core};
ghost use Rattle.dh_syntax.specs.Typing.NamelessTyping.{core_scopes};
ghost use Rattle.dh_syntax.specs.Typing.TypeRulesRecords as rules_of;
ghost use Rattle.dh_store.specs.Cells.{code_core, AreCoded};
ghost use Rattle.dh_store.specs.Growth.{count};
ghost use Rattle.dh_types.specs.Following.{course_of, facts_of, follow, Facts};
ghost use Rattle.dh_types.specs.Growing.{Grows};
ghost use Rattle.dh_types.specs.There.{IsFoundThere, IsStepThere};
ghost use Rattle.dh_typerows.specs.Combining as parts_of;

use crate::joins::joined;
use crate::universes::greater;
use dh_store::{CodeId, Codes};
use dh_syntax::Builtin;
use dh_types::{Found, Step, constant, record_type, rules, universe_of};
use std::alloc::{AllocError, Global};

/// Whether a code is a record type.
fn is_record_type(codes: &Codes, id: CodeId) -> bool
    requires coded { AreCoded codes.now }
    ensures { result ≡ is_some (as_record_type (code_core codes.now id)) }
{
    record_type(codes, id).is_some()
}

/// The type of `l ∧ r`, whose sides have these types, which are record types.
fn combined(alloc: Global, codes: &mut Codes, l: CodeId, r: CodeId) -> Result<Step, AllocError>
    requires coded { AreCoded codes.old }
    requires left { l < count codes.old }
    requires right { r < count codes.old }
    ensures grows { Grows codes.old codes.new }
    ensures rule { IfOk result (λ s. (facts : Facts Core) → course_of (code_core codes.new) s ≡ follow facts (parts_of.combined (code_core codes.old l) (code_core codes.old r))) }
    ensures there { IfOk result (λ s. IsStepThere codes.new s) }
{
    match joined(alloc, codes, l, r)? {
        Some(t) => Ok(Step::Forms(t)),
        None => Ok(Step::Refuses(rules::FIELDS_COLLIDE)),
    }
}

/// `l ∧ r`, whose sides have these types.
pub(crate) fn combine(
    alloc: Global,
    codes: &mut Codes,
    l: CodeId,
    r: CodeId,
) -> Result<Step, AllocError>
    requires coded { AreCoded codes.old }
    requires left { l < count codes.old }
    requires right { r < count codes.old }
    ensures grows { Grows codes.old codes.new }
    ensures rule { IfOk result (λ s. (facts : Facts Core) → course_of (code_core codes.new) s ≡ follow facts (rules_of.combine core_scopes (code_core codes.old l) (code_core codes.old r))) }
    ensures there { IfOk result (λ s. IsStepThere codes.new s) }
{
    if !is_record_type(codes, l) {
        return Ok(Step::Refuses(rules::LEFT_NO_RECORD));
    }
    if !is_record_type(codes, r) {
        return Ok(Step::Refuses(rules::RIGHT_NO_RECORD));
    }
    combined(alloc, codes, l, r)
}

/// The universe of `l ⩓ r`, whose sides are in these universes, if they are in one.
fn in_universes(
    alloc: Global,
    codes: &mut Codes,
    left: Option<Builtin>,
    right: Option<Builtin>,
) -> Result<Step, AllocError>
    requires coded { AreCoded codes.old }
    ensures grows { Grows codes.old codes.new }
    ensures rule { IfOk result (λ s. (facts : Facts Core) → course_of (code_core codes.new) s ≡ follow facts (parts_of.in_universes left right)) }
    ensures there { IfOk result (λ s. IsStepThere codes.new s) }
{
    match left {
        Some(c) => match right {
            Some(d) => Ok(Step::Takes(constant(alloc, codes, greater(c, d))?)),
            None => Ok(Step::Refuses(rules::RIGHT_NO_RECORD_TYPE)),
        },
        None => Ok(Step::Refuses(rules::LEFT_NO_RECORD_TYPE)),
    }
}

/// `l ⩓ r`, whose sides are these record types, in these universes.
fn types_combined(
    alloc: Global,
    codes: &mut Codes,
    l: CodeId,
    r: CodeId,
    left: Option<Builtin>,
    right: Option<Builtin>,
) -> Result<Step, AllocError>
    requires coded { AreCoded codes.old }
    requires left { l < count codes.old }
    requires right { r < count codes.old }
    ensures grows { Grows codes.old codes.new }
    ensures rule { IfOk result (λ s. (facts : Facts Core) → course_of (code_core codes.new) s ≡ follow facts (parts_of.types_combined (code_core codes.old l) (code_core codes.old r) left right)) }
    ensures there { IfOk result (λ s. IsStepThere codes.new s) }
{
    match joined(alloc, codes, l, r)? {
        Some(_) => in_universes(alloc, codes, left, right),
        None => Ok(Step::Refuses(rules::FIELD_TYPES_COLLIDE)),
    }
}

/// `l ⩓ r`, whose left side is this record type, and whose sides are in these universes.
fn right_combined(
    alloc: Global,
    codes: &mut Codes,
    found: &Found,
    l: CodeId,
    left: Option<Builtin>,
    right: Option<Builtin>,
) -> Result<Step, AllocError>
    requires coded { AreCoded codes.old }
    requires found { IsFoundThere codes.old found.now }
    requires left { l < count codes.old }
    ensures grows { Grows codes.old codes.new }
    ensures rule { IfOk result (λ s. course_of (code_core codes.new) s ≡ follow (facts_of (code_core codes.old) found.now) (parts_of.right_combined (code_core codes.old l) left right)) }
    ensures there { IfOk result (λ s. IsStepThere codes.new s) }
{
    match found.second {
        Some(r) => {
            if is_record_type(codes, r) {
                types_combined(alloc, codes, l, r, left, right)
            } else {
                Ok(Step::Refuses(rules::RIGHT_NO_RECORD_TYPE))
            }
        }
        None => Ok(Step::WantsNormal(1)),
    }
}

/// `l ⩓ r`, whose sides have these types.
pub(crate) fn combine_types(
    alloc: Global,
    codes: &mut Codes,
    found: &Found,
    t: CodeId,
    u: CodeId,
) -> Result<Step, AllocError>
    requires coded { AreCoded codes.old }
    requires found { IsFoundThere codes.old found.now }
    ensures grows { Grows codes.old codes.new }
    ensures rule { IfOk result (λ s. course_of (code_core codes.new) s ≡ follow (facts_of (code_core codes.old) found.now) (rules_of.combine_types core_scopes (code_core codes.old t) (code_core codes.old u))) }
    ensures there { IfOk result (λ s. IsStepThere codes.new s) }
{
    let left = universe_of(codes, t);
    let right = universe_of(codes, u);
    match found.first {
        Some(l) => {
            if is_record_type(codes, l) {
                right_combined(alloc, codes, found, l, left, right)
            } else {
                Ok(Step::Refuses(rules::LEFT_NO_RECORD_TYPE))
            }
        }
        None => Ok(Step::WantsNormal(0)),
    }
}
