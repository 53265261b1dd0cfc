//! Assertions, equivalences and annotations.

ghost use Rattle.std.specs.Prelude.{◌≡◌, ◌<◌, IfOk};
ghost use Rattle.dh_syntax.specs.Names.Nameless.{Core};
ghost use Rattle.dh_syntax.specs.Typing.NamelessTyping.{core_scopes};
ghost use Rattle.dh_syntax.specs.Typing.TypeRulesOperators as rules_of;
ghost use Rattle.dh_store.specs.Cells.{code_core, AreCoded};
ghost use Rattle.dh_store.specs.Growth.{count};
ghost use Rattle.dh_types.specs.Following.{facts_of, follow, Facts};
ghost use Rattle.dh_types.specs.There.{IsFoundThere};
ghost use Rattle.dh_infer_ops.specs.Drafts.{draft_of, IsDraftBelow};
ghost use Rattle.dh_infer_ops.specs.Operators as parts_of;

use crate::drafts::Draft;
use dh_store::{CodeId, Codes};
use dh_syntax::Builtin;
use dh_types::{Found, equivalence as sides_of, is_constant, is_type, rules, same};
use std::alloc::{AllocError, Global};

/// `assert : t`, where t has this type.
pub(crate) fn assertion(
    alloc: Global,
    codes: &Codes,
    found: &Found,
    t: CodeId,
) -> Result<Draft, AllocError>
    requires coded { AreCoded codes.now }
    requires found { IsFoundThere codes.now found.now }
    ensures rule { IfOk result (λ d. draft_of (code_core codes.now) d ≡ follow (facts_of (code_core codes.now) found.now) (rules_of.assert core_scopes (code_core codes.now t))) }
    ensures there { IfOk result (λ d. IsDraftBelow (count codes.now) d) }
{
    if !is_constant(codes, Builtin::TypeConst, t) {
        return Ok(Draft::Refuses(rules::ASSERTION_NOT_IN_TYPE));
    }
    match found.first {
        Some(claim) => asserted(alloc, codes, claim),
        None => Ok(Draft::WantsNormal(0)),
    }
}

/// An assertion of this, in normal form.
fn asserted(alloc: Global, codes: &Codes, claim: CodeId) -> Result<Draft, AllocError>
    requires coded { AreCoded codes.now }
    requires there { claim < count codes.now }
    ensures rule { IfOk result (λ d. (facts : Facts Core) → draft_of (code_core codes.now) d ≡ follow facts (parts_of.asserted core_scopes (code_core codes.now claim))) }
    ensures there { IfOk result (λ d. IsDraftBelow (count codes.now) d) }
{
    match sides_of(codes, claim) {
        Some((l, r)) => {
            if same(alloc, codes, l, r)? {
                Ok(Draft::Takes(claim))
            } else {
                Ok(Draft::Refuses(rules::ASSERTION_FAILS))
            }
        }
        None => Ok(Draft::Refuses(rules::ASSERTION_NO_EQUIVALENCE)),
    }
}

/// `l ≡ r`
pub(crate) fn equivalence(
    alloc: Global,
    codes: &Codes,
    found: &Found,
    l: CodeId,
    r: CodeId,
) -> Result<Draft, AllocError>
    requires coded { AreCoded codes.now }
    ensures rule { IfOk result (λ d. draft_of (code_core codes.now) d ≡ follow (facts_of (code_core codes.now) found.now) (rules_of.equivalence core_scopes (code_core codes.now l) (code_core codes.now r))) }
    ensures there { IfOk result (λ d. IsDraftBelow (count codes.now) d) }
{
    if !same(alloc, codes, l, r)? {
        return Ok(Draft::Refuses(rules::SIDES_DIFFER));
    }
    match found.first_universe {
        Some(universe) => {
            if is_type(universe) {
                Ok(Draft::TakesConstant(Builtin::TypeConst))
            } else {
                Ok(Draft::Refuses(rules::SIDES_NOT_IN_TYPE))
            }
        }
        None => Ok(Draft::WantsUniverse(0)),
    }
}

/// `e : t`, where e has this type.
pub(crate) fn annotation(
    alloc: Global,
    codes: &Codes,
    found: &Found,
    t: CodeId,
) -> Result<Draft, AllocError>
    requires coded { AreCoded codes.now }
    requires found { IsFoundThere codes.now found.now }
    ensures rule { IfOk result (λ d. draft_of (code_core codes.now) d ≡ follow (facts_of (code_core codes.now) found.now) (rules_of.annotation core_scopes (code_core codes.now t))) }
    ensures there { IfOk result (λ d. IsDraftBelow (count codes.now) d) }
{
    match found.second {
        Some(annotation) => {
            if same(alloc, codes, t, annotation)? {
                Ok(Draft::Takes(annotation))
            } else {
                Ok(Draft::Refuses(rules::ANNOTATION_DIFFERS))
            }
        }
        None => Ok(Draft::WantsNormal(1)),
    }
}
