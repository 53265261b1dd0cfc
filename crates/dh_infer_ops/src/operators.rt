//! `if`, and the operators on Bool, Natural, Text and List.

ghost use Rattle.std.specs.Prelude.{◌≡◌, ◌<◌, IfOk};
ghost use Rattle.dh_syntax.specs.Typing.NamelessTyping.{core_scopes};
ghost use Rattle.dh_syntax.specs.Typing.TypeRulesOperators as rules_of;
ghost use Rattle.dh_store.specs.Cells.{code_core, AreCoded};
ghost use Rattle.dh_store.specs.Growth.{count};
ghost use Rattle.dh_syntax.specs.Names.Nameless.{Core};
ghost use Rattle.dh_types.specs.Following.{facts_of, follow, Facts};
ghost use Rattle.dh_infer_ops.specs.Drafts.{draft_of, IsDraftBelow};
ghost use Rattle.dh_infer_ops.specs.Operators.{branches};

use crate::drafts::Draft;
use dh_store::{CodeId, Codes};
use dh_syntax::Builtin;
use dh_types::{Found, argument_of, is_constant, is_type, rules, same};
use std::alloc::{AllocError, Global};

/// `if p then l else r`
pub(crate) fn if_then_else(
    alloc: Global,
    codes: &Codes,
    found: &Found,
    p: CodeId,
    l: CodeId,
    r: CodeId,
) -> Result<Draft, AllocError>
    requires coded { AreCoded codes.now }
    requires there { l < count codes.now }
    ensures rule { IfOk result (λ d. draft_of (code_core codes.now) d ≡ follow (facts_of (code_core codes.now) found.now) (rules_of.if_then_else core_scopes (code_core codes.now p) (code_core codes.now l) (code_core codes.now r))) }
    ensures there { IfOk result (λ d. IsDraftBelow (count codes.now) d) }
{
    if !is_constant(codes, Builtin::Bool, p) {
        return Ok(Draft::Refuses(rules::CONDITION_NO_BOOL));
    }
    match found.second_universe {
        Some(universe) => branches(alloc, codes, universe, l, r),
        None => Ok(Draft::WantsUniverse(1)),
    }
}

/// Two branches, the first one's type in this universe.
fn branches(
    alloc: Global,
    codes: &Codes,
    universe: Option<Builtin>,
    l: CodeId,
    r: CodeId,
) -> Result<Draft, AllocError>
    requires coded { AreCoded codes.now }
    requires there { l < count codes.now }
    ensures rule { IfOk result (λ d. (facts : Facts Core) → draft_of (code_core codes.now) d ≡ follow facts (branches core_scopes universe (code_core codes.now l) (code_core codes.now r))) }
    ensures there { IfOk result (λ d. IsDraftBelow (count codes.now) d) }
{
    if !is_type(universe) {
        return Ok(Draft::Refuses(rules::BRANCHES_NOT_IN_TYPE));
    }
    if !same(alloc, codes, l, r)? {
        return Ok(Draft::Refuses(rules::BRANCHES_DIFFER));
    }
    Ok(Draft::Takes(l))
}

/// An operator that takes two Bool, Natural or Text and gives one.
pub(crate) fn two_of(codes: &Codes, builtin: Builtin, l: CodeId, r: CodeId) -> Draft
    requires coded { AreCoded codes.now }
    ensures rule { (facts : Facts Core) → draft_of (code_core codes.now) result ≡ follow facts (rules_of.two_of core_scopes builtin (code_core codes.now l) (code_core codes.now r)) }
    ensures there { IsDraftBelow (count codes.now) result }
{
    if !is_constant(codes, builtin, l) {
        return Draft::Refuses(rules::LEFT_SIDE);
    }
    if !is_constant(codes, builtin, r) {
        return Draft::Refuses(rules::RIGHT_SIDE);
    }
    Draft::TakesConstant(builtin)
}

/// `l # r`
pub(crate) fn list_append(
    alloc: Global,
    codes: &Codes,
    l: CodeId,
    r: CodeId,
) -> Result<Draft, AllocError>
    requires coded { AreCoded codes.now }
    requires there { l < count codes.now }
    ensures rule { IfOk result (λ d. (facts : Facts Core) → draft_of (code_core codes.now) d ≡ follow facts (rules_of.list_append core_scopes (code_core codes.now l) (code_core codes.now r))) }
    ensures there { IfOk result (λ d. IsDraftBelow (count codes.now) d) }
{
    match argument_of(codes, Builtin::List, l) {
        Some(_) => {
            if same(alloc, codes, l, r)? {
                Ok(Draft::Takes(l))
            } else {
                Ok(Draft::Refuses(rules::RIGHT_SIDE))
            }
        }
        None => Ok(Draft::Refuses(rules::LEFT_SIDE)),
    }
}
