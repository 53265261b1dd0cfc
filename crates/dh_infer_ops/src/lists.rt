//! Lists, `Some` and texts.

ghost use Rattle.std.specs.Prelude.{◌≡◌, ◌<◌, map, IfOk};
ghost use Rattle.dh_syntax.specs.declared.operators.Builtin.TheVariants.{Text};
ghost use Rattle.dh_syntax.specs.Names.Nameless.{Core};
ghost use Rattle.dh_syntax.specs.Normalising.NamelessRuns.{nameless_eq};
ghost use Rattle.dh_syntax.specs.Typing.NamelessTyping.{core_scopes};
ghost use Rattle.dh_syntax.specs.Typing.TypeRulesOperators as rules_of;
ghost use Rattle.dh_syntax.specs.Typing.TypeViews.{each, is_constant};
ghost use Rattle.dh_store.specs.Cells.{code_core, AreCoded};
ghost use Rattle.dh_store.specs.Growth.{count};
ghost use Rattle.dh_types.specs.Following.{facts_of, follow, Facts};
ghost use Rattle.dh_types.specs.There.{IsFoundThere};
ghost use Rattle.dh_infer_ops.specs.Drafts.{draft_of, IsDraftBelow};
ghost use Rattle.dh_infer_ops.specs.Operators as parts_of;

use crate::drafts::Draft;
use dh_store::{CodeId, Codes};
use dh_syntax::Builtin;
use dh_types::{Found, argument_of, is_constant, is_type, rules, same};
use std::alloc::{AllocError, Global};

/// Whether each of these types is the type t.
fn are_same(alloc: Global, codes: &Codes, t: CodeId, types: &[CodeId]) -> Result<bool, AllocError>
    requires coded { AreCoded codes.now }
    ensures { IfOk result (λ b. b ≡ each (nameless_eq (code_core codes.now t)) (map (code_core codes.now) types.now)) }
{
    for u in types {
        if !same(alloc, codes, t, *u)? {
            return Ok(false);
        }
    }
    Ok(true)
}

/// Whether each of these types is Text.
fn are_texts(codes: &Codes, types: &[CodeId]) -> bool
    requires coded { AreCoded codes.now }
    ensures { result ≡ each (is_constant Text) (map (code_core codes.now) types.now) }
{
    for t in types {
        if !is_constant(codes, Builtin::Text, *t) {
            return false;
        }
    }
    true
}

/// `[] : t`
pub(crate) fn empty_list(codes: &Codes, found: &Found) -> Draft
    requires coded { AreCoded codes.now }
    requires found { IsFoundThere codes.now found.now }
    ensures rule { draft_of (code_core codes.now) result ≡ follow (facts_of (code_core codes.now) found.now) (rules_of.empty_list core_scopes) }
    ensures there { IsDraftBelow (count codes.now) result }
{
    match found.first {
        Some(annotation) => match argument_of(codes, Builtin::List, annotation) {
            Some(_) => Draft::Takes(annotation),
            None => Draft::Refuses(rules::EMPTY_LIST_ANNOTATION),
        },
        None => Draft::WantsNormal(0),
    }
}

/// `[ a, b, .. ]`, whose first element has the type t, and the others these types.
pub(crate) fn list(
    alloc: Global,
    codes: &Codes,
    found: &Found,
    t: CodeId,
    types: &[CodeId],
) -> Result<Draft, AllocError>
    requires coded { AreCoded codes.now }
    requires there { t < count codes.now }
    ensures rule { IfOk result (λ d. draft_of (code_core codes.now) d ≡ follow (facts_of (code_core codes.now) found.now) (rules_of.list core_scopes (code_core codes.now t) (map (code_core codes.now) types.now))) }
    ensures there { IfOk result (λ d. IsDraftBelow (count codes.now) d) }
{
    match found.first_universe {
        Some(universe) => elements(alloc, codes, universe, t, types),
        None => Ok(Draft::WantsUniverse(0)),
    }
}

/// The elements of a list, the first one's type in this universe.
fn elements(
    alloc: Global,
    codes: &Codes,
    universe: Option<Builtin>,
    t: CodeId,
    types: &[CodeId],
) -> Result<Draft, AllocError>
    requires coded { AreCoded codes.now }
    requires there { t < count codes.now }
    ensures rule { IfOk result (λ d. (facts : Facts Core) → draft_of (code_core codes.now) d ≡ follow facts (parts_of.elements core_scopes universe (code_core codes.now t) (map (code_core codes.now) types.now))) }
    ensures there { IfOk result (λ d. IsDraftBelow (count codes.now) d) }
{
    if !is_type(universe) {
        return Ok(Draft::Refuses(rules::ELEMENTS_NOT_IN_TYPE));
    }
    if !are_same(alloc, codes, t, types)? {
        return Ok(Draft::Refuses(rules::ELEMENTS_DIFFER));
    }
    Ok(Draft::FormsApplied(Builtin::List, t))
}

/// `Some e`
pub(crate) fn some(codes: &Codes, found: &Found, t: CodeId) -> Draft
    requires there { t < count codes.now }
    ensures rule { draft_of (code_core codes.now) result ≡ follow (facts_of (code_core codes.now) found.now) (rules_of.some core_scopes (code_core codes.now t)) }
    ensures there { IsDraftBelow (count codes.now) result }
{
    match found.first_universe {
        Some(universe) => {
            if is_type(universe) {
                Draft::FormsApplied(Builtin::Optional, t)
            } else {
                Draft::Refuses(rules::SOME_NOT_IN_TYPE)
            }
        }
        None => Draft::WantsUniverse(0),
    }
}

/// A text whose interpolations have these types.
pub(crate) fn text(codes: &Codes, types: &[CodeId]) -> Draft
    requires coded { AreCoded codes.now }
    ensures rule { (facts : Facts Core) → draft_of (code_core codes.now) result ≡ follow facts (rules_of.text core_scopes (map (code_core codes.now) types.now)) }
    ensures there { IsDraftBelow (count codes.now) result }
{
    if are_texts(codes, types) {
        Draft::TakesConstant(Builtin::Text)
    } else {
        Draft::Refuses(rules::INTERPOLATION_NO_TEXT)
    }
}
