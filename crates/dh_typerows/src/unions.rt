//! Alternatives of unions, and selection.

ghost use Rattle.std.specs.Prelude.{◌≡◌, ◌<◌, ◌∷◌, ℕ, List, IfOk, IfSome};
ghost use Rattle.std.specs.Option.{option_map};
ghost use Rattle.dh_syntax.specs.Names.Nameless.{Core, Ref};
ghost use Rattle.dh_syntax.specs.Expressions.Tree.{Name};
ghost use Rattle.dh_syntax.specs.Typing.NamelessTyping.{core_scopes};
ghost use Rattle.dh_syntax.specs.Typing.TypeRulesRecords as rules_of;
ghost use Rattle.dh_syntax.specs.Typing.TypeViews.{alternative_at, next_alternative, Alternatives};
ghost use Rattle.dh_store.specs.Cells.{code_core, AreCoded, AreKidsBelow};
ghost use Rattle.dh_store.specs.Growth.{count};
ghost use Rattle.dh_types.specs.Closed.{IsClosed};
ghost use Rattle.dh_types.specs.Following.{facts_of, follow, Facts};
ghost use Rattle.dh_types.specs.Parts.{alternatives_of, cores_of};
ghost use Rattle.dh_types.specs.There.{IsFoundThere};
ghost use Rattle.dh_typerows.specs.Drafts.{draft_of, IsDraftBelow};
ghost use Rattle.dh_typerows.specs.Selections as parts_of;

use crate::drafts::Draft;
use crate::fields::field_type;
use dh_store::{CodeId, CodeKid, Codes};
use dh_syntax::{Alt, Label};
use dh_terms::is_same_label;
use dh_types::{Found, rules, union_type};
use std::alloc::{AllocError, Global};

/// The type of an alternative, if it has one, and the types that are left for those after it.
pub(crate) fn split<'a>(alt: &Alt, types: &'a [CodeKid]) -> (Option<CodeId>, &'a [CodeKid])
    ensures next { (f : ℕ → Core) (others : List Core → Alternatives Ref Name) → next_alternative alt.now.label alt.now.typed (cores_of f types.now) others ≡ (alt.now.label, option_map f result.0) ∷ others (cores_of f result.1.now) }
    ensures below { (n : ℕ) → AreKidsBelow n types.now → IfSome result.0 (λ c. c < n) × AreKidsBelow n result.1.now }
{
    if !alt.typed {
        return (None, types);
    }
    match types {
        [first, rest @ ..] => (Some(first.code), rest),
        [] => (None, types),
    }
}

/// The alternative x, with its type if it has one.
fn alternative_at(alts: &[Alt], types: &[CodeKid], x: &Label) -> Option<Option<CodeId>>
    ensures view { (f : ℕ → Core) → option_map (option_map f) result ≡ alternative_at x.now (alternatives_of f alts.now types.now) }
    ensures below { (n : ℕ) → AreKidsBelow n types.now → IfSome result (λ t. IfSome t (λ c. c < n)) }
{
    let mut rest = types;
    for alt in alts {
        let (own, others) = split(alt, rest);
        if is_same_label(x, &alt.label) {
            return Some(own);
        }
        rest = others;
    }
    None
}

/// `u.x`, where u is this, in normal form.
fn selected(alloc: Global, codes: &Codes, x: &Label, u: CodeId) -> Result<Draft, AllocError>
    requires coded { AreCoded codes.now }
    requires there { u < count codes.now }
    requires closed { IsClosed (code_core codes.now u) }
    ensures rule { IfOk result (λ d. (facts : Facts Core) → draft_of (code_core codes.now) d ≡ follow facts (parts_of.selected core_scopes x.now (code_core codes.now u))) }
    ensures there { IfOk result (λ d. IsDraftBelow (count codes.now) d) }
{
    match union_type(codes, u) {
        Some((alts, types)) => match alternative_at(alts, types, x) {
            Some(Some(t)) => Ok(Draft::FormsFunction(x.copied(alloc)?, t, u)),
            Some(None) => Ok(Draft::Takes(u)),
            None => Ok(Draft::Refuses(rules::NOTHING_TO_SELECT)),
        },
        None => Ok(Draft::Refuses(rules::NOTHING_TO_SELECT)),
    }
}

/// `e.x`, where e has this type.
pub(crate) fn selection(
    alloc: Global,
    codes: &Codes,
    found: &Found,
    x: &Label,
    t: CodeId,
) -> Result<Draft, AllocError>
    requires coded { AreCoded codes.now }
    requires there { t < count codes.now }
    requires found { IsFoundThere codes.now found.now }
    requires closed { IfSome found.now.first (λ c. IsClosed (code_core codes.now c)) }
    ensures rule { IfOk result (λ d. draft_of (code_core codes.now) d ≡ follow (facts_of (code_core codes.now) found.now) (rules_of.selection core_scopes x.now (code_core codes.now t))) }
    ensures there { IfOk result (λ d. IsDraftBelow (count codes.now) d) }
{
    match field_type(codes, x, t) {
        Some(own) => Ok(Draft::Takes(own)),
        None => match found.first {
            Some(u) => selected(alloc, codes, x, u),
            None => Ok(Draft::WantsNormal(0)),
        },
    }
}
