//! `toMap`.

ghost use Rattle.std.specs.Prelude.{◌≡◌, ◌<◌, [], length, true, IfOk};
ghost use Rattle.std.specs.Option.{option_map};
ghost use Rattle.dh_syntax.specs.Names.Nameless.{Core};
ghost use Rattle.dh_syntax.specs.Normalising.NamelessRuns.{nameless_eq};
ghost use Rattle.dh_syntax.specs.Typing.NamelessTyping.{core_scopes};
ghost use Rattle.dh_syntax.specs.Typing.TypeRulesUnions as rules_of;
ghost use Rattle.dh_syntax.specs.Typing.TypeViews.{as_entry_type, as_map_type, each};
ghost use Rattle.dh_store.specs.Cells.{code_core, AreCoded, AreKidsBelow};
ghost use Rattle.dh_store.specs.Growth.{count};
ghost use Rattle.dh_types.specs.Following.{facts_of, follow, Facts};
ghost use Rattle.dh_types.specs.Parts.{cores_of, fields_of};
ghost use Rattle.dh_types.specs.There.{IsFoundThere};
ghost use Rattle.dh_typerows.specs.Drafts.{draft_of, IsDraftBelow};
ghost use Rattle.dh_typerows.specs.Mapping as parts_of;

use crate::drafts::Draft;
use crate::labels::is_text;
use dh_store::{CodeId, CodeKid, Codes};
use dh_syntax::{Builtin, Label};
use dh_types::{Found, argument_of, is_constant, is_type, record_type, rules, same};
use std::alloc::{AllocError, Global};

/// What the values have as their type, where these are the fields of what `toMap` gives for a field.
fn entry_value(codes: &Codes, labels: &[Label], kids: &[CodeKid]) -> Option<CodeId>
    requires coded { AreCoded codes.now }
    requires paired { length labels.now ≡ length kids.now }
    ensures { option_map (code_core codes.now) result ≡ as_entry_type (fields_of (code_core codes.now) labels.now kids.now) }
{
    match labels {
        [x, y] => match kids {
            [key, value] => {
                if is_text(x, "mapKey")
                    && is_text(y, "mapValue")
                    && is_constant(codes, Builtin::Text, key.code)
                {
                    Some(value.code)
                } else {
                    None
                }
            }
            [] => None,
            [_key] => None,
            [_key, _value, _other, ..] => None,
        },
        [] => None,
        [_x] => None,
        [_x, _y, _z, ..] => None,
    }
}

/// The type of the values, where this is the type of what `toMap` gives.
fn map_value(codes: &Codes, id: CodeId) -> Option<CodeId>
    requires coded { AreCoded codes.now }
    ensures { option_map (code_core codes.now) result ≡ as_map_type (code_core codes.now id) }
{
    match argument_of(codes, Builtin::List, id) {
        Some(entry) => match record_type(codes, entry) {
            Some((labels, kids)) => entry_value(codes, labels, kids),
            None => None,
        },
        None => None,
    }
}

/// Whether each of these fields has the type v.
fn are_values(alloc: Global, codes: &Codes, v: CodeId, kids: &[CodeKid]) -> Result<bool, AllocError>
    requires coded { AreCoded codes.now }
    ensures { IfOk result (λ b. b ≡ each (nameless_eq (code_core codes.now v)) (cores_of (code_core codes.now) kids.now)) }
{
    for kid in kids {
        if !same(alloc, codes, v, kid.code)? {
            return Ok(false);
        }
    }
    Ok(true)
}

/// The type of a `toMap` whose fields have the type v, beside its annotation, in normal form.
fn beside(alloc: Global, codes: &Codes, v: CodeId, t: CodeId) -> Result<Draft, AllocError>
    requires coded { AreCoded codes.now }
    requires there { v < count codes.now }
    ensures rule { IfOk result (λ d. (facts : Facts Core) → draft_of (code_core codes.now) d ≡ follow facts (parts_of.beside core_scopes (code_core codes.now v) (code_core codes.now t))) }
    ensures there { IfOk result (λ d. IsDraftBelow (count codes.now) d) }
{
    match map_value(codes, t) {
        Some(w) => {
            if same(alloc, codes, v, w)? {
                Ok(Draft::FormsMap(v))
            } else {
                Ok(Draft::Refuses(rules::TO_MAP_ANNOTATION))
            }
        }
        None => Ok(Draft::Refuses(rules::TO_MAP_ANNOTATION)),
    }
}

/// The type of a `toMap` with an annotation, whose fields have the type v.
fn annotated_map(
    alloc: Global,
    codes: &Codes,
    found: &Found,
    v: CodeId,
) -> Result<Draft, AllocError>
    requires coded { AreCoded codes.now }
    requires found { IsFoundThere codes.now found.now }
    requires there { v < count codes.now }
    ensures rule { IfOk result (λ d. draft_of (code_core codes.now) d ≡ follow (facts_of (code_core codes.now) found.now) (rules_of.mapped core_scopes true (code_core codes.now v))) }
    ensures there { IfOk result (λ d. IsDraftBelow (count codes.now) d) }
{
    match found.second {
        Some(t) => beside(alloc, codes, v, t),
        None => Ok(Draft::WantsNormal(1)),
    }
}

/// The type of a `toMap` with or without annotation, whose fields have the type v.
fn mapped(
    alloc: Global,
    codes: &Codes,
    found: &Found,
    annotated: bool,
    v: CodeId,
) -> Result<Draft, AllocError>
    requires coded { AreCoded codes.now }
    requires found { IsFoundThere codes.now found.now }
    requires there { v < count codes.now }
    ensures rule { IfOk result (λ d. draft_of (code_core codes.now) d ≡ follow (facts_of (code_core codes.now) found.now) (rules_of.mapped core_scopes annotated (code_core codes.now v))) }
    ensures there { IfOk result (λ d. IsDraftBelow (count codes.now) d) }
{
    if annotated {
        annotated_map(alloc, codes, found, v)
    } else {
        Ok(Draft::FormsMap(v))
    }
}

/// The type of a `toMap` of a record whose fields have the type v, which is in this universe.
fn in_universe(
    alloc: Global,
    codes: &Codes,
    found: &Found,
    annotated: bool,
    universe: Option<Builtin>,
    v: CodeId,
) -> Result<Draft, AllocError>
    requires coded { AreCoded codes.now }
    requires found { IsFoundThere codes.now found.now }
    requires there { v < count codes.now }
    ensures rule { IfOk result (λ d. draft_of (code_core codes.now) d ≡ follow (facts_of (code_core codes.now) found.now) (parts_of.in_universe core_scopes annotated (code_core codes.now v) universe)) }
    ensures there { IfOk result (λ d. IsDraftBelow (count codes.now) d) }
{
    if is_type(universe) {
        mapped(alloc, codes, found, annotated, v)
    } else {
        Ok(Draft::Refuses(rules::TO_MAP_FIELDS_DIFFER))
    }
}

/// A `toMap` of a record whose first field has the type v, and the others these.
fn some_entries(
    alloc: Global,
    codes: &Codes,
    found: &Found,
    annotated: bool,
    v: CodeId,
    others: &[CodeKid],
) -> Result<Draft, AllocError>
    requires coded { AreCoded codes.now }
    requires found { IsFoundThere codes.now found.now }
    requires there { v < count codes.now }
    ensures rule { IfOk result (λ d. draft_of (code_core codes.now) d ≡ follow (facts_of (code_core codes.now) found.now) (parts_of.some_entries core_scopes annotated (code_core codes.now v) (cores_of (code_core codes.now) others.now))) }
    ensures there { IfOk result (λ d. IsDraftBelow (count codes.now) d) }
{
    if !are_values(alloc, codes, v, others)? {
        return Ok(Draft::Refuses(rules::TO_MAP_FIELDS_DIFFER));
    }
    match found.first_universe {
        Some(universe) => in_universe(alloc, codes, found, annotated, universe, v),
        None => Ok(Draft::WantsUniverse(0)),
    }
}

/// A `toMap` of a record without fields.
fn no_entries(codes: &Codes, found: &Found, annotated: bool) -> Draft
    requires coded { AreCoded codes.now }
    requires found { IsFoundThere codes.now found.now }
    ensures rule { draft_of (code_core codes.now) result ≡ follow (facts_of (code_core codes.now) found.now) (rules_of.entries core_scopes annotated []) }
    ensures there { IsDraftBelow (count codes.now) result }
{
    if !annotated {
        return Draft::Refuses(rules::TO_MAP_EMPTY);
    }
    match found.second {
        Some(t) => match map_value(codes, t) {
            Some(_) => Draft::Takes(t),
            None => Draft::Refuses(rules::TO_MAP_ANNOTATION),
        },
        None => Draft::WantsNormal(1),
    }
}

/// A `toMap` of a record with these fields.
fn entries(
    alloc: Global,
    codes: &Codes,
    found: &Found,
    annotated: bool,
    labels: &[Label],
    kids: &[CodeKid],
) -> Result<Draft, AllocError>
    requires coded { AreCoded codes.now }
    requires found { IsFoundThere codes.now found.now }
    requires paired { length labels.now ≡ length kids.now }
    requires there { AreKidsBelow (count codes.now) kids.now }
    ensures rule { IfOk result (λ d. draft_of (code_core codes.now) d ≡ follow (facts_of (code_core codes.now) found.now) (rules_of.entries core_scopes annotated (fields_of (code_core codes.now) labels.now kids.now))) }
    ensures there { IfOk result (λ d. IsDraftBelow (count codes.now) d) }
{
    match kids {
        [first, others @ ..] => some_entries(alloc, codes, found, annotated, first.code, others),
        [] => Ok(no_entries(codes, found, annotated)),
    }
}

/// `toMap e`, with or without annotation, where e has this type.
pub(crate) fn to_map(
    alloc: Global,
    codes: &Codes,
    found: &Found,
    annotated: bool,
    t: CodeId,
) -> Result<Draft, AllocError>
    requires coded { AreCoded codes.now }
    requires found { IsFoundThere codes.now found.now }
    requires there { t < count codes.now }
    ensures rule { IfOk result (λ d. draft_of (code_core codes.now) d ≡ follow (facts_of (code_core codes.now) found.now) (rules_of.to_map core_scopes annotated (code_core codes.now t))) }
    ensures there { IfOk result (λ d. IsDraftBelow (count codes.now) d) }
{
    match record_type(codes, t) {
        Some((labels, kids)) => entries(alloc, codes, found, annotated, labels, kids),
        None => Ok(Draft::Refuses(rules::TO_MAP_NO_RECORD)),
    }
}
