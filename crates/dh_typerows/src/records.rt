//! Record literals, selection and projection.

ghost use Rattle.std.specs.Prelude.{◌≡◌, ◌<◌, ℕ, length, map, IfOk, IsTrue};
ghost use Rattle.std.specs.Option.{option_map};
ghost use Rattle.dh_syntax.specs.declared.operators.Builtin.TheVariants.{Sort};
ghost use Rattle.dh_syntax.specs.Expressions.Order.{ascending};
ghost use Rattle.dh_syntax.specs.Names.Nameless.{Core};
ghost use Rattle.dh_syntax.specs.Typing.NamelessTyping.{core_scopes};
ghost use Rattle.dh_syntax.specs.Typing.TypeRulesRecords as rules_of;
ghost use Rattle.dh_syntax.specs.Typing.TypeViews.{is_constant, one_of};
ghost use Rattle.dh_store.specs.Cells.{code_core, AreBelow, AreCoded};
ghost use Rattle.dh_store.specs.Growth.{count};
ghost use Rattle.dh_types.specs.Following.{facts_of, follow, Facts};
ghost use Rattle.dh_types.specs.Parts.{fields_of};
ghost use Rattle.dh_types.specs.There.{IsFoundThere};
ghost use Rattle.dh_typerows.specs.Drafts.{draft_of, IsDraftBelow};
ghost use Rattle.dh_typerows.specs.Selections as parts_of;

use crate::drafts::Draft;
use crate::fields::{field_at, fields_at};
use dh_store::{CodeId, CodeKid, Codes};
use dh_syntax::{Builtin, Label, Labels, Many, copy_labels};
use dh_types::{Found, is_constant, record_type, rules, same};
use std::alloc::{AllocError, Global};

/// Whether one of these types is Sort.
fn has_sort(codes: &Codes, types: &[CodeId]) -> bool
    requires coded { AreCoded codes.now }
    ensures { result ≡ one_of (is_constant Sort) (map (code_core codes.now) types.now) }
{
    for t in types {
        if is_constant(codes, Builtin::Sort, *t) {
            return true;
        }
    }
    false
}

/// `{ x = e, .. }`, whose fields have these types.
pub(crate) fn record_literal(
    alloc: Global,
    codes: &Codes,
    labels: &Labels,
    types: &[CodeId],
) -> Result<Draft, AllocError>
    requires coded { AreCoded codes.now }
    requires there { AreBelow (count codes.now) types.now }
    requires ascends { IsTrue (ascending labels.now) }
    requires paired { length labels.now ≡ length types.now }
    ensures rule { IfOk result (λ d. (facts : Facts Core) → draft_of (code_core codes.now) d ≡ follow facts (rules_of.record_literal core_scopes labels.now (map (code_core codes.now) types.now))) }
    ensures there { IfOk result (λ d. IsDraftBelow (count codes.now) d) }
{
    if has_sort(codes, types) {
        return Ok(Draft::Refuses(rules::FIELD_OF_SORT));
    }
    let labels = copy_labels(alloc, labels)?;
    let types = Vec::from_slice(alloc, types)?;
    Ok(Draft::FormsRecord(labels, Many::of(types)))
}

/// `e.{ x, .. }`, where e has this type.
pub(crate) fn projection(
    alloc: Global,
    codes: &Codes,
    xs: &Labels,
    t: CodeId,
) -> Result<Draft, AllocError>
    requires coded { AreCoded codes.now }
    requires there { t < count codes.now }
    requires ascends { IsTrue (ascending xs.now) }
    ensures rule { IfOk result (λ d. (facts : Facts Core) → draft_of (code_core codes.now) d ≡ follow facts (rules_of.projection core_scopes xs.now (code_core codes.now t))) }
    ensures there { IfOk result (λ d. IsDraftBelow (count codes.now) d) }
{
    match record_type(codes, t) {
        Some((labels, kids)) => match fields_at(alloc, labels, kids, xs.as_slice())? {
            Some(types) => Ok(Draft::FormsRecord(copy_labels(alloc, xs)?, types)),
            None => Ok(Draft::Refuses(rules::PROJECTION_LACKS_FIELD)),
        },
        None => Ok(Draft::Refuses(rules::PROJECTION_NO_RECORD)),
    }
}

/// Whether a type is there and is this one.
fn is_there(alloc: Global, codes: &Codes, t: Option<CodeId>, u: CodeId) -> Result<bool, AllocError>
    requires coded { AreCoded codes.now }
    ensures { IfOk result (λ b. b ≡ rules_of.is_there core_scopes (option_map (code_core codes.now) t) (code_core codes.now u)) }
{
    match t {
        Some(t) => same(alloc, codes, t, u),
        None => Ok(false),
    }
}

/// Whether the second fields are among the first, with the same types.
fn all_there(
    alloc: Global,
    codes: &Codes,
    labels: &[Label],
    kids: &[CodeKid],
    others: &[Label],
    other_kids: &[CodeKid],
) -> Result<bool, AllocError>
    requires coded { AreCoded codes.now }
    requires ascends { IsTrue (ascending labels.now) }
    requires paired { length labels.now ≡ length kids.now }
    requires others_paired { length others.now ≡ length other_kids.now }
    ensures { IfOk result (λ b. b ≡ rules_of.all_there core_scopes (fields_of (code_core codes.now) labels.now kids.now) (fields_of (code_core codes.now) others.now other_kids.now)) }
{
    for i in 0..others.len() {
        let found = field_at(labels, kids, &others[i]);
        if !is_there(alloc, codes, found, other_kids[i].code)? {
            return Ok(false);
        }
    }
    Ok(true)
}

/// `e.(r)`, where e has the type t, and r is this, in normal form.
fn projected(
    alloc: Global,
    codes: &Codes,
    labels: &[Label],
    kids: &[CodeKid],
    r: CodeId,
) -> Result<Draft, AllocError>
    requires coded { AreCoded codes.now }
    requires there { r < count codes.now }
    requires ascends { IsTrue (ascending labels.now) }
    requires paired { length labels.now ≡ length kids.now }
    ensures rule { IfOk result (λ d. (facts : Facts Core) → draft_of (code_core codes.now) d ≡ follow facts (parts_of.projected core_scopes (fields_of (code_core codes.now) labels.now kids.now) (code_core codes.now r))) }
    ensures there { IfOk result (λ d. IsDraftBelow (count codes.now) d) }
{
    match record_type(codes, r) {
        Some((others, other_kids)) => {
            if all_there(alloc, codes, labels, kids, others, other_kids)? {
                Ok(Draft::Takes(r))
            } else {
                Ok(Draft::Refuses(rules::TYPED_PROJECTION_DIFFERS))
            }
        }
        None => Ok(Draft::Refuses(rules::TYPED_PROJECTION_NO_RECORD_TYPE)),
    }
}

/// `e.(r)`, where e has this type.
pub(crate) fn typed_projection(
    alloc: Global,
    codes: &Codes,
    found: &Found,
    t: CodeId,
) -> Result<Draft, AllocError>
    requires coded { AreCoded codes.now }
    requires found { IsFoundThere codes.now found.now }
    ensures rule { IfOk result (λ d. draft_of (code_core codes.now) d ≡ follow (facts_of (code_core codes.now) found.now) (rules_of.typed_projection core_scopes (code_core codes.now t))) }
    ensures there { IfOk result (λ d. IsDraftBelow (count codes.now) d) }
{
    match record_type(codes, t) {
        Some((labels, kids)) => match found.second {
            Some(r) => projected(alloc, codes, labels, kids, r),
            None => Ok(Draft::WantsNormal(1)),
        },
        None => Ok(Draft::Refuses(rules::TYPED_PROJECTION_NO_RECORD)),
    }
}
