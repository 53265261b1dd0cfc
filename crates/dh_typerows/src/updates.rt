//! `with`: a record type with a path set.
//!
//! The record types along the path are found from the outermost one, and made again from the innermost one, without recursion, since a
//! path may be as long as a text.

ghost use Rattle.std.specs.Prelude.{◌≡◌, ◌<◌, ◌∷◌, [], ℕ, length, true, false, Some, IfOk, IfSome, IsTrue, MatchOption};
ghost use Rattle.std.specs.Option.{option_map};
ghost use Rattle.dh_syntax.specs.Expressions.Forms.{record_type};
ghost use Rattle.dh_syntax.specs.Names.Nameless.{Core};
ghost use Rattle.dh_syntax.specs.Typing.NamelessTyping.{core_scopes};
ghost use Rattle.dh_syntax.specs.Typing.TypeRulesRecords as rules_of;
ghost use Rattle.dh_store.specs.Cells.{code_core, AreBelow, AreCoded};
ghost use Rattle.dh_store.specs.Growth.{count};
ghost use Rattle.dh_types.specs.Following.{course_of, follow, Facts};
ghost use Rattle.dh_types.specs.Growing.{Grows};
ghost use Rattle.dh_types.specs.There.{IsStepThere};
ghost use Rattle.dh_typerows.specs.Joining.{record_of, IsRecordBelow};
ghost use Rattle.dh_typerows.specs.Updating.{around, type_under, with_field, AreLevels, IsNoPath};

use crate::fields::field_at;
use crate::preferring::{Side, all_types, ids_of};
use dh_store::{CodeId, Codes};
use dh_syntax::{Builtin, Label, Labels, Many};
use dh_types::{Step, is_constant, record_type, record_type_of, rules};
use std::alloc::{AllocError, Global};

/// The type under a label, `empty` where there is none; none where the type is no record type.
fn type_under(codes: &Codes, empty: CodeId, x: &Label, t: CodeId) -> Option<CodeId>
    requires coded { AreCoded codes.now }
    requires there { empty < count codes.now }
    requires own { t < count codes.now }
    requires empty { code_core codes.now empty ≡ record_type [] }
    ensures view { option_map (code_core codes.now) result ≡ type_under x.now (code_core codes.now t) }
    ensures there { IfSome result (λ c. c < count codes.now) }
{
    match record_type(codes, t) {
        Some((labels, kids)) => match field_at(labels, kids, x) {
            Some(own) => Some(own),
            None => Some(empty),
        },
        None => None,
    }
}

/// The record types along a path, the outermost one first, `empty` for each that is wanting; none where what is on the way is no
/// record type.
fn levels(
    alloc: Global,
    codes: &Codes,
    empty: CodeId,
    path: &[Label],
    t: CodeId,
) -> Result<Option<Vec<CodeId>>, AllocError>
    requires coded { AreCoded codes.now }
    requires there { empty < count codes.now }
    requires own { t < count codes.now }
    requires empty { code_core codes.now empty ≡ record_type [] }
    ensures levels { IfOk result (λ o. MatchOption o (IsNoPath path.now (code_core codes.now t)) (λ cs. AreLevels (code_core codes.now) path.now (code_core codes.now t) cs.items)) }
    ensures counted { IfOk result (λ o. IfSome o (λ cs. length cs.items ≡ length path.now)) }
    ensures below { IfOk result (λ o. IfSome o (λ cs. AreBelow (count codes.now) cs.items)) }
{
    let mut levels = Vec::new(alloc);
    let mut at = t;
    for x in path {
        levels.push(at)?;
        match type_under(codes, empty, x, at) {
            Some(next) => at = next,
            None => return Ok(None),
        }
    }
    Ok(Some(levels))
}

/// One label.
fn one_label(alloc: Global, x: &Label) -> Result<Labels, AllocError>
    ensures { IfOk result (λ xs. xs ≡ x.now ∷ []) }
{
    let mut labels = Many::new(alloc);
    labels.push(x.copied(alloc)?)?;
    Ok(labels)
}

/// The labels and types of a record type with one under a label.
fn fields_with(
    alloc: Global,
    codes: &Codes,
    x: &Label,
    t: CodeId,
    u: CodeId,
) -> Result<(Labels, Many<CodeId>), AllocError>
    requires coded { AreCoded codes.now }
    requires own { t < count codes.now }
    requires there { u < count codes.now }
    ensures view { IfOk result (λ p. Some (record_of (code_core codes.now) p) ≡ with_field x.now (code_core codes.now t) (Some (code_core codes.now u))) }
    ensures shape { IfOk result (λ p. IsRecordBelow (count codes.now) p) }
{
    let Some((labels, kids)) = record_type(codes, t) else {
        return Err(AllocError);
    };
    let own = ids_of(alloc, kids)?;
    let name = one_label(alloc, x)?;
    let fields = all_types(
        alloc,
        Side::Second,
        labels,
        own.as_slice(),
        name.as_slice(),
        &[u],
    )?;
    Ok(fields)
}

/// Adds a record type with a type under a label.
fn with_field(
    alloc: Global,
    codes: &mut Codes,
    x: &Label,
    t: CodeId,
    u: CodeId,
) -> Result<CodeId, AllocError>
    requires coded { AreCoded codes.old }
    requires own { t < count codes.old }
    requires there { u < count codes.old }
    ensures grows { Grows codes.old codes.new }
    ensures made { IfOk result (λ c. Some (code_core codes.new c) ≡ with_field x.now (code_core codes.old t) (Some (code_core codes.old u))) }
    ensures there { IfOk result (λ c. c < count codes.new) }
{
    let (labels, types) = fields_with(alloc, codes, x, t, u)?;
    record_type_of(alloc, codes, labels, types.as_slice())
}

/// Adds the record types along a path again, the last one with a type.
fn rebuilt(
    alloc: Global,
    codes: &mut Codes,
    path: &[Label],
    levels: &[CodeId],
    v: CodeId,
) -> Result<CodeId, AllocError>
    requires coded { AreCoded codes.old }
    requires counted { length levels.now ≡ length path.now }
    requires below { AreBelow (count codes.old) levels.now }
    requires there { v < count codes.old }
    ensures grows { Grows codes.old codes.new }
    ensures made { IfOk result (λ c. Some (code_core codes.new c) ≡ around (code_core codes.old) path.now levels.now (Some (code_core codes.old v))) }
    ensures there { IfOk result (λ c. c < count codes.new) }
{
    let mut i = path.len();
    let mut code = v;
    while i > 0 {
        i -= 1;
        code = with_field(alloc, codes, &path[i], levels[i], code)?;
    }
    Ok(code)
}

/// `e with path = v`, where e has the type t, and v the type v; `empty` is the empty record type.
fn updated(
    alloc: Global,
    codes: &mut Codes,
    empty: CodeId,
    path: &[Label],
    t: CodeId,
    v: CodeId,
) -> Result<Step, AllocError>
    requires coded { AreCoded codes.old }
    requires there { empty < count codes.old }
    requires own { t < count codes.old }
    requires value { v < count codes.old }
    requires empty { code_core codes.old empty ≡ record_type [] }
    ensures grows { Grows codes.old codes.new }
    ensures rule { IfOk result (λ s. (facts : Facts Core) → course_of (code_core codes.new) s ≡ follow facts (rules_of.update core_scopes path.now (code_core codes.old t) (code_core codes.old v))) }
    ensures there { IfOk result (λ s. IsStepThere codes.new s) }
{
    let Some(levels) = levels(alloc, codes, empty, path, t)? else {
        return Ok(Step::Refuses(rules::UPDATE_NO_RECORD));
    };
    if is_constant(codes, Builtin::Sort, v) {
        return Ok(Step::Refuses(rules::UPDATE_OF_SORT));
    }
    let code = rebuilt(alloc, codes, path, levels.as_slice(), v)?;
    Ok(Step::Forms(code))
}

/// `e with path = v`, where e has the type t, and v the type v.
pub(crate) fn update(
    alloc: Global,
    codes: &mut Codes,
    path: &[Label],
    t: CodeId,
    v: CodeId,
) -> Result<Step, AllocError>
    requires coded { AreCoded codes.old }
    requires own { t < count codes.old }
    requires value { v < count codes.old }
    ensures grows { Grows codes.old codes.new }
    ensures rule { IfOk result (λ s. (facts : Facts Core) → course_of (code_core codes.new) s ≡ follow facts (rules_of.update core_scopes path.now (code_core codes.old t) (code_core codes.old v))) }
    ensures there { IfOk result (λ s. IsStepThere codes.new s) }
{
    let empty = record_type_of(alloc, codes, Many::new(alloc), &[])?;
    updated(alloc, codes, empty, path, t, v)
}
