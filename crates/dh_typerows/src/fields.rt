//! Fields of record types, whose labels ascend.

ghost use Rattle.std.specs.Prelude.{◌≡◌, ◌<◌, ℕ, length, IfOk, IfSome, IsTrue};
ghost use Rattle.std.specs.Option.{option_map};
ghost use Rattle.dh_syntax.specs.Expressions.Labels.{field_at, fields_at};
ghost use Rattle.dh_syntax.specs.Expressions.Order.{ascending};
ghost use Rattle.dh_syntax.specs.Names.Nameless.{Core};
ghost use Rattle.dh_syntax.specs.Typing.TypeViews.{field_type};
ghost use Rattle.dh_store.specs.Cells.{code_core, AreBelow, AreCoded, AreKidsBelow};
ghost use Rattle.dh_types.specs.Parts.{fields_of};
ghost use Rattle.dh_typerows.specs.Fields.{fields_with};

use dh_records::position_of;
use dh_store::{CodeId, CodeKid, Codes};
use dh_syntax::{Label, Many};
use dh_types::record_type;
use std::alloc::{AllocError, Global};

/// What the field x holds, of fields with these labels.
pub(crate) fn field_at(labels: &[Label], kids: &[CodeKid], x: &Label) -> Option<CodeId>
    requires ascends { IsTrue (ascending labels.now) }
    requires paired { length labels.now ≡ length kids.now }
    ensures view { (f : ℕ → Core) → option_map f result ≡ field_at x.now (fields_of f labels.now kids.now) }
    ensures below { (n : ℕ) → AreKidsBelow n kids.now → IfSome result (λ c. c < n) }
{
    match position_of(labels, x) {
        Some(i) => Some(kids[i].code),
        None => None,
    }
}

/// What the fields with the labels xs hold, where each of them is there.
pub(crate) fn fields_at(
    alloc: Global,
    labels: &[Label],
    kids: &[CodeKid],
    xs: &[Label],
) -> Result<Option<Many<CodeId>>, AllocError>
    requires ascends { IsTrue (ascending labels.now) }
    requires paired { length labels.now ≡ length kids.now }
    ensures view { IfOk result (λ r. (f : ℕ → Core) → option_map (λ cs. fields_with f xs.now cs) r ≡ fields_at xs.now (fields_of f labels.now kids.now)) }
    ensures below { IfOk result (λ r. (n : ℕ) → AreKidsBelow n kids.now → IfSome r (λ cs. AreBelow n cs)) }
    ensures paired { IfOk result (λ r. IfSome r (λ cs. length xs.now ≡ length cs)) }
{
    let mut types = Many::new(alloc);
    for x in xs {
        match field_at(labels, kids, x) {
            Some(code) => types.push(code)?,
            None => return Ok(None),
        }
    }
    Ok(Some(types))
}

/// The type of the field x of a record type.
pub(crate) fn field_type(codes: &Codes, x: &Label, id: CodeId) -> Option<CodeId>
    requires coded { AreCoded codes.now }
    ensures view { option_map (code_core codes.now) result ≡ field_type x.now (code_core codes.now id) }
    ensures older { IfSome result (λ c. c < id) }
{
    match record_type(codes, id) {
        Some((labels, kids)) => field_at(labels, kids, x),
        None => None,
    }
}
