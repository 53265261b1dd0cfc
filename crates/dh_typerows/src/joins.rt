//! Two record types as one, the types of common fields joined in turn.
//!
//! A pair of types is joined once, also where types share parts, and what is still to be joined is a stack on the heap.

ghost use Rattle.std.specs.Prelude.{◌≡◌, ◌<◌, ℕ, length, true, Some, IfOk, IfSome, IsTrue, OnOk};
ghost use Rattle.std.specs.Option.{option_map};
ghost use Rattle.dh_syntax.specs.Expressions.Forms.{record_type};
ghost use Rattle.dh_syntax.specs.Expressions.Labels.{all_fields};
ghost use Rattle.dh_syntax.specs.Expressions.Order.{ascending};
ghost use Rattle.dh_syntax.specs.Names.Nameless.{Core};
ghost use Rattle.dh_syntax.specs.Typing.TypeRulesRecords.{joined, joined_field};
ghost use Rattle.dh_store.specs.Cells.{code_core, AreBelow, AreCoded, AreKidsBelow};
ghost use Rattle.dh_store.specs.Growth.{count};
ghost use Rattle.dh_types.specs.Growing.{Grows};
ghost use Rattle.dh_types.specs.Memos.{entry};
ghost use Rattle.dh_types.specs.Parts.{fields_of};
ghost use Rattle.dh_typerows.specs.declared.preferring.Side.TheVariants as sides;
ghost use Rattle.dh_typerows.specs.Fields.{fields_with, on_side};
ghost use Rattle.dh_typerows.specs.Joining.{joined_all, record_of, AreFoundBelow, AreJoined, IsRecordBelow, Joins};

use crate::fields::field_at;
use crate::preferring::{Side, all_types, ids_of};
use dh_store::{CodeId, CodeKid, Codes};
use dh_syntax::{Label, Labels, Many};
use dh_types::{Memo, record_type, record_type_of};
use std::alloc::{AllocError, Global};

/// The type of a field, joined with that of the other record type's field of the same label, if there is one; none where they
/// collide.
fn joined_type(
    memo: &Memo<Option<CodeId>>,
    kid: &CodeKid,
    other: Option<CodeId>,
) -> Result<Option<CodeId>, AllocError>
    ensures core { IfOk result (λ o. (f : ℕ → Core) → Joins f memo.now → option_map f o ≡ joined_field (λ u. joined (f kid.now.code) u) (f kid.now.code) (option_map f other)) }
    ensures below { IfOk result (λ o. (n : ℕ) → kid.now.code < n → AreFoundBelow n memo.now → IfSome o (λ c. c < n)) }
{
    match other {
        Some(other) => match memo.get(kid.code, other) {
            Some(found) => Ok(found),
            None => Err(AllocError),
        },
        None => Ok(Some(kid.code)),
    }
}

/// The types of the fields of one record type, each joined with that of the other one's field of the same label; none where two of
/// them collide.
fn joined_types(
    alloc: Global,
    memo: &Memo<Option<CodeId>>,
    xs: &[Label],
    kids: &[CodeKid],
    ys: &[Label],
    others: &[CodeKid],
) -> Result<Option<Many<CodeId>>, AllocError>
    requires ascends { IsTrue (ascending ys.now) }
    requires left_paired { length xs.now ≡ length kids.now }
    requires right_paired { length ys.now ≡ length others.now }
    ensures view { IfOk result (λ o. (f : ℕ → Core) → Joins f memo.now → option_map (λ cs. fields_with f xs.now cs) o ≡ joined_all (fields_of f xs.now kids.now) (fields_of f ys.now others.now)) }
    ensures below { IfOk result (λ o. (n : ℕ) → AreKidsBelow n kids.now → AreFoundBelow n memo.now → IfSome o (λ cs. AreBelow n cs)) }
    ensures paired { IfOk result (λ o. IfSome o (λ cs. length xs.now ≡ length cs)) }
{
    let mut types = Many::new(alloc);
    for i in 0..kids.len() {
        let other = field_at(ys, others, &xs[i]);
        match joined_type(memo, &kids[i], other)? {
            Some(code) => types.push(code)?,
            None => return Ok(None),
        }
    }
    Ok(Some(types))
}

/// The labels and types of two record types as one, once the types of common fields were joined; none where two of them collide.
fn both(
    alloc: Global,
    memo: &Memo<Option<CodeId>>,
    xs: &[Label],
    kids: &[CodeKid],
    ys: &[Label],
    others: &[CodeKid],
) -> Result<Option<(Labels, Many<CodeId>)>, AllocError>
    requires left_ascends { IsTrue (ascending xs.now) }
    requires right_ascends { IsTrue (ascending ys.now) }
    requires left_paired { length xs.now ≡ length kids.now }
    requires right_paired { length ys.now ≡ length others.now }
    ensures view { IfOk result (λ o. (f : ℕ → Core) → Joins f memo.now → option_map (record_of f) o ≡ option_map (λ fs. record_type (all_fields (on_side sides.First) fs (fields_of f ys.now others.now))) (joined_all (fields_of f xs.now kids.now) (fields_of f ys.now others.now))) }
    ensures shape { IfOk result (λ o. (n : ℕ) → AreKidsBelow n kids.now → AreKidsBelow n others.now → AreFoundBelow n memo.now → IfSome o (IsRecordBelow n)) }
{
    match joined_types(alloc, memo, xs, kids, ys, others)? {
        Some(left) => {
            let right = ids_of(alloc, others)?;
            let fields = all_types(
                alloc,
                Side::First,
                xs,
                left.as_slice(),
                ys,
                right.as_slice(),
            )?;
            Ok(Some(fields))
        }
        None => Ok(None),
    }
}

/// Two types that are to be joined.
#[derive(Clone, Copy)]
struct Couple {
    left: CodeId,
    right: CodeId,
}

/// The labels and types of two types as one, once those of common fields were joined; none where they collide.
fn joined_fields(
    alloc: Global,
    codes: &Codes,
    memo: &Memo<Option<CodeId>>,
    couple: Couple,
) -> Result<Option<(Labels, Many<CodeId>)>, AllocError>
    requires coded { AreCoded codes.now }
    requires left { couple.left < count codes.now }
    requires right { couple.right < count codes.now }
    requires joined { AreJoined codes.now memo.now }
    ensures view { IfOk result (λ o. option_map (record_of (code_core codes.now)) o ≡ joined (code_core codes.now couple.left) (code_core codes.now couple.right)) }
    ensures shape { IfOk result (λ o. IfSome o (IsRecordBelow (count codes.now))) }
{
    match record_type(codes, couple.left) {
        Some((xs, kids)) => match record_type(codes, couple.right) {
            Some((ys, others)) => both(alloc, memo, xs, kids, ys, others),
            None => Ok(None),
        },
        None => Ok(None),
    }
}

/// Adds the record type, if there is one.
fn made(
    alloc: Global,
    codes: &mut Codes,
    fields: Option<(Labels, Many<CodeId>)>,
) -> Result<Option<CodeId>, AllocError>
    requires coded { AreCoded codes.old }
    requires shape { IfSome fields (IsRecordBelow (count codes.old)) }
    ensures grows { Grows codes.old codes.new }
    ensures made { IfOk result (λ o. option_map (code_core codes.new) o ≡ option_map (record_of (code_core codes.old)) fields) }
    ensures there { IfOk result (λ o. IfSome o (λ c. c < count codes.new)) }
{
    match fields {
        Some((labels, types)) => {
            let code = record_type_of(alloc, codes, labels, types.as_slice())?;
            Ok(Some(code))
        }
        None => Ok(None),
    }
}

/// Joins two types, once those of their common fields were joined.
fn settle(
    alloc: Global,
    codes: &mut Codes,
    memo: &mut Memo<Option<CodeId>>,
    couple: Couple,
) -> Result<(), AllocError>
    requires coded { AreCoded codes.old }
    requires left { couple.left < count codes.old }
    requires right { couple.right < count codes.old }
    requires joined { AreJoined codes.old memo.old }
    ensures grows { Grows codes.old codes.new }
    ensures joined { OnOk result (AreJoined codes.new memo.new) }
{
    let fields = joined_fields(alloc, codes, memo, couple)?;
    let found = made(alloc, codes, fields)?;
    memo.put(couple.left, couple.right, found)
}

/// Puts two record types back, and above them the types of their common fields that were not joined yet; whether there are some.
fn wait(
    codes: &Codes,
    memo: &Memo<Option<CodeId>>,
    todo: &mut Vec<Couple>,
    couple: Couple,
) -> Result<bool, AllocError>
    requires coded { AreCoded codes.now }
{
    let Some((xs, kids)) = record_type(codes, couple.left) else {
        return Ok(false);
    };
    let Some((ys, others)) = record_type(codes, couple.right) else {
        return Ok(false);
    };
    let mut waits = false;
    for i in 0..kids.len() {
        let Some(right) = field_at(ys, others, &xs[i]) else {
            continue;
        };
        let left = kids[i].code;
        if memo.get(left, right).is_none() {
            if !waits {
                todo.push(couple)?;
                waits = true;
            }
            todo.push(Couple { left, right })?;
        }
    }
    Ok(waits)
}

/// Whether a code is there.
fn is_there(codes: &Codes, id: CodeId) -> bool
    ensures { result ≡ true → id < count codes.now }
{
    codes.get(id).is_some()
}

/// Goes on with two types: they were joined, or the types of their common fields are joined first, or they are joined now.
fn go_on(
    alloc: Global,
    codes: &mut Codes,
    memo: &mut Memo<Option<CodeId>>,
    todo: &mut Vec<Couple>,
    couple: Couple,
) -> Result<(), AllocError>
    requires coded { AreCoded codes.old }
    requires joined { AreJoined codes.old memo.old }
    ensures grows { Grows codes.old codes.new }
    ensures joined { OnOk result (AreJoined codes.new memo.new) }
{
    if memo.get(couple.left, couple.right).is_some() {
        return Ok(());
    }
    if wait(codes, memo, todo, couple)? {
        return Ok(());
    }
    if !is_there(codes, couple.left) {
        return Err(AllocError);
    }
    if !is_there(codes, couple.right) {
        return Err(AllocError);
    }
    settle(alloc, codes, memo, couple)
}

/// What was kept for two types.
fn held(
    memo: &Memo<Option<CodeId>>,
    left: CodeId,
    right: CodeId,
) -> Result<Option<CodeId>, AllocError>
    ensures { IfOk result (λ o. entry memo.now left right ≡ Some o) }
{
    match memo.get(left, right) {
        Some(found) => Ok(found),
        None => Err(AllocError),
    }
}

/// Two record types as one; none where the types of a common field collide, as where one of them is no record type.
pub(crate) fn joined(
    alloc: Global,
    codes: &mut Codes,
    left: CodeId,
    right: CodeId,
) -> Result<Option<CodeId>, AllocError>
    requires coded { AreCoded codes.old }
    requires left { left < count codes.old }
    requires right { right < count codes.old }
    ensures grows { Grows codes.old codes.new }
    ensures made { IfOk result (λ o. option_map (code_core codes.new) o ≡ joined (code_core codes.old left) (code_core codes.old right)) }
    ensures there { IfOk result (λ o. IfSome o (λ c. c < count codes.new)) }
{
    let mut memo = Memo::new(alloc);
    let mut todo = Vec::new(alloc);
    todo.push(Couple { left, right })?;
    'couples: for _ in 0..u64::MAX {
        match todo.pop() {
            Some(couple) => go_on(alloc, codes, &mut memo, &mut todo, couple)?,
            None => return held(&memo, left, right),
        }
    }
    Err(AllocError)
}
