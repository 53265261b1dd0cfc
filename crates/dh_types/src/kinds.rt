//! Types that are functions, applications, equivalences, record types or unions.

ghost use Rattle.std.specs.Prelude.{◌≡◌, ◌<◌, ℕ, IfSome, IsTrue, length};
ghost use Rattle.std.specs.Option.{option_map};
ghost use Rattle.dh_syntax.specs.declared.expressions.Op.TheVariants.{Pi};
ghost use Rattle.dh_syntax.specs.Expressions.Arity.{fits};
ghost use Rattle.dh_syntax.specs.Expressions.Order.{ascending};
ghost use Rattle.dh_syntax.specs.Expressions.Tree.{Node};
ghost use Rattle.dh_syntax.specs.Expressions.Views.{as_app, as_record_type};
ghost use Rattle.dh_syntax.specs.Names.Nameless.{Core};
ghost use Rattle.dh_syntax.specs.Typing.TypeViews.{as_applied, as_equivalence, as_forall, as_union_type};
ghost use Rattle.dh_store.specs.Cells.{code_core, code_row, AreCoded, AreKidsBelow};
ghost use Rattle.dh_types.specs.Closed.{AreClosed, AreClosedTypes, IsClosed, IsClosedBelow};
ghost use Rattle.dh_types.specs.Parts.{alternatives_of, fields_of};

use crate::heads::is_constant;
use crate::nodes::shown;
use crate::rows::first_two;
use dh_store::{CodeId, CodeKid, Codes};
use dh_syntax::{Alt, BinOp, Builtin, Label, Op};

fn application_in(op: &Op, kids: &[CodeKid]) -> Option<(CodeId, CodeId)>
    ensures view { (f : ℕ → Core) → option_map (λ x. (f x.0, f x.1)) result ≡ as_app (Node op.now (code_row f kids.now)) }
    ensures there { (n : ℕ) → AreKidsBelow n kids.now → IfSome result (λ x. (x.0 < n) × (x.1 < n)) }
{
    match op {
        Op::App => first_two(kids),
        _ => None,
    }
}

/// The function and the argument of a code that is an application.
pub fn application(codes: &Codes, id: CodeId) -> Option<(CodeId, CodeId)>
    requires coded { AreCoded codes.now }
    ensures view { option_map (λ x. (code_core codes.now x.0, code_core codes.now x.1)) result ≡ as_app (code_core codes.now id) }
    ensures older { IfSome result (λ x. (x.0 < id) × (x.1 < id)) }
{
    match shown(codes, id) {
        Some((op, kids)) => application_in(op, kids),
        None => None,
    }
}

/// The argument of a code that is the constant `builtin` applied to one, as `List t` and `Optional t`.
pub fn argument_of(codes: &Codes, builtin: Builtin, id: CodeId) -> Option<CodeId>
    requires coded { AreCoded codes.now }
    ensures view { option_map (code_core codes.now) result ≡ as_applied builtin (code_core codes.now id) }
    ensures older { IfSome result (λ x. x < id) }
{
    match application(codes, id) {
        Some((function, argument)) => {
            if is_constant(codes, builtin, function) {
                Some(argument)
            } else {
                None
            }
        }
        None => None,
    }
}

fn equivalence_in(op: &Op, kids: &[CodeKid]) -> Option<(CodeId, CodeId)>
    ensures view { (f : ℕ → Core) → option_map (λ x. (f x.0, f x.1)) result ≡ as_equivalence (Node op.now (code_row f kids.now)) }
    ensures there { (n : ℕ) → AreKidsBelow n kids.now → IfSome result (λ x. (x.0 < n) × (x.1 < n)) }
{
    match op {
        Op::Bin(BinOp::Equivalent) => first_two(kids),
        _ => None,
    }
}

/// The sides of a code that is `l ≡ r`.
pub fn equivalence(codes: &Codes, id: CodeId) -> Option<(CodeId, CodeId)>
    requires coded { AreCoded codes.now }
    ensures view { option_map (λ x. (code_core codes.now x.0, code_core codes.now x.1)) result ≡ as_equivalence (code_core codes.now id) }
    ensures older { IfSome result (λ x. (x.0 < id) × (x.1 < id)) }
{
    match shown(codes, id) {
        Some((op, kids)) => equivalence_in(op, kids),
        None => None,
    }
}

/// The domain, the label and the range of a ∀ with these parts.
fn binding(kids: &[CodeKid]) -> Option<(CodeId, &Label, CodeId)>
    ensures view { (f : ℕ → Core) → option_map (λ x. (f x.0, x.1.now, f x.2)) result ≡ as_forall (Node Pi (code_row f kids.now)) }
    ensures there { (n : ℕ) → AreKidsBelow n kids.now → IfSome result (λ x. (x.0 < n) × (x.2 < n)) }
    ensures closed { (f : ℕ → Core) → AreClosed f kids.now → IfSome result (λ x. IsClosed (f x.0) × IsClosedBelow (f x.2)) }
{
    match kids {
        [domain, range, ..] => match &range.binder {
            Some(label) => {
                if domain.binder.is_none() {
                    Some((domain.code, label, range.code))
                } else {
                    None
                }
            }
            None => None,
        },
        [_domain] => None,
        [] => None,
    }
}

fn forall_in<'a>(op: &'a Op, kids: &'a [CodeKid]) -> Option<(CodeId, &'a Label, CodeId)>
    ensures view { (f : ℕ → Core) → option_map (λ x. (f x.0, x.1.now, f x.2)) result ≡ as_forall (Node op.now (code_row f kids.now)) }
    ensures there { (n : ℕ) → AreKidsBelow n kids.now → IfSome result (λ x. (x.0 < n) × (x.2 < n)) }
    ensures closed { (f : ℕ → Core) → AreClosed f kids.now → IfSome result (λ x. IsClosed (f x.0) × IsClosedBelow (f x.2)) }
{
    match op {
        Op::Pi => binding(kids),
        _ => None,
    }
}

/// The domain, the label and the range of a code that is `∀(x : t) → b`.
pub fn forall(codes: &Codes, id: CodeId) -> Option<(CodeId, &Label, CodeId)>
    requires coded { AreCoded codes.now }
    ensures view { option_map (λ x. (code_core codes.now x.0, x.1.now, code_core codes.now x.2)) result ≡ as_forall (code_core codes.now id) }
    ensures older { IfSome result (λ x. (x.0 < id) × (x.2 < id)) }
    ensures closed { IsClosed (code_core codes.now id) → IfSome result (λ x. IsClosed (code_core codes.now x.0) × IsClosedBelow (code_core codes.now x.2)) }
{
    match shown(codes, id) {
        Some((op, kids)) => forall_in(op, kids),
        None => None,
    }
}

fn record_type_in<'a>(op: &'a Op, kids: &'a [CodeKid]) -> Option<(&'a [Label], &'a [CodeKid])>
    requires fits { (f : ℕ → Core) → IsTrue (fits op.now (code_row f kids.now)) }
    ensures view { (f : ℕ → Core) → option_map (λ x. fields_of f x.0.now x.1.now) result ≡ as_record_type (Node op.now (code_row f kids.now)) }
    ensures there { (n : ℕ) → AreKidsBelow n kids.now → IfSome result (λ x. AreKidsBelow n x.1.now) }
    ensures lengths { IfSome result (λ x. length x.0.now ≡ length x.1.now) }
    ensures ascends { IfSome result (λ x. IsTrue (ascending x.0.now)) }
    ensures closed { (f : ℕ → Core) → AreClosed f kids.now → IfSome result (λ x. AreClosedTypes f x.1.now) }
{
    match op {
        Op::RecordType(labels) => Some((labels.as_slice(), kids)),
        _ => None,
    }
}

/// The labels and the fields of a code that is a record type.
pub fn record_type(codes: &Codes, id: CodeId) -> Option<(&[Label], &[CodeKid])>
    requires coded { AreCoded codes.now }
    ensures view { option_map (λ x. fields_of (code_core codes.now) x.0.now x.1.now) result ≡ as_record_type (code_core codes.now id) }
    ensures older { IfSome result (λ x. AreKidsBelow id x.1.now) }
    ensures lengths { IfSome result (λ x. length x.0.now ≡ length x.1.now) }
    ensures ascends { IfSome result (λ x. IsTrue (ascending x.0.now)) }
    ensures closed { IsClosed (code_core codes.now id) → IfSome result (λ x. AreClosedTypes (code_core codes.now) x.1.now) }
{
    match shown(codes, id) {
        Some((op, kids)) => record_type_in(op, kids),
        None => None,
    }
}

fn union_type_in<'a>(op: &'a Op, kids: &'a [CodeKid]) -> Option<(&'a [Alt], &'a [CodeKid])>
    requires fits { (f : ℕ → Core) → IsTrue (fits op.now (code_row f kids.now)) }
    ensures view { (f : ℕ → Core) → option_map (λ x. alternatives_of f x.0.now x.1.now) result ≡ as_union_type (Node op.now (code_row f kids.now)) }
    ensures there { (n : ℕ) → AreKidsBelow n kids.now → IfSome result (λ x. AreKidsBelow n x.1.now) }
{
    match op {
        Op::Union(alts) => Some((alts.as_slice(), kids)),
        _ => None,
    }
}

/// The alternatives of a code that is a union, and the types of those that have one.
pub fn union_type(codes: &Codes, id: CodeId) -> Option<(&[Alt], &[CodeKid])>
    requires coded { AreCoded codes.now }
    ensures view { option_map (λ x. alternatives_of (code_core codes.now) x.0.now x.1.now) result ≡ as_union_type (code_core codes.now id) }
    ensures older { IfSome result (λ x. AreKidsBelow id x.1.now) }
{
    match shown(codes, id) {
        Some((op, kids)) => union_type_in(op, kids),
        None => None,
    }
}
