//! How a node has its JSON value.

ghost use Rattle.std.specs.Prelude.{◌≡◌, option_and_then, option_map};
ghost use Rattle.dh_syntax.specs.Expressions.Numbers.{bytes_eq};
ghost use Rattle.dh_syntax.specs.Expressions.Bridge.{row_of, term};
ghost use Rattle.dh_syntax.specs.Expressions.Views.{as_alternative, as_union, first_part, is_none};
ghost use Rattle.dh_json.specs.JsonValue.{alternative, application_in, case_of, integer, natural, selection_in, text_case, whole};
ghost use Rattle.dh_json.specs.Inside.{case_shown};

use dh_syntax::{Alt, Builtin, Expr, Kid, Label, Op, Piece};

/// How a node has its JSON value.
#[derive(Clone, Copy)]
pub(crate) enum Form<'a> {
    Null,
    Truth(bool),
    Unsigned(u64),
    Signed(i64),
    Text(&'a str),
    NoElements,
    /// The array of the values of its parts.
    Elements,
    /// The object of the values of its parts under these labels.
    Fields(&'a [Label]),
    /// The value of the part with this number.
    Part(usize),
    NoValue,
}

/// How a node has its value.
pub(crate) fn form_of<'a>(op: &'a Op, kids: &'a [Kid]) -> Form<'a>
    ensures { case_shown result ≡ case_of op.now (row_of kids.now) }
{
    match op {
        Op::Builtin(_) => Form::NoValue,
        Op::Bool(value) => Form::Truth(*value),
        Op::Nat(value) => natural_form(*value),
        Op::Int(value) => integer_form(*value),
        Op::Text(pieces) => text_form(pieces.as_slice()),
        Op::Import(_) => Form::NoValue,
        Op::Lam => Form::NoValue,
        Op::Pi => Form::NoValue,
        Op::Let(_) => Form::NoValue,
        Op::App => application_form(first_part(kids)),
        Op::If => Form::NoValue,
        Op::Bin(_) => Form::NoValue,
        Op::EmptyList => Form::NoElements,
        Op::List => Form::Elements,
        Op::Some => Form::Part(0),
        Op::Merge(_) => Form::NoValue,
        Op::RecordType(_) => Form::NoValue,
        Op::Record(labels) => Form::Fields(labels.as_slice()),
        Op::Field(label) => selection_form(label, first_part(kids)),
        Op::Project(_) => Form::NoValue,
        Op::ProjectType => Form::NoValue,
        Op::Union(_) => Form::NoValue,
        Op::Assert => Form::NoValue,
        Op::Annot => Form::NoValue,
        Op::ToMap(_) => Form::NoValue,
        Op::With(_) => Form::NoValue,
    }
}

/// A natural number, if it has 64 bits.
fn natural_form<'a>(n: u128) -> Form<'a>
    ensures { case_shown result ≡ whole (natural n) }
{
    if n < 1 << 64 {
        Form::Unsigned(n as u64)
    } else {
        Form::NoValue
    }
}

/// An integer, if it is from -2^63 to 2^64 - 1.
fn integer_form<'a>(z: i128) -> Form<'a>
    ensures { case_shown result ≡ whole (integer z) }
{
    if 0 <= z && z < 1 << 64 {
        Form::Unsigned(z as u64)
    } else if z < 0 && -(1 << 63) <= z {
        Form::Signed(z as i64)
    } else {
        Form::NoValue
    }
}

/// A text without interpolation.
fn text_form(pieces: &[Piece]) -> Form<'_>
    ensures { case_shown result ≡ text_case pieces.now }
{
    match pieces {
        [] => Form::NoValue,
        [piece] => Form::Text(piece.as_str()),
        [_first, _second, ..] => Form::NoValue,
    }
}

/// The first part, where it stands under no binder.
fn first_part(kids: &[Kid]) -> Option<&Expr>
    ensures { option_map (λ e. term e.now) result ≡ first_part (row_of kids.now) }
{
    match kids.first() {
        Some(kid) => match &kid.binder {
            Some(_) => None,
            None => Some(&kid.body),
        },
        None => None,
    }
}

/// The alternatives of a union type.
fn union_of(e: &Expr) -> Option<&[Alt]>
    ensures { option_map (λ alts. alts.now) result ≡ as_union (term e.now) }
{
    match e {
        Expr::Node(op, _) => match op {
            Op::Union(alts) => Some(alts.as_slice()),
            _ => None,
        },
        Expr::Var(_, _) => None,
    }
}

/// Whether the labels are equal.
fn is_same_label(x: &Label, y: &Label) -> bool
    ensures { result ≡ bytes_eq x.now y.now }
{
    x.as_str() == y.as_str()
}

/// Whether the alternative of this label has a type, if there is one.
fn alternative(x: &Label, alts: &[Alt]) -> Option<bool>
    ensures { result ≡ alternative x.now alts.now }
{
    for alt in alts {
        if is_same_label(x, &alt.label) {
            return Some(alt.typed);
        }
    }
    None
}

/// A selection from a union.
fn selection_form<'a>(x: &'a Label, u: Option<&'a Expr>) -> Form<'a>
    ensures { case_shown result ≡ selection_in x.now (option_map (λ e. term e.now) u.entry) }
{
    match u {
        Some(u) => match union_of(u) {
            Some(alts) => match alternative(x, alts) {
                Some(typed) => {
                    if typed {
                        Form::NoValue
                    } else {
                        Form::Text(x.as_str())
                    }
                }
                None => Form::NoValue,
            },
            None => Form::NoValue,
        },
        None => Form::NoValue,
    }
}

/// Whether it is the built-in `None`.
fn is_none(e: &Expr) -> bool
    ensures { result ≡ is_none (term e.now) }
{
    match e {
        Expr::Node(op, _) => match op {
            Op::Builtin(builtin) => match builtin {
                Builtin::None => true,
                _ => false,
            },
            _ => false,
        },
        Expr::Var(_, _) => false,
    }
}

/// Whether an alternative of a union is selected, and whether it has a type.
fn alternative_of(e: &Expr) -> Option<bool>
    ensures { result ≡ option_and_then (λ a. alternative a.0 a.1) (as_alternative (term e.now)) }
{
    match e {
        Expr::Node(op, kids) => match op {
            Op::Field(x) => match first_part(kids.as_slice()) {
                Some(u) => match union_of(u) {
                    Some(alts) => alternative(x, alts),
                    None => None,
                },
                None => None,
            },
            _ => None,
        },
        Expr::Var(_, _) => None,
    }
}

/// An application.
fn application_form<'a>(f: Option<&'a Expr>) -> Form<'a>
    ensures { case_shown result ≡ application_in (option_map (λ e. term e.now) f.entry) }
{
    match f {
        Some(f) => {
            if is_none(f) {
                return Form::Null;
            }
            match alternative_of(f) {
                Some(typed) => { if typed { Form::Part(1) } else { Form::NoValue } }
                None => Form::NoValue,
            }
        }
        None => Form::NoValue,
    }
}
