//! Names ("simple-label", "quoted-label", "keyword" and "builtin" of `dhall.abnf`).
ghost use Rattle.std.specs.Prelude.{◌≡◌, if◌then◌else◌, IfOk, IsTrue, Some, None, IfSome, length, option_map, map};
ghost use Rattle.dh_syntax.specs.Text.Characters.{begins, first, is_name_start};
ghost use Rattle.dh_syntax.specs.Text.LexForms.{LeftOut, form};
ghost use Rattle.dh_syntax.specs.Text.LexNames.{name, named, named_in, quoted_name, minus_infinity};
ghost use Rattle.dh_tokens.specs.Inside.Forms.{form_of, found_of, IsWithin};
ghost use Rattle.dh_tokens.specs.Inside.Names.{beginning_with, meaning_of, meaning_or_label, reserved_names, reserved_of};

use crate::characters::{after, byte_at};
use crate::classes::{Class, run, run_len};
use crate::forms::{Form, Found};
use dh_syntax::{Builtin, Keyword, Label, Mark, TokenKind};
use std::alloc::{AllocError, Global};

/// What a name is that is no label.
#[derive(Clone, Copy, Debug)]
pub enum Meaning {
    Keyword(Keyword),
    Forall,
    Bool(bool),
    Builtin(Builtin),
    /// A keyword or a built-in name that is left out.
    LeftOut,
}

/// The names that are no labels, by their first bytes: the keywords, the built-in names, and those of both that are left
/// out.
static ON_A: [(&str, Meaning); 2] = [
    ("assert", Meaning::Keyword(Keyword::Assert)),
    ("as", Meaning::Keyword(Keyword::As)),
];

static ON_E: [(&str, Meaning); 1] = [("else", Meaning::Keyword(Keyword::Else))];

static ON_F: [(&str, Meaning); 1] = [("forall", Meaning::Forall)];

static ON_I: [(&str, Meaning); 2] = [
    ("if", Meaning::Keyword(Keyword::If)),
    ("in", Meaning::Keyword(Keyword::In)),
];

static ON_L: [(&str, Meaning); 1] = [("let", Meaning::Keyword(Keyword::Let))];

static ON_M: [(&str, Meaning); 2] = [
    ("missing", Meaning::Keyword(Keyword::Missing)),
    ("merge", Meaning::Keyword(Keyword::Merge)),
];

static ON_S: [(&str, Meaning); 1] = [("showConstructor", Meaning::LeftOut)];

static ON_T: [(&str, Meaning); 2] = [
    ("then", Meaning::Keyword(Keyword::Then)),
    ("toMap", Meaning::Keyword(Keyword::ToMap)),
];

static ON_U: [(&str, Meaning); 1] = [("using", Meaning::LeftOut)];

static ON_W: [(&str, Meaning); 1] = [("with", Meaning::Keyword(Keyword::With))];

static ON_CAPITAL_B: [(&str, Meaning); 2] = [
    ("Bool", Meaning::Builtin(Builtin::Bool)),
    ("Bytes", Meaning::LeftOut),
];

static ON_CAPITAL_D: [(&str, Meaning); 4] = [
    ("Double", Meaning::LeftOut),
    ("Double/show", Meaning::LeftOut),
    ("Date", Meaning::LeftOut),
    ("Date/show", Meaning::LeftOut),
];

static ON_CAPITAL_F: [(&str, Meaning); 1] = [("False", Meaning::Bool(false))];

static ON_CAPITAL_I: [(&str, Meaning); 6] = [
    ("Integer", Meaning::Builtin(Builtin::Integer)),
    ("Integer/show", Meaning::Builtin(Builtin::IntegerShow)),
    ("Integer/negate", Meaning::Builtin(Builtin::IntegerNegate)),
    ("Integer/clamp", Meaning::Builtin(Builtin::IntegerClamp)),
    ("Integer/toDouble", Meaning::LeftOut),
    ("Infinity", Meaning::LeftOut),
];

static ON_CAPITAL_K: [(&str, Meaning); 1] = [("Kind", Meaning::Builtin(Builtin::Kind))];

static ON_CAPITAL_L: [(&str, Meaning); 8] = [
    ("List", Meaning::Builtin(Builtin::List)),
    ("List/build", Meaning::Builtin(Builtin::ListBuild)),
    ("List/fold", Meaning::Builtin(Builtin::ListFold)),
    ("List/length", Meaning::Builtin(Builtin::ListLength)),
    ("List/head", Meaning::Builtin(Builtin::ListHead)),
    ("List/last", Meaning::Builtin(Builtin::ListLast)),
    ("List/indexed", Meaning::Builtin(Builtin::ListIndexed)),
    ("List/reverse", Meaning::Builtin(Builtin::ListReverse)),
];

static ON_CAPITAL_N: [(&str, Meaning); 11] = [
    ("Natural", Meaning::Builtin(Builtin::Natural)),
    ("None", Meaning::Builtin(Builtin::None)),
    ("Natural/fold", Meaning::Builtin(Builtin::NaturalFold)),
    ("Natural/build", Meaning::Builtin(Builtin::NaturalBuild)),
    ("Natural/isZero", Meaning::Builtin(Builtin::NaturalIsZero)),
    ("Natural/even", Meaning::Builtin(Builtin::NaturalEven)),
    ("Natural/odd", Meaning::Builtin(Builtin::NaturalOdd)),
    (
        "Natural/toInteger",
        Meaning::Builtin(Builtin::NaturalToInteger),
    ),
    ("Natural/show", Meaning::Builtin(Builtin::NaturalShow)),
    (
        "Natural/subtract",
        Meaning::Builtin(Builtin::NaturalSubtract),
    ),
    ("NaN", Meaning::LeftOut),
];

static ON_CAPITAL_O: [(&str, Meaning); 1] = [("Optional", Meaning::Builtin(Builtin::Optional))];

static ON_CAPITAL_S: [(&str, Meaning); 2] = [
    ("Some", Meaning::Keyword(Keyword::Some)),
    ("Sort", Meaning::Builtin(Builtin::Sort)),
];

static ON_CAPITAL_T: [(&str, Meaning); 9] = [
    ("True", Meaning::Bool(true)),
    ("Type", Meaning::Builtin(Builtin::TypeConst)),
    ("Text", Meaning::Builtin(Builtin::Text)),
    ("Text/show", Meaning::Builtin(Builtin::TextShow)),
    ("Text/replace", Meaning::Builtin(Builtin::TextReplace)),
    ("Time", Meaning::LeftOut),
    ("Time/show", Meaning::LeftOut),
    ("TimeZone", Meaning::LeftOut),
    ("TimeZone/show", Meaning::LeftOut),
];

impl Meaning {
    fn found(self) -> Found
        ensures { found_of result ≡ meaning_of self }
    {
        match self {
            Meaning::Keyword(keyword) => Found::Is(TokenKind::Keyword(keyword)),
            Meaning::Forall => Found::Is(TokenKind::Mark(Mark::Forall)),
            Meaning::Bool(truth) => Found::Is(TokenKind::Bool(truth)),
            Meaning::Builtin(builtin) => Found::Is(TokenKind::Builtin(builtin)),
            Meaning::LeftOut => Found::LeftOut,
        }
    }
}

/// What a name is by a table of names that are no labels.
fn meaning_in(table: &[(&str, Meaning)], name: &str) -> Option<Meaning>
    ensures { meaning_or_label result name.now ≡ named_in (map reserved_of table.now) name.now }
{
    for (spelling, meaning) in table {
        if *spelling == name {
            return Some(*meaning);
        }
    }
    None
}

/// The names that are no labels and begin with this byte.
fn beginning_with(first: u8) -> &'static [(&'static str, Meaning)]
    ensures { map reserved_of result.now ≡ beginning_with first reserved_names }
{
    match first {
        b'a' => &ON_A,
        b'e' => &ON_E,
        b'f' => &ON_F,
        b'i' => &ON_I,
        b'l' => &ON_L,
        b'm' => &ON_M,
        b's' => &ON_S,
        b't' => &ON_T,
        b'u' => &ON_U,
        b'w' => &ON_W,
        b'B' => &ON_CAPITAL_B,
        b'D' => &ON_CAPITAL_D,
        b'F' => &ON_CAPITAL_F,
        b'I' => &ON_CAPITAL_I,
        b'K' => &ON_CAPITAL_K,
        b'L' => &ON_CAPITAL_L,
        b'N' => &ON_CAPITAL_N,
        b'O' => &ON_CAPITAL_O,
        b'S' => &ON_CAPITAL_S,
        b'T' => &ON_CAPITAL_T,
        _ => &[],
    }
}

/// What a whole name is that is no label.
pub fn meaning_of_name(name: &str) -> Option<Meaning>
    ensures { meaning_or_label result name.now ≡ named name.now }
{
    meaning_in(beginning_with(byte_at(name.as_bytes(), 0)), name)
}

/// What a whole name is.
fn named(alloc: Global, name: &str) -> Result<Found, AllocError>
    ensures { IfOk result (λ f. found_of f ≡ named name.now) }
{
    match meaning_of_name(name) {
        Some(meaning) => Ok(meaning.found()),
        None => Ok(Found::Is(TokenKind::Name(Label::new(alloc, name)?))),
    }
}

/// The longest name at the front, and what it is.
pub fn name(alloc: Global, rest: &[u8]) -> Result<Form, AllocError>
    requires { IsTrue (is_name_start (first rest.now)) }
    ensures value { IfOk result (λ f. Some (form_of f) ≡ name rest.now) }
    ensures within { IfOk result (λ f. IsWithin f (length rest.now)) }
{
    let text = run(rest, Class::Name);
    Ok(Form {
        found: named(alloc, text)?,
        len: text.len(),
    })
}

/// A label between backticks.
pub fn quoted_name(alloc: Global, rest: &[u8]) -> Result<Option<Form>, AllocError>
    requires { IsTrue (begins "`" rest.now) }
    ensures value { IfOk result (λ f. option_map form_of f ≡ quoted_name rest.now) }
    ensures within { IfOk result (λ f. IfSome f (λ f. IsWithin f (length rest.now))) }
{
    let text = run(after(rest, 1), Class::QuotedLabel);
    if byte_at(rest, 1 + text.len()) != b'`' {
        return Ok(None);
    }
    let label = Label::new(alloc, text)?;
    Ok(Some(Form {
        found: Found::Is(TokenKind::Quoted(label)),
        len: 2 + text.len(),
    }))
}

/// Whether `-Infinity` stands at the front, as a whole name.
pub fn begins_minus_infinity(rest: &[u8]) -> bool
    ensures { minus_infinity rest.now ≡ (if result then form LeftOut 9 else None) }
{
    rest.starts_with(b"-Infinity") && run_len(after(rest, 1), Class::Name) == 8
}
