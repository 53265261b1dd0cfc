//! The forms of which most of a text is, read without a large value to move: names, natural numbers and most marks.
ghost use Rattle.std.specs.Prelude.{◌≡◌, ◌<◌, ◌≤◌, length, IsTrue, IfOk, IfSome, Some};
ghost use Rattle.dh_syntax.specs.Text.Characters.{first, is_name_start};
ghost use Rattle.dh_syntax.specs.Text.LexForms.{Is};
ghost use Rattle.dh_syntax.specs.Text.LexMarks.{mark};
ghost use Rattle.dh_syntax.specs.Text.LexNames.{named};
ghost use Rattle.dh_tokens.specs.Inside.Fronts.{is_first};
ghost use Rattle.dh_tokens.specs.Inside.LongestForms.{longest_form};
ghost use Rattle.dh_tokens.specs.Inside.SmallForms.{BeginsNoPath, small, small_kind};

use crate::characters::byte_at;
use crate::classes::{Class, run};
use crate::fronts::First;
use crate::marks::front_mark;
use crate::names::{Meaning, meaning_of_name};
use crate::numbers::small_natural;
use dh_syntax::{Builtin, Keyword, Label, Mark, TokenKind};
use std::alloc::{AllocError, Global};

/// What a small form is.
#[derive(Clone, Copy, Debug)]
pub enum Small<'a> {
    /// A name that is a label.
    Name(&'a str),
    Keyword(Keyword),
    Bool(bool),
    Builtin(Builtin),
    Natural(u64),
    Mark(Mark),
}

impl Small<'_> {
    /// What its token is.
    pub fn kind(self, alloc: Global) -> Result<TokenKind, AllocError>
        ensures { IfOk result (λ kind. kind ≡ small_kind self.entry) }
    {
        match self {
            Small::Name(name) => Ok(TokenKind::Name(Label::new(alloc, name)?)),
            Small::Keyword(keyword) => Ok(TokenKind::Keyword(keyword)),
            Small::Bool(truth) => Ok(TokenKind::Bool(truth)),
            Small::Builtin(builtin) => Ok(TokenKind::Builtin(builtin)),
            Small::Natural(n) => Ok(TokenKind::Natural(u128::from(n))),
            Small::Mark(mark) => Ok(TokenKind::Mark(mark)),
        }
    }
}

/// What a whole name is, unless it is left out.
fn small_name(name: &str) -> Option<Small<'_>>
    ensures { IfSome result (λ s. named name.now ≡ Is (small_kind s)) }
{
    match meaning_of_name(name) {
        None => Some(Small::Name(name)),
        Some(Meaning::Keyword(keyword)) => Some(Small::Keyword(keyword)),
        Some(Meaning::Forall) => Some(Small::Mark(Mark::Forall)),
        Some(Meaning::Bool(truth)) => Some(Small::Bool(truth)),
        Some(Meaning::Builtin(builtin)) => Some(Small::Builtin(builtin)),
        Some(Meaning::LeftOut) => None,
    }
}

/// The name at the front, and how many bytes it takes. Before a colon a location or a digest may begin there.
fn small_word(rest: &[u8]) -> Option<(Small<'_>, usize)>
    requires { IsTrue (is_name_start (first rest.now)) }
    ensures value { IfSome result (λ m. longest_form rest.now ≡ Some (small m)) }
    ensures within { IfSome result (λ m. (0 < m.1) × (m.1 ≤ length rest.now)) }
{
    let name = run(rest, Class::Name);
    if byte_at(rest, name.len()) == b':' {
        return None;
    }
    let small = small_name(name)?;
    Some((small, name.len()))
}

/// The mark at the front, and how many bytes it takes.
fn small_mark(rest: &[u8]) -> Option<(Small<'_>, usize)>
    requires some { 0 < length rest.now }
    requires alone { longest_form rest.now ≡ mark rest.now }
    ensures value { IfSome result (λ m. longest_form rest.now ≡ Some (small m)) }
    ensures within { IfSome result (λ m. (0 < m.1) × (m.1 ≤ length rest.now)) }
{
    let (mark, len) = front_mark(rest)?;
    Some((Small::Mark(mark), len))
}

/// Whether these two bytes begin no path: a dot with neither a slash nor a dot behind it, or a mark at a slash.
fn begin_no_path(first: u8, second: u8) -> bool
    ensures { IsTrue result → BeginsNoPath first second }
{
    match first {
        b'.' => second != b'.' && second != b'/',
        b'/' => second == b'/' || second == b'\\',
        _ => false,
    }
}

/// Whether two bytes show that no form but a mark stands at the front.
fn has_marks_only(kind: First, rest: &[u8]) -> bool
    requires some { 0 < length rest.now }
    requires kind { IsTrue (is_first kind (first rest.now)) }
    ensures { IsTrue result → longest_form rest.now ≡ mark rest.now }
{
    let second = byte_at(rest, 1);
    match kind {
        First::Other => true,
        First::Brace => second != b'-',
        First::Minus => second == b'>',
        First::Plus => !second.is_ascii_digit(),
        First::Path => begin_no_path(byte_at(rest, 0), second),
        _ => false,
    }
}

/// The small form at the front, if one stands there, and how many bytes it takes.
pub fn small_form(rest: &[u8]) -> Option<(Small<'_>, usize)>
    requires some { 0 < length rest.now }
    ensures value { IfSome result (λ m. longest_form rest.now ≡ Some (small m)) }
    ensures within { IfSome result (λ m. (0 < m.1) × (m.1 ≤ length rest.now)) }
{
    match First::of(rest[0]) {
        First::Word => small_word(rest),
        First::Digit => {
            let (n, len) = small_natural(rest)?;
            Some((Small::Natural(n), len))
        }
        kind => {
            if has_marks_only(kind, rest) {
                small_mark(rest)
            } else {
                None
            }
        }
    }
}
