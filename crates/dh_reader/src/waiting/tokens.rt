//! Tests of one token.
ghost use Rattle.std.specs.Prelude.{◌≡◌, codes};
ghost use Rattle.dh_syntax.specs.Expressions.Numbers.{bytes_eq};
ghost use Rattle.dh_syntax.specs.Expressions.SameTree.{builtin_eq};
ghost use Rattle.dh_syntax.specs.declared.operators.Builtin.TheVariants as builtins;
ghost use Rattle.dh_reader.specs.Inside.Tokens.{mark_eq, mark_of, is_found, mode_of, natural_of};

use dh_syntax::{Builtin, Label, Mark, Mode, TokenKind};
use std::mem::drop;

/// Whether the two marks are equal.
fn is_same_mark(mark: Mark, found: Mark) -> bool
    ensures { result ≡ mark_eq mark found }
{
    mark == found
}

/// The mark that the token is, if it is one.
pub fn mark_of(kind: &TokenKind) -> Option<Mark>
    ensures { result ≡ mark_of kind.now }
{
    match kind {
        TokenKind::Mark(mark) => Some(*mark),
        _ => None,
    }
}

/// The mark that the token is, if it is one. Any other token is let go.
pub fn into_mark(kind: TokenKind) -> Option<Mark>
    ensures { result ≡ mark_of kind }
{
    match kind {
        TokenKind::Mark(mark) => Some(mark),
        other => {
            drop(other);
            None
        }
    }
}

/// Whether the mark was found.
pub fn is_found(found: Option<Mark>, mark: Mark) -> bool
    ensures { result ≡ is_found mark found }
{
    match found {
        Some(found) => is_same_mark(mark, found),
        None => false,
    }
}

/// The natural that the token is, if it is one.
pub fn natural_of(kind: &TokenKind) -> Option<u128>
    ensures { result ≡ natural_of kind.now }
{
    match kind {
        TokenKind::Natural(n) => Some(*n),
        _ => None,
    }
}

/// Whether the name is `Location`.
fn is_location(label: &Label) -> bool
    ensures { result ≡ bytes_eq label.now (codes "Location") }
{
    label.as_str() == "Location"
}

/// Whether the built-in name is `Text`.
fn is_text(builtin: Builtin) -> bool
    ensures { result ≡ builtin_eq builtin builtins.Text }
{
    builtin == Builtin::Text
}

/// The mode of import that the token behind `as` asks for, if it asks for one.
pub fn mode_of(kind: &TokenKind) -> Option<Mode>
    ensures { result ≡ mode_of kind.now }
{
    match kind {
        TokenKind::Builtin(builtin) => {
            if is_text(*builtin) {
                Some(Mode::Text)
            } else {
                None
            }
        }
        TokenKind::Name(label) => {
            if is_location(label) {
                Some(Mode::Location)
            } else {
                None
            }
        }
        _ => None,
    }
}
