//! What stands among the characters of a text literal ("double-quote-literal" and "single-quote-literal" of
//! `dhall.abnf`).
ghost use Rattle.std.specs.Prelude.{◌≡◌, ◌<◌, ◌≤◌, length, IfOk, IfSome, IsTrue, option_map};
ghost use Rattle.std.specs.List.{prefix_len};
ghost use Rattle.std.specs.Str.{IsCharBoundary};
ghost use Rattle.dh_syntax.specs.Text.Characters.{begins};
ghost use Rattle.dh_syntax.specs.Text.LexForms.{stretching};
ghost use Rattle.dh_syntax.specs.Text.LexTexts.{closing_len, double_quoted_character, multi_line_character, piece_character, text_part};
ghost use Rattle.dh_syntax.specs.Text.Stretches.{stretch, good_character};
ghost use Rattle.dh_tokens.specs.Inside.Forms.{form_of, EndsCharacter, IsWithin};
ghost use Rattle.dh_tokens.specs.Inside.Texts.{found_piece, is_plain, IsCharacter, IsNext};

use crate::characters::{char_len, is_good, line_end_len};
use crate::forms::{Form, Found};
use dh_literals::read_escape;
use dh_syntax::{Piece, TextForm, TokenKind};
use std::alloc::{AllocError, Global};

/// What stands at a place of a piece.
#[derive(Clone, Copy, Debug)]
enum Next<'a> {
    /// So many bytes that stand for themselves.
    Plain(usize),
    /// A text, and how many bytes stand for it.
    Text(&'a str, usize),
    /// The character of an escape, and how many bytes the escape takes.
    Escape(char, usize),
    /// The closing, or `${`.
    Ends,
    /// What cannot stand there.
    Faults,
}

/// A byte that stands for itself in both forms of literals, whatever follows it.
fn is_plain(b: u8) -> bool
    ensures { result ≡ is_plain b }
{
    (0x20..=0x7e).contains(&b) && !matches!(b, b'"' | b'$' | b'\'' | b'\\')
}

/// How many such bytes stand at the front.
fn plain_len(rest: &str) -> usize
    ensures { result ≡ prefix_len is_plain rest.now }
{
    rest.bytes().take_while(|b| is_plain(*b)).count()
}

/// How many bytes the closing at the front takes, 0 where there is none.
fn closing_len(form: TextForm, rest: &[u8]) -> usize
    ensures { result ≡ closing_len form rest.now }
{
    match form {
        TextForm::DoubleQuoted if rest.starts_with(b"\"") => 1,
        TextForm::MultiLine if rest.starts_with(b"'''") || rest.starts_with(b"''${") => 0,
        TextForm::MultiLine if rest.starts_with(b"''") => 2,
        _ => 0,
    }
}

/// A character that stands for itself.
fn good_character(rest: &str) -> Next<'_>
    requires { 0 < length rest.now }
    ensures { IsCharacter (good_character rest.now) result rest.now }
{
    if !is_good(rest.as_bytes()) {
        return Next::Faults;
    }
    let len = char_len(rest.as_bytes());
    Next::Text(&rest[..len], len)
}

/// A character or an escape between double quotes.
fn double_quoted_character(rest: &str) -> Next<'_>
    requires { 0 < length rest.now }
    ensures { IsCharacter (double_quoted_character rest.now) result rest.now }
{
    if !rest.as_bytes().starts_with(b"\\") {
        return good_character(rest);
    }
    match read_escape(&rest[1..]) {
        Some((c, len)) => Next::Escape(c, 1 + len),
        None => Next::Faults,
    }
}

/// A character between pairs of single quotes.
fn multi_line_character(rest: &str) -> Next<'_>
    requires { 0 < length rest.now }
    ensures { IsCharacter (multi_line_character rest.now) result rest.now }
{
    let bytes = rest.as_bytes();
    let line_end = line_end_len(bytes);
    if bytes.starts_with(b"'''") {
        Next::Text("''", 3)
    } else if bytes.starts_with(b"''${") {
        Next::Text("${", 4)
    } else if line_end > 0 {
        Next::Text("\n", line_end)
    } else if bytes.starts_with(b"\t") {
        Next::Text("\t", 1)
    } else {
        good_character(rest)
    }
}

/// What stands at the front, several characters at once where each stands for itself.
fn next_in(form: TextForm, rest: &str) -> Next<'_>
    requires { 0 < length rest.now }
    ensures { IsNext form result rest.now }
{
    let plain = plain_len(rest);
    if plain > 0 {
        return Next::Plain(plain);
    }
    let bytes = rest.as_bytes();
    if closing_len(form, bytes) > 0 || bytes.starts_with(b"${") {
        return Next::Ends;
    }
    match form {
        TextForm::DoubleQuoted => double_quoted_character(rest),
        TextForm::MultiLine => multi_line_character(rest),
    }
}

/// The piece up to the closing, `${` or the end of the text.
fn piece(alloc: Global, form: TextForm, rest: &str) -> Result<Option<Form>, AllocError>
    ensures value { IfOk result (λ f. option_map form_of f ≡ stretching found_piece 0 (stretch (piece_character form) 0 rest.now)) }
    ensures within { IfOk result (λ f. IfSome f (λ f. IsWithin f (length rest.now))) }
    ensures whole { IfOk result (λ f. IfSome f (λ f. EndsCharacter f.found f.len rest.now)) }
{
    let mut text = String::new(alloc);
    let mut n = 0;
    'places: while n < rest.len() {
        let here = &rest[n..];
        match next_in(form, here) {
            Next::Plain(len) => {
                text.push_str(&here[..len])?;
                n += len;
            }
            Next::Text(part, len) => {
                text.push_str(part)?;
                n += len;
            }
            Next::Escape(c, len) => {
                text.push(c)?;
                n += len;
            }
            Next::Ends => break,
            Next::Faults => {
                return Ok(Some(Form {
                    found: Found::Faulty(n),
                    len: n + 1,
                }));
            }
        }
    }
    if n == 0 {
        return Ok(None);
    }
    Ok(Some(Form {
        found: Found::Is(TokenKind::TextPiece(Piece::of(text))),
        len: n,
    }))
}

/// The closing of a text, `${`, or the piece up to the next of these.
pub fn text_part(alloc: Global, form: TextForm, rest: &str) -> Result<Option<Form>, AllocError>
    ensures value { IfOk result (λ f. option_map form_of f ≡ text_part form rest.now) }
    ensures within { IfOk result (λ f. IfSome f (λ f. IsWithin f (length rest.now))) }
    ensures whole { IfOk result (λ f. IfSome f (λ f. EndsCharacter f.found f.len rest.now)) }
{
    let closing = closing_len(form, rest.as_bytes());
    if closing > 0 {
        return Ok(Some(Form {
            found: Found::Is(TokenKind::TextClose),
            len: closing,
        }));
    }
    if rest.as_bytes().starts_with(b"${") {
        return Ok(Some(Form {
            found: Found::Is(TokenKind::InterpolationOpen),
            len: 2,
        }));
    }
    piece(alloc, form, rest)
}
