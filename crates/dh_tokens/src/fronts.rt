//! The longest form at the front, outside the characters of texts.
ghost use Rattle.std.specs.Prelude.{◌≡◌, ◌<◌, ◌⊎◌, [], ◌∷◌, length, IsTrue, Some, IfOk, IfSome, option_map};
ghost use Rattle.std.specs.Str.{byte};
ghost use Rattle.dh_syntax.specs.Text.Characters.{first, is_name_start};
ghost use Rattle.dh_syntax.specs.Text.LexForms.{longest};
ghost use Rattle.dh_syntax.specs.Text.Lexing.{code_form, no_form};
ghost use Rattle.dh_syntax.specs.Text.LexLocations.{digest, environment, url};
ghost use Rattle.dh_syntax.specs.Text.LexNames.{name};
ghost use Rattle.dh_syntax.specs.Text.LexTexts.{multi_line_opening};
ghost use Rattle.dh_tokens.specs.Inside.Forms.{form_of, joined, IsWithin};
ghost use Rattle.dh_tokens.specs.Inside.Fronts.{is_first};
ghost use Rattle.dh_tokens.specs.Inside.LongestForms.{longest_form};

use crate::characters::{after, code_at, line_end_len};
use crate::digests::digest;
use crate::environments::environment;
use crate::forms::{Form, Found};
use crate::gaps::{block_comment, line_comment, white_space};
use crate::marks::mark;
use crate::names::{begins_minus_infinity, name, quoted_name};
use crate::numbers::{number, signed_number};
use crate::paths::path;
use crate::urls::url;
use dh_syntax::{TextForm, TokenKind};
use std::alloc::{AllocError, Global};

/// What the first byte of a form tells of it.
#[derive(Clone, Copy, Debug)]
pub enum First {
    White,
    /// A letter or `_`.
    Word,
    Digit,
    Quote,
    Apostrophe,
    Backtick,
    Brace,
    Minus,
    Plus,
    /// `.`, `/` or `~`.
    Path,
    /// A byte that begins a mark or no form.
    Other,
}

impl First {
    pub fn of(b: u8) -> First
        ensures { IsTrue (is_first result b) }
    {
        match b {
            b' ' | b'\t' | b'\n' | b'\r' => First::White,
            b'a'..=b'z' | b'A'..=b'Z' | b'_' => First::Word,
            b'0'..=b'9' => First::Digit,
            b'"' => First::Quote,
            b'\'' => First::Apostrophe,
            b'`' => First::Backtick,
            b'{' => First::Brace,
            b'-' => First::Minus,
            b'+' => First::Plus,
            b'.' | b'/' | b'~' => First::Path,
            _ => First::Other,
        }
    }
}

/// The longer of two forms, the first one where they are equally long.
fn longer(one: Option<Form>, other: Option<Form>) -> Option<Form>
    ensures value { option_map form_of result ≡ joined (option_map form_of one) (option_map form_of other) }
    ensures one_of { (result ≡ one) ⊎ (result ≡ other) }
{
    match (one, other) {
        (None, other) => other,
        (one, None) => one,
        (Some(f), Some(g)) => Some(if f.len < g.len { g } else { f }),
    }
}

/// `''` and a line end.
fn multi_line_opening(rest: &[u8]) -> Option<Form>
    ensures value { option_map form_of result ≡ multi_line_opening rest.now }
    ensures within { IfSome result (λ f. IsWithin f (length rest.now)) }
{
    if !rest.starts_with(b"''") {
        return None;
    }
    let line_end = line_end_len(after(rest, 2));
    if line_end == 0 {
        return None;
    }
    Some(Form {
        found: Found::Is(TokenKind::TextOpen(TextForm::MultiLine)),
        len: 2 + line_end,
    })
}

/// A name, or what begins like one. A location or a digest is longer than the name at its start, so no label is made
/// for that.
fn word(alloc: Global, rest: &[u8]) -> Result<Form, AllocError>
    requires { IsTrue (is_name_start (first rest.now)) }
    ensures value { IfOk result (λ f. Some (form_of f) ≡ longest (name rest.now ∷ url rest.now ∷ environment rest.now ∷ digest rest.now ∷ [])) }
    ensures within { IfOk result (λ f. IsWithin f (length rest.now)) }
{
    if let Some(url) = url(alloc, rest)? {
        return Ok(url);
    }
    if let Some(environment) = environment(alloc, rest)? {
        return Ok(environment);
    }
    if let Some(digest) = digest(rest) {
        return Ok(digest);
    }
    name(alloc, rest)
}

/// A block comment or a brace, at `{`.
fn brace(rest: &[u8]) -> Option<Form>
    requires { first rest.now ≡ byte "{" }
    ensures value { option_map form_of result ≡ code_form rest.now }
    ensures within { IfSome result (λ f. IsWithin f (length rest.now)) }
{
    if rest.starts_with(b"{-") {
        Some(block_comment(rest))
    } else {
        mark(rest)
    }
}

/// A line comment, an arrow or a number, at `-`. `-Infinity` is left out.
fn minus(rest: &[u8]) -> Option<Form>
    requires { first rest.now ≡ byte "-" }
    ensures value { option_map form_of result ≡ code_form rest.now }
    ensures within { IfSome result (λ f. IsWithin f (length rest.now)) }
{
    if rest.starts_with(b"--") {
        return Some(line_comment(rest));
    }
    if rest.starts_with(b"->") {
        return mark(rest);
    }
    if begins_minus_infinity(rest) {
        return Some(Form {
            found: Found::LeftOut,
            len: 9,
        });
    }
    signed_number(rest)
}

/// The longest form at the front.
pub fn code_form(alloc: Global, rest: &[u8]) -> Result<Option<Form>, AllocError>
    requires some { 0 < length rest.now }
    ensures value { IfOk result (λ f. option_map form_of f ≡ longest_form rest.now) }
    ensures within { IfOk result (λ f. IfSome f (λ f. IsWithin f (length rest.now))) }
{
    match First::of(rest[0]) {
        First::White => Ok(white_space(rest)),
        First::Word => Ok(Some(word(alloc, rest)?)),
        First::Digit => Ok(Some(number(rest))),
        First::Quote => Ok(Some(Form {
            found: Found::Is(TokenKind::TextOpen(TextForm::DoubleQuoted)),
            len: 1,
        })),
        First::Apostrophe => Ok(multi_line_opening(rest)),
        First::Backtick => quoted_name(alloc, rest),
        First::Brace => Ok(brace(rest)),
        First::Minus => Ok(minus(rest)),
        First::Plus => Ok(longer(signed_number(rest), mark(rest))),
        First::Path => Ok(longer(path(alloc, rest)?, mark(rest))),
        First::Other => Ok(mark(rest)),
    }
}

/// What stands at the front where no form fits. A character past ASCII is left out, but for a non-character.
pub fn no_form(rest: &[u8]) -> Form
    requires some { 0 < length rest.now }
    ensures value { form_of result ≡ no_form rest.now }
    ensures within { IsWithin result (length rest.now) }
{
    let refused = rest[0].is_ascii() || code_at(rest) % 0x1_0000 >= 0xfffe;
    Form {
        found: if refused {
            Found::Faulty(0)
        } else {
            Found::LeftOut
        },
        len: 1,
    }
}
