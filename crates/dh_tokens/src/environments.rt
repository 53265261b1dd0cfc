//! Names of environment variables ("env" of `dhall.abnf`).
ghost use Rattle.std.specs.Prelude.{◌≡◌, ◌+◌, length, IfOk, IfSome, IsTrue, option_map};
ghost use Rattle.dh_syntax.specs.Text.Characters.{begins, is_environment_start};
ghost use Rattle.dh_syntax.specs.Text.LexLocations.{environment, plain_environment, quoted_environment};
ghost use Rattle.dh_tokens.specs.Inside.Forms.{form_of, IsWithin};

use crate::characters::{after, byte_at};
use crate::classes::{Class, run};
use crate::forms::{Form, Found};
use dh_syntax::{Piece, TokenKind};
use std::alloc::{AllocError, Global};

/// The first byte of a name without quotes.
fn is_environment_start(b: u8) -> bool
    ensures { result ≡ is_environment_start b }
{
    b.is_ascii_alphabetic() || b == b'_'
}

/// A name without quotes, after `env:`.
fn plain_environment(alloc: Global, rest: &[u8]) -> Result<Option<Form>, AllocError>
    ensures value { IfOk result (λ f. option_map form_of f ≡ plain_environment rest.now) }
    ensures within { IfOk result (λ f. IfSome f (λ f. IsWithin f (4 + length rest.now))) }
{
    if !is_environment_start(byte_at(rest, 0)) {
        return Ok(None);
    }
    let text = run(rest, Class::Environment);
    let name = Piece::new(alloc, text)?;
    Ok(Some(Form {
        found: Found::Is(TokenKind::Environment(name)),
        len: 4 + text.len(),
    }))
}

/// A name between quotes, after `env:`. It is left out where it has a backslash.
fn quoted_environment(alloc: Global, rest: &[u8]) -> Result<Option<Form>, AllocError>
    requires { IsTrue (begins "\"" rest.now) }
    ensures value { IfOk result (λ f. option_map form_of f ≡ quoted_environment rest.now) }
    ensures within { IfOk result (λ f. IfSome f (λ f. IsWithin f (4 + length rest.now))) }
{
    let text = run(after(rest, 1), Class::QuotedEnvironment);
    let next = byte_at(rest, 1 + text.len());
    let len = 6 + text.len();
    if next == b'\\' {
        let found = Found::LeftOut;
        return Ok(Some(Form { found, len }));
    }
    if text.is_empty() || next != b'"' {
        return Ok(None);
    }
    let found = Found::Is(TokenKind::Environment(Piece::new(alloc, text)?));
    Ok(Some(Form { found, len }))
}

/// The name of an environment variable at the front.
pub fn environment(alloc: Global, rest: &[u8]) -> Result<Option<Form>, AllocError>
    ensures value { IfOk result (λ f. option_map form_of f ≡ environment rest.now) }
    ensures within { IfOk result (λ f. IfSome f (λ f. IsWithin f (length rest.now))) }
{
    if !rest.starts_with(b"env:") {
        return Ok(None);
    }
    let name = after(rest, 4);
    if byte_at(name, 0) == b'"' {
        quoted_environment(alloc, name)
    } else {
        plain_environment(alloc, name)
    }
}
