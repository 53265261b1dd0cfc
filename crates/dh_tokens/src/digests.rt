//! Digests ("hash" of `dhall.abnf`).
ghost use Rattle.std.specs.Prelude.{◌≡◌, ◌+◌, length, IsTrue, IfSome, option_map};
ghost use Rattle.std.specs.Char.{is_ascii_hexdigit};
ghost use Rattle.std.specs.List.{list_all};
ghost use Rattle.dh_syntax.specs.Text.LexLocations.{after_sha256, digest, digest_of};
ghost use Rattle.dh_tokens.specs.Inside.Forms.{form_of, IsWithin};

use crate::characters::{after, up_to};
use crate::classes::{Class, run_len};
use crate::forms::{Form, Found};
use dh_syntax::{Digest, TokenKind};

/// The digest that 64 hexadecimal digits write.
fn digest_of(digits: &[u8]) -> Digest
    requires len { length digits.now ≡ 64 }
    requires digits { IsTrue (list_all is_ascii_hexdigit digits.now) }
    ensures { result ≡ digest_of digits.now }
{
    let mut bytes = [0; 32];
    hex::decode_to_slice(digits, &mut bytes).unwrap();
    Digest(bytes)
}

/// A digest after `sha256:`, a fault at its start where it has too few digits.
fn after_sha256(rest: &[u8]) -> Option<Form>
    ensures value { option_map form_of result ≡ after_sha256 rest.now }
    ensures within { IfSome result (λ f. IsWithin f (7 + length rest.now)) }
{
    let digits = up_to(rest, 64);
    let count = run_len(digits, Class::HexDigit);
    if count == 0 {
        return None;
    }
    if count < 64 {
        return Some(Form {
            found: Found::Faulty(0),
            len: 7 + count,
        });
    }
    Some(Form {
        found: Found::Is(TokenKind::Digest(digest_of(digits))),
        len: 71,
    })
}

/// A digest at the front.
pub fn digest(rest: &[u8]) -> Option<Form>
    ensures value { option_map form_of result ≡ digest rest.now }
    ensures within { IfSome result (λ f. IsWithin f (length rest.now)) }
{
    if !rest.starts_with(b"sha256:") {
        return None;
    }
    after_sha256(after(rest, 7))
}
