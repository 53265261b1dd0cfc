//! The digest of an expression, and the text of a digest.

ghost use Rattle.std.specs.Prelude.{◌≡◌, ◌≤◌, ◌-◌, ◌^◌, ◌++◌, IfOk, Some, codes, string_bytes};
ghost use Rattle.sha2.specs.Sha256.{sha256};
ghost use Rattle.dh_syntax.specs.Expressions.Arity.{IsWellFormed};
ghost use Rattle.dh_syntax.specs.Expressions.Bridge.{term};
ghost use Rattle.dh_syntax.specs.Expressions.Nesting.{nesting};
ghost use Rattle.dh_syntax.specs.Bytes.Digests.{digest_of};
ghost use Rattle.dh_syntax.specs.Names.Indices.{IndicesBelow};
ghost use Rattle.dh_syntax.specs.Text.Printed.{digest_digits, digest_text};
ghost use Rattle.dh_digest.specs.Digits.{hexadecimal};

use dh_encode::encode;
use dh_syntax::{Digest, Expr, Piece};
use dh_terms::alpha;
use sha2::Sha256;
use std::alloc::{AllocError, Global};

/// The SHA-256 digest of some bytes (FIPS 180-4).
fn sha256(bytes: &[u8]) -> Digest
    ensures { result ≡ record { 0 = sha256 bytes.now } }
{
    Digest(<Sha256 as sha2::Digest>::digest(bytes))
}

/// The digest of an expression: the SHA-256 digest of the binary form of its α-normal form.
pub fn digest(alloc: Global, e: &Expr) -> Result<Digest, AllocError>
    requires formed { IsWellFormed (term e.now) }
    requires depth { nesting (term e.now) ≤ 2 ^ 20 }
    requires indices { IndicesBelow (2 ^ 32 - nesting (term e.now)) (term e.now) }
    ensures { IfOk result (λ d. d ≡ digest_of (term e.now)) }
{
    let renamed = alpha(alloc, e)?;
    let bytes = encode(alloc, &renamed)?;
    Ok(sha256(bytes.as_slice()))
}

/// The digits of some bytes, two lower-case ones each.
fn hexadecimal(alloc: Global, bytes: &[u8]) -> Result<String, AllocError>
    ensures { IfOk result (λ text. string_bytes text ≡ hexadecimal bytes.now) }
{
    hex::encode(alloc, bytes)
}

/// The 64 lower-case digits of a digest, as they stand behind `sha256:`.
pub fn digest_text(alloc: Global, d: &Digest) -> Result<Piece, AllocError>
    ensures digits { IfOk result (λ text. text ≡ digest_digits d.now) }
    ensures printed { IfOk result (λ text. codes " sha256:" ++ text ≡ digest_text (Some d.now)) }
{
    let text = hexadecimal(alloc, d.0.as_slice())?;
    Ok(Piece::of(text))
}
