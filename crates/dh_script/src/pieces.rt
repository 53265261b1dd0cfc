//! Stretches of a script: its first line, what stands behind a word, what stands behind the last blank, and the bytes that digits
//! write.

ghost use Rattle.std.specs.Prelude.{◌≡◌, ◌<◌, ◌++◌, ◌∷◌, ℕ, List, [], length, true, false, Some, None, IfOk, MatchOption};
ghost use Rattle.dh_watch_laws.specs.ScriptLines.{bytes_of, has_blank, lines_of};

use dh_syntax::Bytes;
use hex::FromHexError;
use memchr::{memchr, memrchr};
use std::alloc::{AllocError, Global};

/// What stands behind these first bytes, where a text begins with them.
pub(crate) fn behind<'a>(text: &'a [u8], first: &[u8]) -> Option<&'a [u8]>
    ensures { MatchOption result ((rest : List ℕ) → ¬ (text.now ≡ first.now ++ rest)) (λ rest. text.now ≡ first.now ++ rest.now) }
{
    text.strip_prefix(first)
}

/// What stands before the last blank of a text, and what stands behind it.
pub(crate) fn at_last_blank(text: &[u8]) -> Option<(&[u8], &[u8])>
    ensures { MatchOption result (has_blank text.now ≡ false) (λ p. (text.now ≡ p.0.now ++ 32 ∷ p.1.now) × (has_blank p.1.now ≡ false)) }
{
    match memrchr(b' ', text) {
        Some(at) => Some((&text[..at], &text[at + 1..])),
        None => None,
    }
}

/// The first line of a text, and what stands behind its line feed.
pub(crate) fn first_line(text: &[u8]) -> (&[u8], &[u8])
    requires { 0 < length text.now }
    ensures lines { lines_of text.now ≡ result.0.now ∷ lines_of result.1.now }
    ensures shorter { length result.1.now < length text.now }
{
    match memchr(b'\n', text) {
        Some(at) => (&text[..at], &text[at + 1..]),
        None => (text, &text[text.len()..]),
    }
}

/// The bytes that pairs of hexadecimal digits write, where a text is such pairs.
pub(crate) fn decoded(alloc: Global, text: &[u8]) -> Result<Option<Bytes>, AllocError>
    ensures { IfOk result (λ bytes. bytes ≡ bytes_of text.now) }
{
    match hex::decode(alloc, text) {
        Ok(bytes) => Ok(Some(Bytes::of(bytes))),
        Err(FromHexError::OutOfMemory) => Err(AllocError),
        Err(FromHexError::OddLength) => Ok(None),
        Err(FromHexError::InvalidHexCharacter { .. }) => Ok(None),
        Err(FromHexError::InvalidStringLength) => Ok(None),
    }
}
