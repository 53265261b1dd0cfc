//! The text with its digests.

ghost use Rattle.std.specs.Prelude.{◌≡◌, ◌++◌, true, Some, take, drop, ◌-◌, IfOk, OnOk};
ghost use Rattle.dh_imports.specs.FrozenTexts.{IsFrozenText, with_digests};
ghost use Rattle.dh_syntax.specs.Expressions.Tree.{Term};
ghost use Rattle.dh_imports.specs.Freezing.{digests_behind};
ghost use Rattle.dh_imports.specs.Walk.{Ask};
ghost use Rattle.dh_syntax.specs.Text.Offsets.{SpellsWith};
ghost use Rattle.dh_syntax.specs.Text.Printed.{digest_text};
ghost use Rattle.dh_freeze.specs.Insertions.{insertions};

use crate::places::{Places, places_behind};
use dh_digest::digest_text;
use dh_syntax::{Bytes, Digest};
use std::alloc::{AllocError, Global};

/// The text of the input with ` sha256:` and the 64 digits of its digest behind the location of each import that gets one, and each
/// other byte as it was.
pub fn frozen_text(
    alloc: Global,
    text: &[u8],
    offsets: &[u32],
    digests: &[Option<Digest>],
) -> Result<Bytes, AllocError>
    ensures { IfOk result (λ b. (root : Term) (ask : Ask) → SpellsWith text.now root offsets.now → digests.now ≡ digests_behind ask true root → IsFrozenText text.now root ask b) }
{
    let places = places_behind(alloc, offsets, digests)?;
    freeze(alloc, text, &places)
}

/// The text with ` sha256:` and the 64 digits of its digest at each place, and each other byte as it was.
pub fn freeze(alloc: Global, text: &[u8], places: &Places) -> Result<Bytes, AllocError>
    ensures { IfOk result (λ b. b ≡ with_digests 0 text.now (insertions places.now)) }
{
    let mut out = Vec::new(alloc);
    let mut at: usize = 0;
    let mut left = places.as_slice();
    while let Some((place, rest)) = left.split_first() {
        let offset = place.offset as usize;
        put_stretch(&mut out, text, at, offset)?;
        put_digest(alloc, &mut out, &place.digest)?;
        at = offset;
        left = rest;
    }
    put_stretch(&mut out, text, at, text.len())?;
    Ok(Bytes::of(out))
}

// Adds a digest as it stands behind an import.
fn put_digest(alloc: Global, out: &mut Vec<u8>, digest: &Digest) -> Result<(), AllocError>
    ensures { OnOk result (out.new.items ≡ out.old.items ++ digest_text (Some digest.now)) }
{
    let digits = digest_text(alloc, digest)?;
    out.extend_from_slice(b" sha256:")?;
    out.extend_from_slice(digits.as_str().as_bytes())
}

// Adds a stretch of the text.
fn put_stretch(out: &mut Vec<u8>, text: &[u8], from: usize, to: usize) -> Result<(), AllocError>
    ensures { OnOk result (out.new.items ≡ out.old.items ++ take (to - from) (drop from text.now)) }
{
    out.extend_from_slice(stretch(text, from, to))
}

// A stretch of the text. Nothing stands behind its end.
fn stretch(text: &[u8], from: usize, to: usize) -> &[u8]
    ensures { result.now ≡ take (to - from) (drop from text.now) }
{
    let from = from.min(text.len());
    let to = to.min(text.len()).max(from);
    &text[from..to]
}
