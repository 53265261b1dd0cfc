//! Where digests are inserted.

ghost use Rattle.std.specs.Prelude.{◌≡◌, ◌↔◌, ◌++◌, Some, IfOk, OnOk};
ghost use Rattle.dh_imports.specs.FrozenTexts.{Ascend, Insertion, side_by_side};
ghost use Rattle.dh_imports.specs.Machine.{IsAmong};
ghost use Rattle.dh_freeze.specs.Distinct.{AreDistinct};
ghost use Rattle.dh_freeze.specs.Insertions.{insertions};
ghost use Rattle.dh_freeze.specs.Inside.Pairs.{paired, place_at};

use dh_syntax::{Digest, Many};
use std::alloc::{AllocError, Global};

/// A digest, and the offset in the text that it is inserted at.
#[derive(Clone, Copy, Debug, Drop, PartialEq, Eq)]
pub struct DigestAt {
    pub offset: u32,
    pub digest: Digest,
}

/// Places by ascending offset.
pub type Places = Many<DigestAt>;

/// The digests, each at the offset beside it, by ascending offset. An offset without a digest is left out.
pub fn places_behind(
    alloc: Global,
    offsets: &[u32],
    digests: &[Option<Digest>],
) -> Result<Places, AllocError>
    ensures members { IfOk result (λ ps. (p : Insertion) → IsAmong p (insertions ps) ↔ IsAmong (p.0, Some p.1) (side_by_side offsets.now digests.now)) }
    ensures ascend { IfOk result (λ ps. AreDistinct offsets.now → Ascend 0 (insertions ps)) }
{
    let mut places = pairs(alloc, offsets, digests)?;
    places.sort_by_key(|place| place.offset)?;
    Ok(Places::of(places))
}

// The digests, each at the offset beside it.
fn pairs(
    alloc: Global,
    offsets: &[u32],
    digests: &[Option<Digest>],
) -> Result<Vec<DigestAt>, AllocError>
    ensures { IfOk result (λ ps. ps.items ≡ paired offsets.now digests.now) }
{
    let mut places = Vec::new(alloc);
    let mut left = offsets;
    let mut right = digests;
    while let Some((offset, others)) = left.split_first() {
        let Some((digest, rest)) = right.split_first() else {
            return Ok(places);
        };
        push_place(&mut places, *offset, digest)?;
        left = others;
        right = rest;
    }
    Ok(places)
}

// Adds a digest, if there is one, at an offset.
fn push_place(
    places: &mut Vec<DigestAt>,
    offset: u32,
    digest: &Option<Digest>,
) -> Result<(), AllocError>
    ensures { OnOk result (places.new.items ≡ places.old.items ++ place_at offset digest.now) }
{
    match digest {
        Some(digest) => {
            let digest = *digest;
            places.push(DigestAt { offset, digest })?;
            Ok(())
        }
        None => Ok(()),
    }
}
