//! The digests of the values of keys.

ghost use Rattle.std.specs.Prelude.{◌≡◌, All, IfOk, IfSome, length};
ghost use Rattle.std.specs.Option.{option_copied};
ghost use Rattle.dh_demand.specs.Digests.{digest_at, digests_at, value_digest};
ghost use Rattle.dh_record.specs.Due.{IsValued};
ghost use Rattle.dh_record.specs.Inside.Knowing.{AreKnown};
ghost use Rattle.dh_record.specs.Rows.{rows_of};
ghost use Rattle.dh_record.specs.Values.{HasValue};

use crate::rows::Entrants;
use dh_demand::Results;
use dh_digest::digest;
use dh_imports::Outcome;
use dh_syntax::Digest;
use std::alloc::{AllocError, Global};

/// The digests of the values of the keys of these numbers. That of a key is computed once.
pub fn digests_of(
    alloc: Global,
    keys: &Entrants,
    numbers: &[Option<u32>],
) -> Result<Vec<Option<Digest>>, AllocError>
    requires { All IsValued keys.now }
    ensures { IfOk result (λ ds. ds.items ≡ digests_at (rows_of keys.now) numbers.now) }
{
    let len = keys.len();
    let mut known: Vec<Option<Digest>> = vec![in alloc; None; len]?;
    let mut digests = Vec::new(alloc);
    for number in numbers {
        let digest = digest_once(alloc, keys, &mut known, *number)?;
        digests.push(digest)?;
    }
    Ok(digests)
}

// The digest of the value of the key of this number. It is kept for the next time.
fn digest_once(
    alloc: Global,
    keys: &Entrants,
    known: &mut Vec<Option<Digest>>,
    number: Option<u32>,
) -> Result<Option<Digest>, AllocError>
    requires valued { All IsValued keys.now }
    requires known { AreKnown (rows_of keys.now) known.old.items }
    requires room { length known.old.items ≡ length keys.now }
    ensures digest { IfOk result (λ d. d ≡ digest_at (rows_of keys.now) number) }
    ensures known { AreKnown (rows_of keys.now) known.new.items }
    ensures room { length known.new.items ≡ length known.old.items }
{
    let Some(number) = number else {
        return Ok(None);
    };
    let place = number as usize;
    if place >= known.len() {
        return Ok(None);
    }
    if let Some(digest) = known[place] {
        return Ok(Some(digest));
    }
    let digest = digest_of(alloc, keys.outcome(number))?;
    known[place] = digest;
    Ok(digest)
}

// The digest of the value of an outcome, where it has one.
fn digest_of(alloc: Global, outcome: Option<&Outcome>) -> Result<Option<Digest>, AllocError>
    requires { IfSome (option_copied outcome) HasValue }
    ensures { IfOk result (λ d. d ≡ value_digest (option_copied outcome.entry)) }
{
    match outcome {
        Some(Outcome::Good { value, origin: _ }) => Ok(Some(digest(alloc, value)?)),
        Some(Outcome::Bad(_)) | None => Ok(None),
    }
}
