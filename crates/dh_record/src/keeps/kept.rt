//! The cache entries of keys.

ghost use Rattle.std.specs.Prelude.{◌≡◌, ◌<◌, ℕ, List, All, MatchOption, IfOk, length, map};
ghost use Rattle.dh_syntax.specs.declared.locations.Digest.{Digest};
ghost use Rattle.dh_syntax.specs.Bytes.Binary.{enc};
ghost use Rattle.dh_syntax.specs.Expressions.Bridge.{term};
ghost use Rattle.dh_syntax.specs.Names.Alpha as names;
ghost use Rattle.dh_record.specs.Due.{IsValued};
ghost use Rattle.dh_record.specs.Keeping.{AreEntries, IsEntryAt, digest_of_entrant};
ghost use Rattle.dh_record.specs.Sorting.{Ascends};
ghost use Rattle.dh_record.specs.Kept.{pair_of};
ghost use Rattle.dh_record.specs.Values.{IsValue};

use crate::rows::Entrants;
use dh_demand::Results;
use dh_encode::encode;
use dh_imports::Outcome;
use dh_ports::{Cache, CacheEntry};
use dh_syntax::{Bytes, Expr, MOST_ENTRY_BYTES, Many};
use dh_terms::alpha;
use std::alloc::{AllocError, Global};

/// The entries of these keys, without those that are too long.
pub fn entries_of(alloc: Global, keys: &Entrants, numbers: &[u32]) -> Result<Cache, AllocError>
    requires inside { All (λ (n : ℕ). n < length keys.now) numbers.now }
    requires ascends { Ascends (map digest_of_entrant keys.now) numbers.now }
    requires valued { All IsValued keys.now }
    ensures { IfOk result (λ kept. AreEntries keys.now numbers.now (map pair_of kept)) }
{
    let mut kept = Many::new(alloc);
    for n in numbers {
        match entry_of(alloc, keys, *n)? {
            Some(entry) => kept.push(entry)?,
            None => {}
        }
    }
    Ok(kept)
}

// The entry of a key. `None` exactly where it has no digest or no value, or where its entry is too long.
fn entry_of(alloc: Global, keys: &Entrants, n: u32) -> Result<Option<CacheEntry>, AllocError>
    requires inside { n < length keys.now }
    requires valued { All IsValued keys.now }
    ensures { IfOk result (λ o. MatchOption o ((d : Digest) (bytes : List ℕ) → ¬ IsEntryAt keys.now n (d, bytes)) (λ e. IsEntryAt keys.now n (pair_of e))) }
{
    let Some(digest) = keys.key(n).digest else {
        return Ok(None);
    };
    let Some(Outcome::Good { value, .. }) = keys.outcome(n) else {
        return Ok(None);
    };
    let bytes = encoded(alloc, value)?;
    if bytes.as_slice().len() > MOST_ENTRY_BYTES {
        return Ok(None);
    }
    Ok(Some(CacheEntry { digest, bytes }))
}

// The bytes of a value whose variables have no names.
fn encoded(alloc: Global, value: &Expr) -> Result<Bytes, AllocError>
    requires { IsValue (term value.now) }
    ensures { IfOk result (λ b. b ≡ enc (names.alpha (term value.now))) }
{
    let renamed = alpha(alloc, value)?;
    encode(alloc, &renamed)
}
