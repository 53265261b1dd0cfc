//! The fresh keys: those with digests and values that a ready root visits, under whose digests no good entry was found.

ghost use Rattle.std.specs.Prelude.{◌≡◌, ◌<◌, ◌≤◌, ◌^◌, ◌+◌, ℕ, Bool, List, [], All, MatchOption, length, map, IfOk, OnOk};
ghost use Rattle.std.specs.Bool.{Decides};
ghost use Rattle.dh_syntax.specs.declared.locations.Digest.{Digest};
ghost use Rattle.dh_imports.specs.Keeps.{HasNoEntry};
ghost use Rattle.dh_record.specs.Entering.{IsListed};
ghost use Rattle.dh_record.specs.Keeping.{AreLeast, IsFreshAt, digest_of_entrant};
ghost use Rattle.dh_record.specs.Reading.{record_by};
ghost use Rattle.dh_record.specs.Sorting.{Ascends};
ghost use Rattle.dh_record.specs.Rows.{rows_of};
ghost use Rattle.dh_record.specs.declared.rows.recorded.Look.{Look};

use crate::entries::Seen;
use crate::rows::{DigestProbe, Entrants, Looks, Probe, is_at_most, look_at, place_in};
use dh_demand::{Marks, Results};
use dh_imports::Outcome;
use dh_syntax::Digest;
use std::alloc::{AllocError, Global};

/// The numbers of the least fresh keys of each digest, by ascending digest.
pub fn least_fresh(
    alloc: Global,
    keys: &Entrants,
    looks: &Looks<'_>,
    marks: &Marks,
) -> Result<Vec<u32>, AllocError>
    requires listed { All (IsListed (rows_of keys.now)) keys.now }
    requires few { length keys.now ≤ 2 ^ 32 }
    requires marks { length keys.now ≤ length marks.now }
    ensures { IfOk result (λ found. AreLeast keys.now looks.now marks.now (length keys.now) found.items) }
{
    let mut found = Vec::new(alloc);
    for i in 0..keys.len() {
        let n = i as u32;
        match fresh_digest(keys, looks, marks, n) {
            Some(_) => put_least(&mut found, keys, n)?,
            None => {}
        }
    }
    Ok(found)
}

// The digest of a key, where it is fresh.
fn fresh_digest(keys: &Entrants, looks: &Looks<'_>, marks: &Marks, n: u32) -> Option<Digest>
    requires inside { n < length keys.now }
    requires marks { length keys.now ≤ length marks.now }
    ensures { MatchOption result ((d : Digest) → ¬ IsFreshAt keys.now looks.now marks.now n d) (λ d. IsFreshAt keys.now looks.now marks.now n d) }
{
    if !marks.is_set(n) {
        return None;
    }
    let Some(digest) = keys.key(n).digest else {
        return None;
    };
    let Some(Outcome::Good { .. }) = keys.outcome(n) else {
        return None;
    };
    if lacks_entry(looks, &digest) {
        Some(digest)
    } else {
        None
    }
}

// Whether no good entry was found under a digest.
fn lacks_entry(looks: &Looks<'_>, digest: &Digest) -> bool
    ensures { Decides result (HasNoEntry (record_by [] looks.now) digest.now) }
{
    match look_at(looks, digest) {
        None => true,
        Some(look) => match &look.look {
            Seen::Good(_) => false,
            Seen::Miss | Seen::Failed => true,
        },
    }
}

// Adds a fresh key, unless there is a lesser one of its digest.
fn put_least(found: &mut Vec<u32>, keys: &Entrants, n: u32) -> Result<(), AllocError>
    requires inside { n < length keys.now }
    requires listed { All (IsListed (rows_of keys.now)) keys.now }
    requires numbers { All (λ (m : ℕ). m < length keys.now) found.old.items }
    requires ascends { Ascends (map digest_of_entrant keys.now) found.old.items }
    ensures { OnOk result ((looks : List Look) (marks : List Bool) (d : Digest) → IsFreshAt keys.now looks marks n d →
        AreLeast keys.now looks marks n found.old.items → AreLeast keys.now looks marks (n + 1) found.new.items) }
{
    let rows = keys.as_slice();
    let probe = DigestProbe {
        rows,
        digest: &rows[n as usize].key.digest,
    };
    let place = place_in(found.as_slice(), &probe);
    if place < found.len() {
        let other = found[place];
        if !probe.is_before(other) {
            if is_at_most(&rows[n as usize], &rows[other as usize]) {
                found[place] = n;
            }
            return Ok(());
        }
    }
    found.insert(place, n)?;
    Ok(())
}
