//! New keys get their numbers.

ghost use Rattle.std.specs.Prelude.{◌≡◌, ◌<◌, ◌≤◌, ◌^◌, ◌++◌, List, length, Some, None, IfOk, OnOk, OnErr, MatchOption};
ghost use Rattle.std.specs.Option.{option_copied};
ghost use Rattle.dh_syntax.specs.Imports.Keys.{bare};
ghost use Rattle.dh_demand.specs.Results.{number_of};
ghost use Rattle.dh_record.specs.declared.rows.recorded.Entrant.{Entrant};
ghost use Rattle.dh_record.specs.Entering.{keys_in, with_key, entered, entered_all, IsEntrant, AreMore, AreEdges, AreFew};
ghost use Rattle.dh_record.specs.Rows.{rows_of};

use crate::rows::{Entrant, Entrants};
use dh_demand::{Edge, Edges};
use dh_paths::{loc_text, sane};
use dh_syntax::{Key, Loc, Many};
use std::alloc::{AllocError, Global};

/// The edges of imports with these keys in a text at this parent. New keys are added, each with the same key without its
/// digest. Where memory is wanting, some of them are added.
pub fn enter_all(
    alloc: Global,
    keys: &mut Entrants,
    imports: &[Key],
    parent: Option<&Loc>,
) -> Result<Edges, AllocError>
    requires { length keys.old ≤ 2 ^ 32 }
    ensures few { length keys.new ≤ 2 ^ 32 }
    ensures entered { OnOk result (AreMore keys.old (entered_all (keys_in keys.old) imports.now) keys.new) }
    ensures edges { IfOk result (λ es. AreEdges (option_copied parent.entry) (rows_of keys.new) imports.now es) }
    ensures grown { OnErr result ((more : List Entrant) × (keys.new ≡ keys.old ++ more)) }
{
    let mut edges = Many::new(alloc);
    for key in imports {
        let number = enter(alloc, keys, key)?;
        let sane = sane(parent, &key.loc, key.mode);
        edges.push(Edge { key: number, sane })?;
    }
    Ok(edges)
}

/// The edges of the imports of a root, whose keys are added in this way; `None` once there are more keys than this.
pub fn enter_few(
    alloc: Global,
    keys: &mut Entrants,
    imports: &[Key],
    most: usize,
) -> Result<Option<Edges>, AllocError>
    requires most { most ≤ 2 ^ 32 }
    requires few { length keys.old ≤ most }
    ensures { IfOk result (λ r. MatchOption r (most < length (entered_all (keys_in keys.old) imports.now)) (λ es. AreFew keys.old imports.now most keys.new es)) }
{
    let mut edges = Many::new(alloc);
    for key in imports {
        let number = enter(alloc, keys, key)?;
        if keys.len() > most {
            return Ok(None);
        }
        let sane = sane(None, &key.loc, key.mode);
        edges.push(Edge { key: number, sane })?;
    }
    Ok(Some(edges))
}

// The number of a key. It is added with the same key without its digest, where they are new.
fn enter(alloc: Global, keys: &mut Entrants, key: &Key) -> Result<u32, AllocError>
    requires { length keys.old ≤ 2 ^ 32 }
    ensures few { length keys.new ≤ 2 ^ 32 }
    ensures entered { OnOk result (AreMore keys.old (entered (keys_in keys.old) key.now) keys.new) }
    ensures number { IfOk result (λ n. number_of (rows_of keys.new) key.now ≡ Some n) }
    ensures grown { OnErr result ((more : List Entrant) × (keys.new ≡ keys.old ++ more)) }
{
    let own = bare_copy(alloc, key)?;
    let unfrozen = add(alloc, keys, &own, None)?;
    add(alloc, keys, key, Some(unfrozen))
}

// The key without its digest.
fn bare_copy(alloc: Global, key: &Key) -> Result<Key, AllocError>
    ensures { IfOk result (λ k. k ≡ bare key.now) }
{
    let loc = key.loc.copied(alloc)?;
    Ok(Key {
        loc,
        mode: key.mode,
        digest: None,
    })
}

// The number of a key, which is added where it is new. `unfrozen` is the number of the same key without its digest; none for
// a key that has no digest.
fn add(
    alloc: Global,
    keys: &mut Entrants,
    key: &Key,
    unfrozen: Option<u32>,
) -> Result<u32, AllocError>
    requires few { length keys.old ≤ 2 ^ 32 }
    requires unfrozen { MatchOption unfrozen (key.now.digest ≡ None) (λ b. number_of (rows_of keys.old) (bare key.now) ≡ Some b) }
    ensures few { length keys.new ≤ 2 ^ 32 }
    ensures added { OnOk result (AreMore keys.old (with_key (keys_in keys.old) key.now) keys.new) }
    ensures number { IfOk result (λ n. number_of (rows_of keys.new) key.now ≡ Some n) }
    ensures same { OnErr result (keys.new ≡ keys.old) }
{
    if let Some(number) = keys.number(key) {
        return Ok(number);
    }
    let at = keys.len();
    if at > u32::MAX as usize {
        return Err(AllocError);
    }
    let number = at as u32;
    let entrant = new_entrant(alloc, key, own_or(unfrozen, number))?;
    keys.push(entrant)?;
    Ok(number)
}

// The number of a key without its digest, which is its own where it has none.
fn own_or(unfrozen: Option<u32>, own: u32) -> u32
    ensures { MatchOption unfrozen (result ≡ own) (λ n. result ≡ n) }
{
    match unfrozen {
        Some(number) => number,
        None => own,
    }
}

// A key without an outcome.
fn new_entrant(alloc: Global, key: &Key, unfrozen: u32) -> Result<Entrant, AllocError>
    ensures { IfOk result (λ e. IsEntrant key.now unfrozen e) }
{
    let text = loc_text(alloc, &key.loc)?;
    let own = Some(key.copied(alloc)?);
    let key = key.copied(alloc)?;
    Ok(Entrant {
        key,
        outcome: None,
        own,
        text,
        unfrozen,
    })
}
