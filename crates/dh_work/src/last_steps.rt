//! The last step of a key.

ghost use Rattle.std.specs.Prelude.{◌≡◌, Some, IfOk};
ghost use Rattle.dh_syntax.specs.Expressions.Bridge.{term};
ghost use Rattle.dh_syntax.specs.Expressions.SameTree.{digest_eq};
ghost use Rattle.dh_imports.specs.LastStep as last;
ghost use Rattle.dh_imports.specs.Outcomes.{Good, plain};
ghost use Rattle.dh_imports.specs.declared.outcomes.Origin.TheVariants as origins;
ghost use Rattle.dh_record.specs.Values.{HasValue, IsFit, IsValue};
ghost use Rattle.dh_work.specs.Inside.Coming.{IsCame};

use crate::codes::{Came, code_came};
use crate::locations::location_value;
use crate::outcomes::own_fault;
use crate::texts::text_outcome;
use dh_digest::digest;
use dh_imports::{Origin, Outcome, Why};
use dh_record::{Body, Done, Item};
use dh_syntax::{Digest, Expr, Key, Loc, copy};
use std::alloc::{AllocError, Global};

/// What comes of a key by its item, or a limit that is licensed for the item ("Import resolution"; the type of the answer says so).
/// Code is typed and normalised, each with a whole purse.
pub fn work_item(alloc: Global, item: Item) -> Result<Done, AllocError>
    requires { IsFit item.body }
    ensures { IfOk result (λ done. done.item ≡ item) }
{
    match came(alloc, &item)? {
        Came::Last(outcome) => Ok(Done::of(item, outcome)),
        Came::Limit(outcome) => Ok(Done::limit(item, outcome)),
    }
}

/// What comes of an item.
fn came(alloc: Global, item: &Item) -> Result<Came, AllocError>
    requires { IsFit item.now.body }
    ensures { IfOk result (λ came. IsCame item.now came) }
{
    let key = &item.key;
    let allow = &item.allow;
    match &item.body {
        Body::Code(code) => code_came(alloc, key, code, allow),
        Body::Text(bytes) => Ok(Came::Last(text_outcome(alloc, key, bytes.as_slice(), allow)?)),
        Body::Location(loc) => Ok(Came::Last(made(alloc, loc)?)),
        Body::Compare(value, origin) => Ok(Came::Last(compared(alloc, key, value, origin)?)),
        Body::Entry(value) => Ok(Came::Last(cached(alloc, value)?)),
        Body::Fault(blame) => Ok(Came::Last(Outcome::Bad(blame.copied(alloc)?))),
    }
}

/// A location as a value.
fn made(alloc: Global, loc: &Loc) -> Result<Outcome, AllocError>
    ensures outcome { IfOk result (λ o. plain o ≡ Good (last.location_value loc.now) origins.Made) }
    ensures value { IfOk result HasValue }
{
    let value = location_value(alloc, loc)?;
    Ok(Outcome::Good {
        value,
        origin: Origin::Made,
    })
}

/// The value of a cache entry.
fn cached(alloc: Global, value: &Expr) -> Result<Outcome, AllocError>
    requires { IsValue (term value.now) }
    ensures outcome { IfOk result (λ o. plain o ≡ Good (term value.now) origins.Cached) }
    ensures value { IfOk result HasValue }
{
    let value = copy(alloc, value)?;
    Ok(Outcome::Good {
        value,
        origin: Origin::Cached,
    })
}

fn is_same_digest(d: &Digest, e: &Digest) -> bool
    ensures { result ≡ digest_eq d.now e.now }
{
    d.0 == e.0
}

/// A value with its origin.
fn same_value(alloc: Global, value: &Expr, origin: &Origin) -> Result<Outcome, AllocError>
    requires { IsValue (term value.now) }
    ensures outcome { IfOk result (λ o. plain o ≡ Good (term value.now) origin.now) }
    ensures value { IfOk result HasValue }
{
    let origin = origin.copied(alloc)?;
    let value = copy(alloc, value)?;
    Ok(Outcome::Good { value, origin })
}

/// The value of the key without digest, where it has the digest of the key.
fn compared(alloc: Global, key: &Key, value: &Expr, origin: &Origin) -> Result<Outcome, AllocError>
    requires { IsValue (term value.now) }
    ensures outcome { IfOk result (λ o. plain o ≡ last.compared key.now key.now.digest (term value.now) origin.now) }
    ensures value { IfOk result HasValue }
{
    match key.digest {
        Some(wanted) => checked(alloc, key, wanted, value, origin),
        None => same_value(alloc, value, origin),
    }
}

/// The value of the key without digest, where it has the digest that the key wants; else the fault that tells both digests.
fn checked(
    alloc: Global,
    key: &Key,
    wanted: Digest,
    value: &Expr,
    origin: &Origin,
) -> Result<Outcome, AllocError>
    requires digest { key.now.digest ≡ Some wanted }
    requires value { IsValue (term value.now) }
    ensures outcome { IfOk result (λ o. plain o ≡ last.compared key.now key.now.digest (term value.now) origin.now) }
    ensures value { IfOk result HasValue }
{
    let got = digest(alloc, value)?;
    if is_same_digest(&wanted, &got) {
        same_value(alloc, value, origin)
    } else {
        own_fault(alloc, key, Why::Differs { wanted, got })
    }
}
