//! Faults of a key's own, and the origin of what was fetched.

ghost use Rattle.std.specs.Prelude.{◌≡◌, Some, IfOk};
ghost use Rattle.dh_imports.specs.declared.outcomes.Origin.TheVariants as origins;
ghost use Rattle.dh_imports.specs.declared.outcomes.Outcome.TheVariants as outcomes;

use dh_imports::{Blame, Origin, Outcome, Why};
use dh_syntax::{Bytes, Key};
use std::alloc::{AllocError, Global};

/// The fault of a key's own.
pub(crate) fn own_fault(alloc: Global, key: &Key, why: Why) -> Result<Outcome, AllocError>
    ensures { IfOk result (λ o. o ≡ outcomes.Bad (record { at = Some key.now; why = why })) }
{
    let at = Some(key.copied(alloc)?);
    Ok(Outcome::Bad(Blame { at, why }))
}

/// The origin of what was fetched.
pub(crate) fn fetched(alloc: Global, allow: &Option<Bytes>) -> Result<Origin, AllocError>
    ensures { IfOk result (λ o. o ≡ origins.Fetched allow.now) }
{
    match allow {
        Some(origin) => Ok(Origin::Fetched(Some(origin.copied(alloc)?))),
        None => Ok(Origin::Fetched(None)),
    }
}
