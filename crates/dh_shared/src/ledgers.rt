//! The eight ledgers of a run: what they count, each by a type that names it.

ghost use Rattle.std.specs.Prelude.{◌≡◌};

use crate::runs::Counted;
use std::marker::{Model, PhantomData};
use std::sync::ledger::{Blank, Ledger};

/// The ledger of claims.
pub struct Claims<N: Counted> {
    of: PhantomData<N>,
}

impl<N: Counted> Ledger for Claims<N> {
    ghost name = { N.ledgers.claims };

    ghost parts = { N.ledgers.parts };
}

/// The ledger of deliveries that were kept.
pub struct Kept<N: Counted> {
    of: PhantomData<N>,
}

impl<N: Counted> Ledger for Kept<N> {
    ghost name = { N.ledgers.kept };

    ghost parts = { N.ledgers.parts };
}

/// The ledger of releases.
pub struct Releases<N: Counted> {
    of: PhantomData<N>,
}

impl<N: Counted> Ledger for Releases<N> {
    ghost name = { N.ledgers.releases };

    ghost parts = { N.ledgers.parts };
}

/// The ledger of deliveries that came late.
pub struct Lates<N: Counted> {
    of: PhantomData<N>,
}

impl<N: Counted> Ledger for Lates<N> {
    ghost name = { N.ledgers.lates };

    ghost parts = { N.ledgers.parts };
}

/// The ledger of claims of a fetch.
pub struct Fetches<N: Counted> {
    of: PhantomData<N>,
}

impl<N: Counted> Ledger for Fetches<N> {
    ghost name = { N.ledgers.fetches };

    ghost parts = { N.ledgers.parts };
}

/// The ledger of failures that were delivered.
pub struct Failed<N: Counted> {
    of: PhantomData<N>,
}

impl<N: Counted> Ledger for Failed<N> {
    ghost name = { N.ledgers.failed };

    ghost parts = { N.ledgers.parts };
}

/// The ledger of claims that found the run over.
pub struct Overs<N: Counted> {
    of: PhantomData<N>,
}

impl<N: Counted> Ledger for Overs<N> {
    ghost name = { N.ledgers.overs };

    ghost parts = { N.ledgers.parts };
}

/// The ledger of tickets that were given back.
pub struct Returns<N: Counted> {
    of: PhantomData<N>,
}

impl<N: Counted> Ledger for Returns<N> {
    ghost name = { N.ledgers.returns };

    ghost parts = { N.ledgers.parts };
}

/// Eight new ledgers of as many parts. They have no parameter, so that one function can make them and another can name their run.
#[derive(Drop)]
pub struct Blanks {
    pub(crate) claims: Blank,
    pub(crate) kept: Blank,
    pub(crate) releases: Blank,
    pub(crate) lates: Blank,
    pub(crate) fetches: Blank,
    pub(crate) failed: Blank,
    pub(crate) overs: Blank,
    pub(crate) returns: Blank,
}

impl Model for Blanks {
    ghost use Rattle.std.specs.Prelude.{◌≡◌};
    ghost use Rattle.dh_shared.specs.Ledgers.{Ledgers};

    ghost Value = { Ledgers };

    ghost view = { λ b. record { parts = b.claims.parts; claims = b.claims.name; kept = b.kept.name; releases = b.releases.name; lates = b.lates.name; fetches = b.fetches.name; failed = b.failed.name; overs = b.overs.name; returns = b.returns.name } };

    ghost invariant = { λ b. (b.kept.parts ≡ b.claims.parts) × (b.releases.parts ≡ b.claims.parts) × (b.lates.parts ≡ b.claims.parts) × (b.fetches.parts ≡ b.claims.parts) × (b.failed.parts ≡ b.claims.parts) × (b.overs.parts ≡ b.claims.parts) × (b.returns.parts ≡ b.claims.parts) };
}

impl Blanks {
    /// Eight ledgers of so many parts.
    pub fn new(workers: u64) -> Blanks
        ensures { result.parts ≡ workers }
    {
        Blanks {
            claims: Blank::new(workers),
            kept: Blank::new(workers),
            releases: Blank::new(workers),
            lates: Blank::new(workers),
            fetches: Blank::new(workers),
            failed: Blank::new(workers),
            overs: Blank::new(workers),
            returns: Blank::new(workers),
        }
    }
}
