//! What became of an import, and why one has no value.

ghost use Rattle.std.specs.Prelude.{◌≡◌, IfOk};

use dh_syntax::{Bytes, Digest, Expr, Key, Loc, NormFault, ParseFault, TypeFault, copy};
use std::alloc::{AllocError, Global};

/// A fault of a resolution: which item is at fault, none for the root, and why.
#[derive(Debug, Drop)]
pub struct Blame {
    pub at: Option<Key>,
    pub why: Why,
}

/// Why an item has no value. No variant `Memory` stands inside.
#[derive(Debug)]
pub enum Why {
    Parse(ParseFault),
    Typing(TypeFault),
    Norm(NormFault),
    Absent,
    /// The import is `missing`.
    Missing,
    /// An HTTP status that is no answer.
    Broken(u16),
    /// An `https` import that the cache does not have.
    Https,
    /// A device failed.
    Failed,
    Differs { wanted: Digest, got: Digest },
    /// A remote text may not import this location.
    Insane(Loc),
    /// A cross-origin import of this location is refused.
    Cors(Loc),
    Cycle,
    /// More than 4,096 keys in one run.
    TooMany,
}

/// Where a value came from: a fetch with the origin that it allows, the cache, or the import itself.
#[derive(Debug, Drop)]
pub enum Origin {
    Fetched(Option<Bytes>),
    Cached,
    Made,
}

/// What became of a key.
#[derive(Debug)]
pub enum Outcome {
    Good { value: Expr, origin: Origin },
    Bad(Blame),
}

impl Blame {
    /// An equal fault.
    pub fn copied(&self, alloc: Global) -> Result<Blame, AllocError>
        ensures { IfOk result (λ c. c ≡ self.now) }
    {
        let at = match &self.at {
            Some(key) => Some(key.copied(alloc)?),
            None => None,
        };
        let why = self.why.copied(alloc)?;
        Ok(Blame { at, why })
    }
}

impl Why {
    /// An equal reason.
    pub fn copied(&self, alloc: Global) -> Result<Why, AllocError>
        ensures { IfOk result (λ c. c ≡ self.now) }
    {
        match self {
            Why::Parse(fault) => Ok(Why::Parse(*fault)),
            Why::Typing(fault) => Ok(Why::Typing(fault.copied(alloc)?)),
            Why::Norm(fault) => Ok(Why::Norm(*fault)),
            Why::Absent => Ok(Why::Absent),
            Why::Missing => Ok(Why::Missing),
            Why::Broken(status) => Ok(Why::Broken(*status)),
            Why::Https => Ok(Why::Https),
            Why::Failed => Ok(Why::Failed),
            Why::Differs { wanted, got } => Ok(Why::Differs {
                wanted: *wanted,
                got: *got,
            }),
            Why::Insane(loc) => Ok(Why::Insane(loc.copied(alloc)?)),
            Why::Cors(loc) => Ok(Why::Cors(loc.copied(alloc)?)),
            Why::Cycle => Ok(Why::Cycle),
            Why::TooMany => Ok(Why::TooMany),
        }
    }
}

impl Origin {
    /// An equal origin.
    pub fn copied(&self, alloc: Global) -> Result<Origin, AllocError>
        ensures { IfOk result (λ c. c ≡ self.now) }
    {
        match self {
            Origin::Fetched(Some(origin)) => Ok(Origin::Fetched(Some(origin.copied(alloc)?))),
            Origin::Fetched(None) => Ok(Origin::Fetched(None)),
            Origin::Cached => Ok(Origin::Cached),
            Origin::Made => Ok(Origin::Made),
        }
    }
}

impl Outcome {
    /// An equal outcome.
    pub fn copied(&self, alloc: Global) -> Result<Outcome, AllocError>
        ensures { IfOk result (λ c. c ≡ self.now) }
    {
        match self {
            Outcome::Good { value, origin } => {
                let origin = origin.copied(alloc)?;
                let value = copy(alloc, value)?;
                Ok(Outcome::Good { value, origin })
            }
            Outcome::Bad(blame) => Ok(Outcome::Bad(blame.copied(alloc)?)),
        }
    }
}

// Drops are written by hand here: a derived one puts every arm inline wherever a value may die, and a check of a function
// where many values may die took minutes.
impl Drop for Why {
    fn drop(self) {
        match self {
            Why::Parse(_) | Why::Norm(_) => {}
            Why::Typing(_) => {}
            Why::Absent | Why::Missing | Why::Broken(_) | Why::Https | Why::Failed => {}
            Why::Differs { wanted: _, got: _ } => {}
            Why::Insane(_) | Why::Cors(_) => {}
            Why::Cycle | Why::TooMany => {}
        }
    }
}

impl Drop for Outcome {
    fn drop(self) {
        match self {
            Outcome::Good {
                value: _,
                origin: _,
            } => {}
            Outcome::Bad(_) => {}
        }
    }
}
