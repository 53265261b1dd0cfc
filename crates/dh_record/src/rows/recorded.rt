//! What a table records.

use crate::entries::Seen;
use crate::news::Noted;
use dh_demand::Scan;
use dh_imports::Outcome;
use dh_syntax::{Digest, Key, Loc, ParseFault, Piece};

/// A recorded text.
#[derive(Debug, Drop)]
pub struct Text {
    pub loc: Loc,
    pub got: Noted,
    /// What the bytes parse to, where bytes were found.
    pub read: Option<Result<Scan, ParseFault>>,
}

/// A recorded look.
#[derive(Debug, Drop)]
pub struct Look {
    pub digest: Digest,
    pub look: Seen,
}

/// A key with its outcome, once it has one.
#[derive(Debug, Drop)]
pub struct Entrant {
    pub key: Key,
    pub outcome: Option<Outcome>,
    /// A copy of `key`, while there is no outcome: a loop mark blames it, and takes no memory.
    pub own: Option<Key>,
    /// The text of its location, by which keys are ordered.
    pub text: Piece,
    /// The number of the same key without its digest.
    pub unfrozen: u32,
}
