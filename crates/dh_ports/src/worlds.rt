//! What is found outside, and what contracts may know of it.

use dh_syntax::Bytes;

/// What is found at a location.
#[derive(Debug, Drop)]
pub enum Got {
    Found(Found),
    /// Nothing is there.
    Absent,
    /// An HTTP status that is no answer.
    Broken(u16),
}

/// Found bytes, at most the first 1,048,577 of them, and the origin that a server allows to read them.
#[derive(Debug, Drop)]
pub struct Found {
    pub bytes: Bytes,
    pub allow: Option<Bytes>,
}

/// What the outside tells contracts of itself: each location and each digest has one content, where it is told.
pub trait World {
    ghost use Rattle.std.specs.Prelude.{List, ℕ, Option};
    ghost use Rattle.dh_syntax.specs.declared.locations.Digest.{Digest};
    ghost use Rattle.dh_syntax.specs.declared.locations.Loc.{Loc};
    ghost use Rattle.dh_ports.specs.declared.worlds.Got.{Got};

    // what is found at a location; `None` where the world does not tell
    ghost told: { Loc → Option Got };

    // the bytes that the cache has under a digest, if any; `None` where the world does not tell
    ghost shelved: { Digest → Option (Option (List ℕ)) };
}

/// The world that tells nothing.
#[derive(Clone, Copy, Debug)]
pub struct Silent;

impl World for Silent {
    ghost use Rattle.std.specs.Prelude.{None};

    ghost told = { λ _. None };

    ghost shelved = { λ _. None };
}
