//! What is looked for among the things of a table.

use crate::rows::{
    Entrant, Look, Probe, Text, is_bytes_before, is_digest_before, is_key_before, is_loc_before,
};
use dh_syntax::{Digest, Key, Loc};

/// A key among keys.
#[derive(Clone, Copy)]
pub struct KeyProbe<'a> {
    pub rows: &'a [Entrant],
    pub key: &'a Key,
}

impl<'a> Probe for KeyProbe<'a> {
    ghost use Rattle.std.specs.Prelude.{map};
    ghost use Rattle.dh_record.specs.Sorting.{rank_of, rank_of_entrant};

    ghost ranks = { λ p. map rank_of_entrant p.rows.now };

    ghost sought = { λ p. rank_of p.key.now };

    fn is_behind(&self, n: u32) -> bool {
        is_key_before(&self.rows[n as usize].key, self.key)
    }

    fn is_before(&self, n: u32) -> bool {
        is_key_before(self.key, &self.rows[n as usize].key)
    }
}

/// A digest among those of keys, the undigested ones before all.
#[derive(Clone, Copy)]
pub struct DigestProbe<'a> {
    pub rows: &'a [Entrant],
    pub digest: &'a Option<Digest>,
}

impl<'a> Probe for DigestProbe<'a> {
    ghost use Rattle.std.specs.Prelude.{map, ◌∷◌, []};
    ghost use Rattle.dh_syntax.specs.Imports.Keys.{digest_rank};
    ghost use Rattle.dh_record.specs.Keeping.{digest_of_entrant};

    ghost ranks = { λ p. map digest_of_entrant p.rows.now };

    ghost sought = { λ p. digest_rank p.digest.now ∷ [] };

    fn is_behind(&self, n: u32) -> bool {
        is_digest_before(&self.rows[n as usize].key.digest, self.digest)
    }

    fn is_before(&self, n: u32) -> bool {
        is_digest_before(self.digest, &self.rows[n as usize].key.digest)
    }
}

/// A location among those of texts.
#[derive(Clone, Copy)]
pub struct LocProbe<'a> {
    pub rows: &'a [Text],
    pub loc: &'a Loc,
}

impl<'a> Probe for LocProbe<'a> {
    ghost use Rattle.std.specs.Prelude.{map};
    ghost use Rattle.dh_syntax.specs.Imports.Keys.{loc_rank};
    ghost use Rattle.dh_record.specs.Sorting.{rank_of_text};

    ghost ranks = { λ p. map rank_of_text p.rows.now };

    ghost sought = { λ p. loc_rank p.loc.now };

    fn is_behind(&self, n: u32) -> bool {
        is_loc_before(&self.rows[n as usize].loc, self.loc)
    }

    fn is_before(&self, n: u32) -> bool {
        is_loc_before(self.loc, &self.rows[n as usize].loc)
    }
}

/// A digest among those of looks.
#[derive(Clone, Copy)]
pub struct LookProbe<'a> {
    pub rows: &'a [Look],
    pub digest: &'a Digest,
}

impl<'a> Probe for LookProbe<'a> {
    ghost use Rattle.std.specs.Prelude.{map, ◌∷◌, []};
    ghost use Rattle.dh_record.specs.Sorting.{rank_of_look};

    ghost ranks = { λ p. map rank_of_look p.rows.now };

    ghost sought = { λ p. p.digest.now.0 ∷ [] };

    fn is_behind(&self, n: u32) -> bool {
        is_bytes_before(&self.rows[n as usize].digest, self.digest)
    }

    fn is_before(&self, n: u32) -> bool {
        is_bytes_before(self.digest, &self.rows[n as usize].digest)
    }
}
