//! Where texts are fetched, and where entries of the cache are looked up and kept.

ghost use Rattle.std.specs.Prelude.{◌≡◌, ℕ, ◌≤◌, List, None, Option, length, option_map, IfOk, IfErr, IfSome, OnOk, OnErr};
ghost use Rattle.dh_syntax.specs.declared.locations.Digest.{Digest};
ghost use Rattle.dh_ports.specs.Counts.{one_more, Rose};
ghost use Rattle.dh_ports.specs.Desks.{Tells, IsShort, shown, filed_with};
ghost use Rattle.dh_syntax.specs.Limits.{most_entry_bytes};

use crate::worlds::{Got, World};
use dh_syntax::{Bytes, Digest, Loc};
use std::alloc::{AllocError, AllocFailed, Global};

/// Why a desk gave no answer.
#[derive(Clone, Copy, Debug, PartialEq, Eq)]
pub enum DeskError {
    /// The device failed.
    Failed,
    Memory,
}

impl From<AllocError> for DeskError {
    ghost use Rattle.dh_ports.specs.declared.desks.DeskError.TheVariants.{Memory};

    ghost from_gives = { λ _ e. e ≡ Memory };

    fn from(_e: AllocError) -> DeskError {
        DeskError::Memory
    }
}

impl<T: Drop> From<AllocFailed<T>> for DeskError {
    ghost use Rattle.dh_ports.specs.declared.desks.DeskError.TheVariants.{Memory};

    ghost from_gives = { λ _ e. e ≡ Memory };

    fn from(_e: AllocFailed<T>) -> DeskError {
        DeskError::Memory
    }
}

/// The outside as one worker sees it. What it answers is what the world tells, where it tells.
pub trait Desk<W: World> {
    /// How many calls have failed. It stands still at the last value of a `u64`.
    ghost faults: { Self → ℕ };

    /// How many texts were asked for. It stands still at the last value of a `u64`.
    ghost asked: { Self → ℕ };

    /// What was kept so far, where it is known.
    ghost filed: { Self → Option (List (Digest × List ℕ)) } = { λ _. None };

    /// What is found at a location; of a text at most the first 1,048,577 bytes. Each call counts as one that asked, whatever it
    /// answers.
    fn fetch(&mut self, alloc: Global, loc: &Loc) -> Result<Got, DeskError>
        ensures told { IfOk result (λ got. Tells (W.told loc.now) got) }
        ensures short { IfOk result IsShort }
        ensures asked { asked self.new ≡ one_more (asked self.old) }
        ensures filed { filed self.new ≡ filed self.old }
        ensures counted { faults self.old ≤ faults self.new }
        ensures quiet { OnOk result (faults self.new ≡ faults self.old) }
        ensures failed { IfErr result (λ e. e ≡ DeskError.Failed → Rose (faults self.old) (faults self.new)) };

    /// The bytes that the cache has under a digest, if any. An entry of more than 16,777,216 bytes is none.
    fn look(&mut self, alloc: Global, d: &Digest) -> Result<Option<Bytes>, DeskError>
        ensures told { IfOk result (λ entry. Tells (option_map shown (W.shelved d.now)) entry) }
        ensures small { IfOk result (λ entry. IfSome entry (λ bytes. length bytes ≤ most_entry_bytes)) }
        ensures asked { asked self.new ≡ asked self.old }
        ensures filed { filed self.new ≡ filed self.old }
        ensures counted { faults self.old ≤ faults self.new }
        ensures quiet { OnOk result (faults self.new ≡ faults self.old) }
        ensures failed { IfErr result (λ e. e ≡ DeskError.Failed → Rose (faults self.old) (faults self.new)) };

    /// Keeps an entry in the cache.
    fn keep(&mut self, d: &Digest, bytes: &[u8]) -> Result<(), DeskError>
        requires { length bytes.now ≤ most_entry_bytes }
        ensures kept { OnOk result (filed self.new ≡ filed_with (filed self.old) d.now bytes.now) }
        ensures not_kept { OnErr result (filed self.new ≡ filed self.old) }
        ensures asked { asked self.new ≡ asked self.old }
        ensures counted { faults self.old ≤ faults self.new }
        ensures quiet { OnOk result (faults self.new ≡ faults self.old) }
        ensures failed { IfErr result (λ e. e ≡ DeskError.Failed → Rose (faults self.old) (faults self.new)) };
}
