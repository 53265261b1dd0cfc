//! What is kept of the keys.

ghost use Rattle.std.specs.Prelude.{◌≡◌, ◌<◌, ◌≤◌, ◌+◌, ◌∷◌, length, true, false, Some, OnOk, OnErr, IfOk};

use std::alloc::{AllocError, Global};

/// How far a key has come.
#[derive(Clone, Copy, Debug)]
pub enum Progress {
    /// Its last step is due.
    Due,
    /// It waits for the key of this number.
    Wait(u32),
}

/// Why a step is not made.
#[derive(Clone, Copy, Debug)]
pub enum Refusal {
    /// A device failed.
    Failed,
    Memory,
}

impl From<AllocError> for Refusal {
    ghost use Rattle.dh_watch_runs.specs.declared.resolving.Refusal.TheVariants.{Memory};

    ghost from_gives = { λ _ e. e ≡ Memory };

    fn from(_e: AllocError) -> Refusal {
        Refusal::Memory
    }
}

/// Texts and outcomes of keys, by the numbers of the keys.
pub trait Resolver {
    ghost use Rattle.std.specs.Prelude.{◌≡◌, ◌<◌, ◌≤◌, ◌+◌, ℕ, List, Option, length, None, true, is_some, IfOk, IfErr, OnOk, OnErr};
    ghost use Rattle.dh_ports.specs.Counts.{Rose};
    ghost use Rattle.dh_watch_runs.specs.declared.resolving.Refusal.TheVariants as refusals;
    ghost use Rattle.dh_syntax.specs.declared.locations.Key.{Key};
    ghost use Rattle.dh_watch_laws.specs.Kept.{known, Kept, IsSound};
    ghost use Rattle.dh_watch_laws.specs.Sweeping.{is_due};
    ghost use Rattle.dh_watch_laws.specs.Running.{stage_at};
    ghost use Rattle.dh_watch_runs.specs.Resolving.{named, AreMore, AsksFor, GoesOn, Finishes, StaysOver};
    ghost use Rattle.dh_watch_laws.specs.Contents.{Now};
    ghost use Rattle.dh_watch_runs.specs.Progressing.{IsProgress};
    ghost use Rattle.dh_syntax.specs.Imports.Keys.{key_eq, key_le};

    /// The rows of what is kept are in order.
    ghost is_good: { Self → Type 0 };

    ghost kept: { Self → Kept };

    ghost keys: { Self → List Key };

    /// The contents as they now are, where they are told.
    ghost now: { Self → Option Now };

    /// How many texts were asked for.
    ghost asked: { Self → ℕ };

    /// How many calls have failed.
    ghost faults: { Self → ℕ };

    /// Takes a key as far as it comes without the outcomes of others: its text is fetched where it is not there.
    fn advance(&mut self, alloc: Global, key: u32) -> Result<Progress, Refusal>
        requires good { is_good self.old }
        requires inside { key < length (keys self.old) }
        requires sound { IsSound (kept self.old) }
        ensures good { is_good self.new }
        ensures reach { IfOk result (IsProgress (keys self.new) (stage_at (kept self.new) (named (keys self.new) key))) }
        ensures goes_on { GoesOn (kept self.old) (kept self.new) (named (keys self.old) key) }
        ensures keys { AreMore (keys self.old) (keys self.new) }
        ensures sound { IsSound (kept self.new) }
        ensures outcomes { (kept self.new).outcomes ≡ (kept self.old).outcomes }
        ensures over { StaysOver (now self.old) (kept self.old) (kept self.new) }
        ensures now { now self.new ≡ now self.old }
        ensures counted { faults self.old ≤ faults self.new }
        ensures quiet { OnOk result (faults self.new ≡ faults self.old) }
        ensures failed { IfErr result (λ e. e ≡ refusals.Failed → Rose (faults self.old) (faults self.new)) }
        ensures asks { OnOk result (AsksFor 0 (asked self.old) (kept self.old) (asked self.new) (kept self.new)) }
        ensures asks_one { OnErr result (AsksFor 1 (asked self.old) (kept self.old) (asked self.new) (kept self.new)) };

    /// Makes the last step of a key.
    fn finish(&mut self, alloc: Global, key: u32) -> Result<(), Refusal>
        requires good { is_good self.old }
        requires inside { key < length (keys self.old) }
        requires sound { IsSound (kept self.old) }
        requires open { known (kept self.old).outcomes (named (keys self.old) key) ≡ None }
        requires due { is_due (stage_at (kept self.old) (named (keys self.old) key)) ≡ true }
        ensures good { is_good self.new }
        ensures finishes { OnOk result (Finishes (kept self.old) (kept self.new) (named (keys self.old) key)) }
        ensures same { OnErr result (kept self.new ≡ kept self.old) }
        ensures keys { keys self.new ≡ keys self.old }
        ensures sound { IsSound (kept self.new) }
        ensures one { OnOk result (length (kept self.new).outcomes ≡ length (kept self.old).outcomes + 1) }
        ensures over { StaysOver (now self.old) (kept self.old) (kept self.new) }
        ensures now { now self.new ≡ now self.old }
        ensures refused { IfErr result (λ e. e ≡ refusals.Memory) }
        ensures texts { (kept self.new).recorded.texts ≡ (kept self.old).recorded.texts }
        ensures asked { asked self.new ≡ asked self.old }
        ensures faults { faults self.new ≡ faults self.old };

    /// Whether a key has an outcome.
    fn is_known(&self, key: u32) -> bool
        requires good { is_good self.now }
        requires inside { key < length (keys self.now) }
        ensures { result ≡ is_some (known (kept self.now).outcomes (named (keys self.now) key)) };

    /// How many texts are kept.
    fn texts(&self) -> usize
        ensures { result ≡ length (kept self.now).recorded.texts };

    /// Whether these are one key.
    fn is_same(&self, j: u32, k: u32) -> bool
        requires good { is_good self.now }
        requires inside { (j < length (keys self.now)) × (k < length (keys self.now)) }
        ensures { result ≡ key_eq (named (keys self.now) j) (named (keys self.now) k) };

    /// Whether the first key comes before the second, or is it.
    fn is_at_most(&self, j: u32, k: u32) -> bool
        requires good { is_good self.now }
        requires inside { (j < length (keys self.now)) × (k < length (keys self.now)) }
        ensures { result ≡ key_le (named (keys self.now) j) (named (keys self.now) k) };
}
