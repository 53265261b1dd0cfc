//! Files that are edited between asks.

use dh_ports::{DeskError, Got};
use dh_syntax::{Bytes, Loc};
use std::alloc::Global;

/// Contents of locations, which are put and taken out.
pub trait Files {
    ghost use Rattle.std.specs.Prelude.{◌≡◌, ◌≤◌, ℕ, Option, IfOk, IfErr, OnOk, OnErr};
    ghost use Rattle.dh_ports.specs.Counts.{one_more, Rose};
    ghost use Rattle.dh_ports.specs.declared.desks.DeskError.TheVariants as errors;
    ghost use Rattle.dh_watch_laws.specs.Contents.{Now};
    ghost use Rattle.dh_watch_files.specs.Contents.{Tells, IsPut};

    /// The contents as they now are, where they are told.
    ghost now: { Self → Option Now };

    /// How many texts were asked for. It stands still at the last value of a `u64`.
    ghost asked: { Self → ℕ };

    /// How many calls have failed. It stands still at the last value of a `u64`.
    ghost faults: { Self → ℕ };

    /// What is found at a location, of which at most the first 1,048,577 bytes are read.
    fn fetch(&mut self, alloc: Global, loc: &Loc) -> Result<Got, DeskError>
        ensures told { IfOk result (Tells (now self.old) loc.now) }
        ensures same { now self.new ≡ now self.old }
        ensures asked { asked self.new ≡ one_more (asked self.old) }
        ensures counted { faults self.old ≤ faults self.new }
        ensures quiet { OnOk result (faults self.new ≡ faults self.old) }
        ensures failed { IfErr result (λ e. e ≡ errors.Failed → Rose (faults self.old) (faults self.new)) };

    /// Puts these bytes at a location, or takes out what is there.
    fn put(&mut self, loc: &Loc, bytes: Option<Bytes>) -> Result<(), DeskError>
        ensures put { OnOk result (IsPut (now self.old) loc.now bytes (now self.new)) }
        ensures same { OnErr result (now self.new ≡ now self.old) }
        ensures asked { asked self.new ≡ asked self.old }
        ensures counted { faults self.old ≤ faults self.new }
        ensures quiet { OnOk result (faults self.new ≡ faults self.old) }
        ensures failed { IfErr result (λ e. e ≡ errors.Failed → Rose (faults self.old) (faults self.new)) };
}
