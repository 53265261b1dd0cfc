//! What a script is gone through with.

use dh_command::Status;
use dh_ports::DeskError;
use dh_syntax::{Bytes, Loc, Piece};

/// The line of an ask: the digest or the fault of its location, without its line feed; how a run of the command with this line
/// ends; and how many locations were fetched for it.
#[derive(Debug)]
pub struct Line {
    pub text: Piece,
    pub status: Status,
    pub asked: u32,
}

// Written by hand: a derived one puts the drop of each field inline wherever a line may die.
impl Drop for Line {
    fn drop(self) {
        let Line {
            text: _,
            status: _,
            asked: _,
        } = self;
    }
}

/// Why an ask is refused.
#[derive(Clone, Copy, Debug, PartialEq, Eq)]
pub enum WatchFault {
    /// A device failed.
    Failed,
    /// It visits more than 4,096 keys.
    TooMany,
    Memory,
}

/// Contents of locations that are changed, and asked what they are.
pub trait Watches {
    ghost use Rattle.std.specs.Prelude.{◌≡◌, ◌≤◌, ◌+◌, ℕ, List, Option, IfOk, IfErr, OnOk, OnErr};
    ghost use Rattle.dh_ports.specs.Counts.{Rose};
    ghost use Rattle.dh_script.specs.Locations.{IsPlace};
    ghost use Rattle.dh_syntax.specs.declared.locations.Loc.{Loc};
    ghost use Rattle.dh_watch_laws.specs.Contents.{Now};
    ghost use Rattle.dh_watching.specs.Steps.{AsksOneMore, IsAnswer, IsChange, IsRefusal};

    /// What is kept agrees with the contents.
    ghost agrees: { Self → Type 0 };

    /// The contents as they now are, where they are told.
    ghost now: { Self → Option Now };

    /// The locations whose texts are kept.
    ghost kept: { Self → List Loc };

    /// How many texts were asked for. It stands still at the last value of a `u64`.
    ghost asked: { Self → ℕ };

    /// How many calls of devices have failed. It stands still at the last value of a `u64`.
    ghost faults: { Self → ℕ };

    /// Puts these bytes at a location, or takes out what is there. Where it is refused, all is as it was.
    fn change(&mut self, loc: &Loc, bytes: Option<Bytes>) -> Result<(), DeskError>
        requires place { IsPlace loc.now }
        requires agrees { agrees self.old }
        ensures agrees { agrees self.new }
        ensures changed { OnOk result (IsChange (now self.old) (kept self.old) loc.now bytes (now self.new) (kept self.new)) }
        ensures same { OnErr result (now self.new ≡ now self.old) }
        ensures kept { OnErr result (kept self.new ≡ kept self.old) }
        ensures asked { asked self.new ≡ asked self.old }
        ensures counted { faults self.old ≤ faults self.new }
        ensures quiet { OnOk result (faults self.new ≡ faults self.old) }
        ensures failed { IfErr result (λ e. e ≡ DeskError.Failed → Rose (faults self.old) (faults self.new)) };

    /// Tells what a location is. No more texts are asked for than the line tells; where it is refused, no more than are new of what is
    /// kept, and one.
    fn ask(&mut self, loc: &Loc) -> Result<Line, WatchFault>
        requires place { IsPlace loc.now }
        requires agrees { agrees self.old }
        ensures agrees { agrees self.new }
        ensures answered { IfOk result (IsAnswer (now self.old) (kept self.old) loc.now (kept self.new)) }
        ensures refused { IfErr result (IsRefusal (now self.old) (kept self.old) loc.now (kept self.new)) }
        ensures same { now self.new ≡ now self.old }
        ensures asks { IfOk result (λ line. asked self.new ≤ asked self.old + line.asked) }
        ensures asks_one { OnErr result (AsksOneMore (kept self.old) (kept self.new) (asked self.old) (asked self.new)) }
        ensures counted { faults self.old ≤ faults self.new }
        ensures failed { IfErr result (λ f. f ≡ WatchFault.Failed → Rose (faults self.old) (faults self.new)) };
}
