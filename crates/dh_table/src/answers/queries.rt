//! What a table tells.

ghost use Rattle.std.specs.Prelude.{◌≡◌, ◌-◌, ◌↔◌, vec_len, vec_capacity, ◌≤◌, ◌<◌, [], IsTrue, None, length, false};
ghost use Rattle.std.specs.Option.{option_copied, option_map};
ghost use Rattle.dh_imports.specs.Machine.{Task, IsOpen, outcome_of};
ghost use Rattle.dh_imports.specs.Outcomes.{plain};
ghost use Rattle.dh_imports.specs.Replay.{distinct, keys, root_end};
ghost use Rattle.dh_record.specs.Brought.{AreShelved, AreTold};
ghost use Rattle.dh_table.specs.Calls.{IsIdle};
ghost use Rattle.dh_table.specs.States.{state_of, IsReplayed};

use crate::tables::Table;
use dh_demand::Results;
use dh_imports::Outcome;
use dh_ports::World;
use dh_syntax::Key;

// For how many more elements there is room.
fn room_of<T>(v: &Vec<T>) -> usize
    ensures { result ≡ vec_capacity v.now - vec_len v.now }
{
    v.capacity().saturating_sub(v.len())
}

impl<W: World> Table<W> {
    /// States that each recorded text but a failed one, and each recorded look, is what the world tells, where that tells. Does nothing:
    /// a caller's proof uses it.
    pub fn by_world(&self)
        ensures texts { AreTold W.told self.now.texts }
        ensures looks { AreShelved W.shelved self.now.looks }
    {
        let _texts = &self.texts;
    }

    /// States that its history leads to its state. Does nothing: a caller's proof uses it.
    pub fn by_history(&self)
        ensures { IsReplayed self.now }
    {
        let _root = &self.root;
    }

    /// For how many more steps there is room. It takes no memory.
    pub fn spare(&self) -> usize
        ensures { result ≡ self.now.spare }
    {
        let flights = room_of(&self.flights).min(room_of(&self.drawn));
        let steps = room_of(&self.history).min(room_of(&self.refused));
        let decided = room_of(&self.decided).min(room_of(&self.limited));
        flights.min(steps).min(decided)
    }

    /// How many keys the root and the recorded texts name, each counted once, with those without their digests.
    pub fn key_count(&self) -> usize
        ensures { result ≡ length (distinct (keys (state_of self.now))) }
    {
        self.keys.len()
    }

    /// What came of a key. `None` exactly where it is undecided or unknown.
    pub fn result(&self, key: &Key) -> Option<&Outcome>
        ensures { option_map plain (option_copied result) ≡ outcome_of (state_of self.now) key.now }
    {
        match self.keys.number(key) {
            Some(number) => self.keys.outcome(number),
            None => None,
        }
    }

    /// Whether a claim would find the root undecided, no task open, and one in flight. It takes no memory.
    pub fn idle(&mut self) -> bool
        ensures idle { IsTrue result ↔ IsIdle (state_of self.old) }
        ensures same { self.new ≡ self.old }
    {
        if self.in_flight() == 0 || self.find().is_some() {
            return false;
        }
        self.need().is_some()
    }
}
