//! Claims: the next task of a run.

ghost use Rattle.std.specs.Prelude.{◌≡◌, ◌<◌, ◌≤◌, ◌+◌, ◌↔◌, [], IsTrue, IsSome, IsNone, IfSome, None, length};
ghost use Rattle.dh_imports.specs.Machine.{Task, IsOpen, root_walk};
ghost use Rattle.dh_imports.specs.Walk.{Needs};
ghost use Rattle.dh_imports.specs.Replay.{root_end};
ghost use Rattle.dh_table.specs.Calls.{Claims};
ghost use Rattle.dh_table.specs.Inside.Searching.{IsFound, IsJob, IsLoop};
ghost use Rattle.dh_record.specs.Rows.{key_named};
ghost use Rattle.dh_table.specs.States.{state_of};

use crate::search::{find_open, least_of_loop};
use crate::steps::Job;
use crate::tables::{Table, Ticket};
use dh_demand::Next;
use dh_ports::World;
use dh_record::{Looks, Texts};
use dh_syntax::MOST_KEYS;

/// What a claim answers.
#[derive(Debug, Drop)]
pub enum Claimed {
    /// A task to work on.
    Task(Ticket),
    /// No task is open, and one is in flight.
    Idle,
    /// The root is decided.
    Over,
}

impl<W: World> Table<W> {
    /// Whether the root is ready or has a fault.
    pub fn is_over(&self) -> bool
        ensures { IsTrue result ↔ IsSome (root_end (state_of self.now)) }
    {
        if self.keys.len() > MOST_KEYS {
            return true;
        }
        match self.root_next() {
            Next::Need(_) => false,
            Next::Ready | Next::Fault(_) => true,
        }
    }

    // An open task; `None` exactly where none is open.
    pub(crate) fn find(&mut self) -> Option<Job>
        ensures found { IsFound (state_of self.old) self.old.keys result }
        ensures same { self.new ≡ self.old }
    {
        let Table {
            root,
            keys,
            texts,
            looks,
            text_order,
            look_order,
            flights,
            scratch,
            ..
        } = self;
        find_open(
            root,
            keys,
            &Texts::of(texts.as_slice(), text_order),
            &Looks::of(looks.as_slice(), look_order),
            flights.as_slice(),
            &mut scratch.explored,
        )
    }

    // The number of the key at which a loop is to be marked, where the root is undecided, no task is open and nothing is in
    // flight.
    fn find_loop(&mut self, first: u32) -> u32
        requires idle { (state_of self.old).flights ≡ [] }
        requires none { (t : Task) → ¬ IsOpen (state_of self.old) t }
        requires needs { root_walk (state_of self.old) ≡ Needs (key_named self.old.keys first) }
        requires inside { first < length self.old.keys }
        ensures inside { result < length self.old.keys }
        ensures found { IsLoop (state_of self.old) (key_named self.old.keys result) }
        ensures same { self.new ≡ self.old }
    {
        let Table {
            keys,
            texts,
            looks,
            text_order,
            look_order,
            scratch,
            ..
        } = self;
        least_of_loop(
            keys,
            &Texts::of(texts.as_slice(), text_order),
            &Looks::of(looks.as_slice(), look_order),
            first,
            &mut scratch.seen,
            &mut scratch.trail,
        )
    }

    // The number of the key that the root needs, where it is undecided.
    pub(crate) fn need(&self) -> Option<u32>
        ensures none { IsNone result ↔ IsSome (root_end (state_of self.now)) }
        ensures some { IfSome result (λ n. (n < length self.now.keys) × (root_walk (state_of self.now) ≡ Needs (key_named self.now.keys n))) }
    {
        if self.keys.len() > MOST_KEYS {
            return None;
        }
        match self.root_next() {
            Next::Need(key) => Some(key),
            Next::Ready | Next::Fault(_) => None,
        }
    }

    /// The task of a key that the root wants and that waits for no other key. Where no task is open and none is in flight, the
    /// loop into which the root's blocking keys lead is marked first. It takes no memory.
    pub fn claim(&mut self, worker: u32) -> Claimed
        requires { length self.old.flights + 3 ≤ self.old.spare }
        ensures { Claims worker self.old self.new result }
    {
        match self.find_undecided() {
            Some(job) => Claimed::Task(self.draw(worker, job)),
            None => match self.need() {
                None => Claimed::Over,
                Some(key) => {
                    if self.in_flight() > 0 {
                        Claimed::Idle
                    } else {
                        self.claim_past_loop(worker, key)
                    }
                }
            },
        }
    }

    // An open task where the root is undecided. A root that leads to an open task is: only keys that are too many decide it then.
    fn find_undecided(&mut self) -> Option<Job>
        ensures undecided { IsSome result → root_end (state_of self.old) ≡ None }
        ensures found { IfSome result (IsJob (state_of self.old) self.old.keys) }
        ensures none { IsNone result → root_end (state_of self.old) ≡ None → (t : Task) → ¬ IsOpen (state_of self.old) t }
        ensures same { self.new ≡ self.old }
    {
        if self.keys.len() > MOST_KEYS {
            return None;
        }
        self.find()
    }

    // The claim where no task is open and nothing is in flight: a loop is marked first.
    fn claim_past_loop(&mut self, worker: u32, first: u32) -> Claimed
        requires room { length self.old.flights + 3 ≤ self.old.spare }
        requires idle { (state_of self.old).flights ≡ [] }
        requires none { (t : Task) → ¬ IsOpen (state_of self.old) t }
        requires undecided { root_end (state_of self.old) ≡ None }
        requires needs { root_walk (state_of self.old) ≡ Needs (key_named self.old.keys first) }
        requires inside { first < length self.old.keys }
        ensures { Claims worker self.old self.new result }
    {
        let key = self.find_loop(first);
        self.mark(key);
        if self.is_over() {
            return Claimed::Over;
        }
        match self.find() {
            Some(job) => Claimed::Task(self.draw(worker, job)),
            None => unreachable!(),
        }
    }
}
