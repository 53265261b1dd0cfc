//! The table.

ghost use Rattle.std.specs.Prelude.{◌≡◌, ◌+◌, ◌≤◌, ◌<◌, ◌++◌, ◌∷◌, [], suc, length, None, IsOk, OnOk, vec_len, vec_capacity};
ghost use Rattle.dh_imports.specs.Machine as machine;
ghost use Rattle.dh_imports.specs.Machine.{Task, IsOpen, root_walk, InFlight, IsInTime, May, effect};
ghost use Rattle.dh_table.specs.Calls.{Adds, IsSame, Releases, with_late};
ghost use Rattle.dh_demand.specs.Nexts.{IsNext, IsInside};
ghost use Rattle.dh_table.specs.States.{IsFrozenLook, state_of, task_of};
ghost use Rattle.dh_record.specs.Rows.{rows_of, key_named};
ghost use Rattle.dh_record.specs.Brought.{news_of};

use crate::search::Scratch;
use crate::steps::{Flight, Job, Step, job_of};
use dh_demand::{Next, Results, Scan, next};
use dh_imports::Outcome;
use dh_ports::World;
use dh_record::{Entrants, Kind, Look, Looks, News, Order, Text, Texts, put};
use dh_syntax::Key;
use std::alloc::{AllocError, Global};
use std::marker::{Model, PhantomData};

/// The right to deliver or to release one task.
#[derive(Debug, Drop)]
pub struct Ticket {
    pub(crate) serial: u64,
    kind: Kind,
}

/// The table of one run. What it records is what the world tells, where that tells.
#[derive(Debug)]
pub struct Table<W: World> {
    pub(crate) root: Scan,
    pub(crate) keys: Entrants,
    pub(crate) texts: Vec<Text>,
    pub(crate) looks: Vec<Look>,
    // the numbers of the texts and of the looks, in the order of their locations and digests
    pub(crate) text_order: Order,
    pub(crate) look_order: Order,
    // What `decided`, `limited`, `drawn` and `refused` hold is read by contracts alone: the calls read how long `drawn` is, and how much
    // room
    // each has. `history` is read by contracts, tests, and `gen`, which counts its fetches.
    // the numbers of the decided keys, in the order of their steps
    pub(crate) decided: Vec<u32>,
    // of these, the numbers of those that were decided by a limit
    pub(crate) limited: Vec<u32>,
    pub(crate) flights: Vec<Flight>,
    pub(crate) drawn: Vec<Job>,
    pub(crate) history: Vec<Step>,
    pub(crate) refused: Vec<News>,
    // what claims have found so far, and room for them
    pub(crate) scratch: Scratch,
    pub(crate) world: PhantomData<W>,
}

// Written by hand: a derived one puts the drop of each field inline wherever a table may die.
impl<W: World> Drop for Table<W> {
    fn drop(self) {
        let Table {
            root: _,
            keys: _,
            texts: _,
            looks: _,
            text_order: _,
            look_order: _,
            decided: _,
            limited: _,
            flights: _,
            drawn: _,
            history: _,
            refused: _,
            scratch: _,
            world: _,
        } = self;
    }
}

impl<W: World> Model for Table<W> {
    ghost use Rattle.dh_table.specs.Shown.{Shown};
    ghost use Rattle.dh_syntax.specs.contracts.expressions.Expr as e;
    ghost use Rattle.std.specs.Coded.{codes};

    ghost Value = { Shown };

    ghost coded = { Prim.hlevel (codes, e.the_row.coded) };

    ghost use Rattle.dh_table.specs.Tables.{view_of, IsGood};

    ghost view = { λ t. view_of t };

    ghost invariant = { λ t. IsGood W.told W.shelved t };
}

impl Ticket {
    /// Of which kind its task is.
    pub fn kind(&self) -> Kind
        ensures { result ≡ self.now.kind }
    {
        self.kind
    }
}

impl<W: World> Table<W> {
    /// The steps so far.
    pub fn history(&self) -> &[Step]
        ensures { result.now ≡ self.now.history }
    {
        self.history.as_slice()
    }

    /// How many tasks are in flight.
    pub fn in_flight(&self) -> usize
        ensures count { result ≡ length self.now.flights }
        ensures room { length self.now.flights ≤ self.now.spare }
    {
        self.flights.len()
    }

    /// Makes room for so many more steps.
    pub fn reserve(&mut self, n: usize) -> Result<(), AllocError>
        ensures same { IsSame self.old self.new }
        ensures spare { self.old.spare ≤ self.new.spare }
        ensures room { OnOk result (n ≤ self.new.spare) }
        ensures succeeds { n ≤ self.old.spare → IsOk result }
    {
        self.flights.reserve(n)?;
        self.drawn.reserve(n)?;
        self.history.reserve(n)?;
        self.refused.reserve(n)?;
        self.decided.reserve(n)?;
        self.limited.reserve(n)?;
        Ok(())
    }

    // The recorded texts, with their order.
    pub(crate) fn found_texts(&self) -> Texts<'_>
        ensures { result ≡ self.now.texts }
    {
        Texts::of(self.texts.as_slice(), &self.text_order)
    }

    // The recorded looks, with their order.
    pub(crate) fn found_looks(&self) -> Looks<'_>
        ensures { result ≡ self.now.looks }
    {
        Looks::of(self.looks.as_slice(), &self.look_order)
    }

    // What the walk of the root does next.
    pub(crate) fn root_next(&self) -> Next
        ensures next { IsNext None (rows_of self.now.keys) (root_walk (state_of self.now)) result }
        ensures inside { IsInside (rows_of self.now.keys) result }
    {
        next(&self.root, None, self)
    }

    // The step that hands out the task of a key.
    pub(crate) fn draw(&mut self, worker: u32, job: Job) -> Ticket
        requires open { IsOpen (state_of self.old) (task_of self.old.keys job) }
        requires named { job.key < length self.old.keys }
        requires frozen { IsFrozenLook self.old.keys job }
        requires room { length self.old.flights + 2 ≤ self.old.spare }
        ensures serial { result.serial ≡ suc (length self.old.drawn) }
        ensures kind { result.kind ≡ job.kind }
        ensures state { state_of self.new ≡ effect (machine.Claim worker (task_of self.old.keys job)) (state_of self.old) }
        ensures keys { self.new.keys ≡ self.old.keys }
        ensures adds { Adds self.old self.new (Step.Claim worker job.kind (suc (length self.old.drawn)) ∷ []) }
    {
        let serial = self.drawn.len() as u64 + 1;
        let kind = job.kind;
        put(&mut self.drawn, job);
        put(&mut self.flights, Flight { serial, job });
        put(
            &mut self.history,
            Step::Claim {
                worker,
                kind,
                serial,
            },
        );
        Ticket { serial, kind }
    }

    // The step that marks a loop at its least key.
    pub(crate) fn mark(&mut self, n: u32)
        requires may { May (machine.Cycled (key_named self.old.keys n)) (state_of self.old) }
        requires inside { n < length self.old.keys }
        requires room { length self.old.flights + 1 ≤ self.old.spare }
        ensures state { state_of self.new ≡ effect (machine.Cycled (key_named self.old.keys n)) (state_of self.old) }
        ensures flights { self.new.flights ≡ self.old.flights }
        ensures adds { Adds self.old self.new (Step.Cycled n ∷ []) }
    {
        self.scratch.explored.known = false;
        self.keys.mark(n);
        put(&mut self.decided, n);
        put(&mut self.history, Step::Cycled { key: n });
    }

    // The step that keeps news that came too late.
    pub(crate) fn refuse(&mut self, serial: u64, news: News)
        requires late { ¬ IsInTime (state_of self.old) serial (news_of news) }
        requires room { length self.old.flights + 1 ≤ self.old.spare }
        ensures shown { self.new ≡ with_late serial news self.old self.new.spare }
        ensures spare { self.old.spare ≤ self.new.spare + 1 }
    {
        put(&mut self.refused, news);
        put(&mut self.history, Step::Late { serial });
    }

    /// Puts the task of a ticket back. Answers whether its serial is in flight.
    pub fn release(&mut self, ticket: Ticket) -> bool
        ensures { Releases result self.old self.new ticket.serial }
    {
        let serial = ticket.serial;
        if job_of(self.flights.as_slice(), serial).is_none() {
            return false;
        }
        self.land(serial);
        true
    }

    // The step that puts a task back.
    fn land(&mut self, serial: u64)
        requires { (t : Task) × InFlight (state_of self.old) serial t }
        ensures state { state_of self.new ≡ effect (machine.Release serial) (state_of self.old) }
        ensures keys { self.new.keys ≡ self.old.keys }
        ensures adds { Adds self.old self.new (Step.Release serial ∷ []) }
    {
        self.flights.retain(|flight| flight.serial != serial);
        put(&mut self.history, Step::Release { serial });
    }
}

impl<W: World> Results for Table<W> {
    ghost use Rattle.dh_record.specs.Rows.{rows_of};

    ghost rows = { λ t. rows_of t.keys };

    fn outcome(&self, key: u32) -> Option<&Outcome> {
        self.keys.outcome(key)
    }

    fn key(&self, key: u32) -> &Key {
        self.keys.key(key)
    }
}
