//! What the task of a ticket needs.

ghost use Rattle.std.specs.Prelude.{◌<◌, length, IfOk};
ghost use Rattle.dh_imports.specs.Machine.{Task, InFlight};
ghost use Rattle.dh_table.specs.States.{IsFrozenLook, state_of, task_of};
ghost use Rattle.dh_table.specs.Works.{IsWork, IsFitWork};

use crate::steps::{Job, job_of};
use crate::tables::{Table, Ticket};
use dh_demand::Results;
use dh_ports::World;
use dh_record::{Item, Kind, due_item};
use dh_syntax::{Digest, Loc};
use std::alloc::{AllocError, Global};

/// What a task needs.
#[derive(Debug, Drop)]
pub enum Work {
    /// A text is to be fetched from here.
    Fetch(Loc),
    /// An entry of the cache is to be looked up.
    Look(Digest),
    /// The last step of a key is to be made on this item.
    Finish(Item),
}

impl<W: World> Table<W> {
    /// What the task of a ticket needs: a location, a digest, or a key with its item.
    pub fn work(&self, alloc: Global, ticket: &Ticket) -> Result<Work, AllocError>
        requires { (t : Task) × InFlight (state_of self.now) ticket.now.serial t }
        ensures work { IfOk result (IsWork (state_of self.now) ticket.now.serial) }
        ensures fits { IfOk result IsFitWork }
    {
        let job = self.job_in_flight(ticket.serial);
        match job.kind {
            Kind::Fetch => Ok(Work::Fetch(self.keys.key(job.key).loc.copied(alloc)?)),
            Kind::Look => {
                let Some(digest) = self.keys.key(job.key).digest else {
                    unreachable!()
                };
                Ok(Work::Look(digest))
            }
            Kind::Finish => {
                let texts = self.found_texts();
                let looks = self.found_looks();
                let item = due_item(alloc, &self.keys, &texts, &looks, job.key)?;
                Ok(Work::Finish(item))
            }
        }
    }
    // The job of a task in flight.
    fn job_in_flight(&self, serial: u64) -> Job
        requires { (t : Task) × InFlight (state_of self.now) serial t }
        ensures inside { result.key < length self.now.keys }
        ensures flies { InFlight (state_of self.now) serial (task_of self.now.keys result) }
        ensures frozen { IsFrozenLook self.now.keys result }
    {
        let Some(job) = job_of(self.flights.as_slice(), serial) else {
            unreachable!()
        };
        job
    }
}
