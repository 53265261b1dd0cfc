//! Files at a desk.

ghost use Rattle.std.specs.Prelude.{None};

use crate::sightings::Sightings;
use dh_ports::{Desk, DeskError, Got, Silent};
use dh_syntax::{Bytes, Loc};
use dh_watch_files::Files;
use std::alloc::Global;

/// What stands at the locations of a desk, which others edit. What is fetched is noted.
#[derive(Drop)]
pub struct DeskFiles<'a, D> {
    desk: D,
    sightings: &'a Sightings,
}

impl<'a, D> DeskFiles<'a, D> {
    pub fn new(desk: D, sightings: &'a Sightings) -> DeskFiles<'a, D> {
        DeskFiles { desk, sightings }
    }
}

impl<'a, D: Desk<Silent>> Files for DeskFiles<'a, D> {
    ghost now = { λ _. None };

    ghost asked = { λ f. D.asked f.desk };

    ghost faults = { λ f. D.faults f.desk };

    fn fetch(&mut self, alloc: Global, loc: &Loc) -> Result<Got, DeskError> {
        match self.desk.fetch(alloc, loc) {
            Ok(got) => {
                self.sightings.note(alloc, loc, &got)?;
                Ok(got)
            }
            Err(fault) => Err(fault),
        }
    }

    /// Nothing is put: others have edited the file before they tell.
    fn put(&mut self, _loc: &Loc, _bytes: Option<Bytes>) -> Result<(), DeskError> {
        Ok(())
    }
}
