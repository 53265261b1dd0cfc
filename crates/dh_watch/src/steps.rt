//! The steps of a run.

ghost use Rattle.std.specs.Prelude.{◌≡◌};

use crate::sources::Source;
use crate::ways::{look_on, progress};
use crate::workers::Worker;
use dh_record::{Kind, Reach};
use dh_watch_files::Files;
use dh_watch_runs::{Progress, Refusal, Resolver};
use std::alloc::Global;

impl<F: Files, W: Worker> Resolver for Source<F, W> {
    ghost use Rattle.dh_record.specs.Entering.{keys_in};
    ghost use Rattle.dh_watch_rows.specs.KeptRows.{kept_of};
    ghost use Rattle.dh_watch.specs.Ways.{IsInOrder};

    ghost is_good = { λ s. IsInOrder s.rows s.ways.items };

    ghost kept = { λ s. kept_of s.rows };

    ghost keys = { λ s. keys_in s.rows.keys };

    ghost now = { λ s. F.now s.files };

    ghost asked = { λ s. F.asked s.files };

    ghost faults = { λ s. F.faults s.files };

    fn advance(&mut self, alloc: Global, key: u32) -> Result<Progress, Refusal> {
        match look_on(&self.rows, &mut self.ways, key) {
            Reach::Due(Kind::Finish) => Ok(Progress::Due),
            Reach::Wait(next) => Ok(Progress::Wait(next)),
            Reach::Due(Kind::Fetch) => {
                self.fetch(alloc, key)?;
                Ok(progress(&self.rows, &mut self.ways, key))
            }
            Reach::Due(Kind::Look) => {
                self.miss(key)?;
                Ok(progress(&self.rows, &mut self.ways, key))
            }
        }
    }

    fn finish(&mut self, alloc: Global, key: u32) -> Result<(), Refusal> {
        let item = self.rows.item(alloc, key)?;
        let done = self.worker.last(alloc, item)?;
        self.rows.decide(key, done)?;
        Ok(())
    }

    fn is_known(&self, key: u32) -> bool {
        self.rows.is_known(key)
    }

    fn texts(&self) -> usize {
        self.rows.text_count()
    }

    fn is_same(&self, j: u32, k: u32) -> bool {
        self.rows.is_same(j, k)
    }

    fn is_at_most(&self, j: u32, k: u32) -> bool {
        self.rows.is_at_most(j, k)
    }
}
