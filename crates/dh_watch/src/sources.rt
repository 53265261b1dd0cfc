//! Files with what is kept of them.

ghost use Rattle.std.specs.Prelude.{◌≡◌, ◌<◌, ◌≤◌, IfErr, OnOk, OnErr, length};
ghost use Rattle.dh_imports.specs.Resolver.{Lacks, TextOf};
ghost use Rattle.dh_ports.specs.Counts.{Rose};
ghost use Rattle.dh_record.specs.Entering.{keys_in};
ghost use Rattle.dh_record.specs.Rows.{key_named};
ghost use Rattle.dh_watch_laws.specs.Running.{stage_at};
ghost use Rattle.dh_watch_rows.specs.KeptRows.{AreBehind, IsGood, kept_of};
ghost use Rattle.dh_watch_runs.specs.declared.resolving.Refusal.TheVariants as refusals;
ghost use Rattle.dh_watch_runs.specs.Resolving.{AsksFor, StaysOver};
ghost use Rattle.dh_watch.specs.Ways.{AreWays};
ghost use Rattle.dh_watch.specs.Sources.{HasFetched, HasMissed, LacksLook};

use crate::workers::Worker;
use dh_demand::Headway;
use dh_ports::DeskError;
use dh_watch_files::Files;
use dh_watch_rows::Rows;
use dh_watch_runs::Refusal;
use std::alloc::Global;

/// Files, what is kept of them, and who works on it.
#[derive(Drop)]
pub struct Source<F: Files, W: Worker> {
    pub files: F,
    pub rows: Rows,
    pub worker: W,
    /// How far the walks of texts are known to come, by the numbers of their keys; empty where nothing is known.
    pub ways: Vec<Headway>,
}

impl<F: Files, W: Worker> Source<F, W> {
    // Fetches the text that a key lacks. Where that fails, what is kept stays as it was.
    pub(crate) fn fetch(&mut self, alloc: Global, key: u32) -> Result<(), Refusal>
        requires good { IsGood self.old.rows }
        requires inside { key < length self.old.rows.keys }
        requires lacks { stage_at (kept_of self.old.rows) (key_named self.old.rows.keys key) ≡ Lacks (TextOf (key_named self.old.rows.keys key).loc) }
        requires ways { AreWays (kept_of self.old.rows) (keys_in self.old.rows.keys) self.old.ways.items }
        ensures good { IsGood self.new.rows }
        ensures ways { AreWays (kept_of self.new.rows) (keys_in self.new.rows.keys) self.new.ways.items }
        ensures kept { OnOk result (HasFetched (kept_of self.old.rows) (key_named self.old.rows.keys key).loc (kept_of self.new.rows)) }
        ensures same { OnErr result (kept_of self.new.rows ≡ kept_of self.old.rows) }
        ensures keys { AreBehind self.old.rows.keys self.new.rows.keys }
        ensures over { StaysOver (F.now self.old.files) (kept_of self.old.rows) (kept_of self.new.rows) }
        ensures now { F.now self.new.files ≡ F.now self.old.files }
        ensures counted { F.faults self.old.files ≤ F.faults self.new.files }
        ensures quiet { OnOk result (F.faults self.new.files ≡ F.faults self.old.files) }
        ensures failed { IfErr result (λ e. e ≡ refusals.Failed → Rose (F.faults self.old.files) (F.faults self.new.files)) }
        ensures asks { OnOk result (AsksFor 0 (F.asked self.old.files) (kept_of self.old.rows) (F.asked self.new.files) (kept_of self.new.rows)) }
        ensures asks_one { OnErr result (AsksFor 1 (F.asked self.old.files) (kept_of self.old.rows) (F.asked self.new.files) (kept_of self.new.rows)) }
    {
        let loc = self.rows.key(key).loc.copied(alloc)?;
        match self.files.fetch(alloc, &loc) {
            Ok(got) => {
                let scan = self.worker.scan(alloc, &loc, &got)?;
                self.rows.record_text(loc, got, scan)?;
                Ok(())
            }
            Err(DeskError::Failed) => Err(Refusal::Failed),
            Err(DeskError::Memory) => Err(Refusal::Memory),
        }
    }

    // Records the look that a key lacks: there is no cache.
    pub(crate) fn miss(&mut self, key: u32) -> Result<(), Refusal>
        requires good { IsGood self.old.rows }
        requires inside { key < length self.old.rows.keys }
        requires lacks { LacksLook (kept_of self.old.rows) (key_named self.old.rows.keys key) }
        requires ways { AreWays (kept_of self.old.rows) (keys_in self.old.rows.keys) self.old.ways.items }
        ensures good { IsGood self.new.rows }
        ensures ways { AreWays (kept_of self.new.rows) (keys_in self.new.rows.keys) self.new.ways.items }
        ensures kept { OnOk result (HasMissed (kept_of self.old.rows) (key_named self.old.rows.keys key) (kept_of self.new.rows)) }
        ensures same { OnErr result (kept_of self.new.rows ≡ kept_of self.old.rows) }
        ensures keys { self.new.rows.keys ≡ self.old.rows.keys }
        ensures files { self.new.files ≡ self.old.files }
        ensures refused { IfErr result (λ e. e ≡ refusals.Memory) }
    {
        match self.rows.key(key).digest {
            Some(digest) => {
                self.rows.record_miss(digest)?;
                Ok(())
            }
            None => unreachable!(),
        }
    }
}
