//! What is kept of files from one ask to the next.

ghost use Rattle.std.specs.Prelude.{◌≡◌, ◌<◌, ◌≤◌, ◌+◌, ℕ, false, length, IfErr, IfOk, OnErr, OnOk};
ghost use Rattle.dh_ports.specs.Counts.{Rose};
ghost use Rattle.dh_ports.specs.declared.desks.DeskError.TheVariants as errors;
ghost use Rattle.dh_record.specs.Entering.{keys_in};
ghost use Rattle.dh_record.specs.Rows.{key_named};
ghost use Rattle.dh_syntax.specs.Limits.{most_keys};
ghost use Rattle.dh_watch_files.specs.Contents.{IsPut};
ghost use Rattle.dh_watch_laws.specs.Asking.{Asked};
ghost use Rattle.dh_watch_laws.specs.Kept.{IsSound, nothing_kept};
ghost use Rattle.dh_watch_laws.specs.VisitCounts.{Counts};
ghost use Rattle.dh_watch_rows.specs.KeptRows.{IsGood, kept_of};
ghost use Rattle.dh_watch_rows.specs.Removing.{Forgets};
ghost use Rattle.dh_watch_runs.specs.declared.deciding.Stop.TheVariants as stops;
ghost use Rattle.dh_watch_runs.specs.Asks.{ComesTo};
ghost use Rattle.dh_watch_runs.specs.Endings.{LeavesChain};
ghost use Rattle.dh_watch_runs.specs.Resolving.{AsksFor};
ghost use Rattle.dh_watch.specs.Watchers.{IsNumber, IsStopped, IsWatched, MeetsFew};

use crate::sources::Source;
use crate::workers::Worker;
use dh_ports::DeskError;
use dh_syntax::{Bytes, Key, Loc};
use dh_watch_files::Files;
use dh_watch_rows::Rows;
use dh_watch_runs::{End, MOST_KEYS, Resolution, Stop, Trail, ask};
use std::alloc::{AllocError, Global};

/// To what an ask came.
#[derive(Clone, Copy, Debug)]
pub struct Resolved {
    /// The number of the root's key.
    pub root: u32,
    pub end: End,
    /// How many locations were fetched.
    pub fetched: usize,
}

/// Files that are edited and asked, with what is kept of them between two asks.
#[derive(Drop)]
pub struct Watcher<F: Files, W: Worker> {
    pub(crate) source: Source<F, W>,
    pub(crate) trail: Trail,
    // whether a text was taken away since the last sweep
    pub(crate) stale: bool,
}

impl<F: Files, W: Worker> Watcher<F, W> {
    /// Nothing is kept. It takes no memory.
    pub fn new(alloc: Global, files: F, worker: W) -> Watcher<F, W>
        ensures watched { IsWatched (F.now files) result.source.rows result.stale }
        ensures nothing { kept_of result.source.rows ≡ nothing_kept }
        ensures files { result.source.files ≡ files }
    {
        Watcher {
            source: Source {
                files,
                rows: Rows::new(alloc),
                worker,
                ways: Vec::new(alloc),
            },
            trail: Trail::new(alloc),
            stale: false,
        }
    }

    /// What is kept.
    pub fn rows(&self) -> &Rows
        ensures { result.now ≡ self.now.source.rows }
    {
        &self.source.rows
    }

    /// Puts these bytes at a location, or takes out what is there, and forgets its text. What stood on that text goes at the next ask, with
    /// what stood on others. Where it is refused, all is as it was.
    pub fn change(&mut self, loc: &Loc, bytes: Option<Bytes>) -> Result<(), DeskError>
        requires { IsWatched (F.now self.old.source.files) self.old.source.rows self.old.stale }
        ensures watched { IsWatched (F.now self.new.source.files) self.new.source.rows self.new.stale }
        ensures put { OnOk result (IsPut (F.now self.old.source.files) loc.now bytes (F.now self.new.source.files)) }
        ensures forgets { OnOk result (Forgets (kept_of self.old.source.rows) loc.now (kept_of self.new.source.rows)) }
        ensures same { OnErr result (F.now self.new.source.files ≡ F.now self.old.source.files) }
        ensures kept { OnErr result (self.new.source.rows ≡ self.old.source.rows) }
        ensures asked { F.asked self.new.source.files ≡ F.asked self.old.source.files }
        ensures counted { F.faults self.old.source.files ≤ F.faults self.new.source.files }
        ensures quiet { OnOk result (F.faults self.new.source.files ≡ F.faults self.old.source.files) }
        ensures failed { IfErr result (λ e. e ≡ errors.Failed → Rose (F.faults self.old.source.files) (F.faults self.new.source.files)) }
    {
        match self.source.files.put(loc, bytes) {
            Ok(()) => {
                if !self.source.rows.forget_text(loc) {
                    return Ok(());
                }
                self.stale = true;
                Ok(())
            }
            Err(fault) => Err(fault),
        }
    }

    /// Forgets what stood on texts that were taken away: one pass over what is kept, however many there were. It takes no memory.
    pub fn refresh(&mut self)
        requires { IsWatched (F.now self.old.source.files) self.old.source.rows self.old.stale }
        ensures watched { IsWatched (F.now self.new.source.files) self.new.source.rows self.new.stale }
        ensures fresh { self.new.stale ≡ false }
        ensures sound { IsSound (kept_of self.new.source.rows) }
        ensures texts { (kept_of self.new.source.rows).recorded.texts ≡ (kept_of self.old.source.rows).recorded.texts }
        ensures files { self.new.source.files ≡ self.old.source.files }
    {
        if !self.stale {
            return;
        }
        self.source.rows.sweep();
        self.stale = false;
    }

    /// Resolves a key, over what is kept after [`Watcher::refresh`]. No more texts are asked for than are fetched, but for one where that
    /// is refused. How far walks come is known again as they are made: an edit may have changed it.
    pub fn resolve(&mut self, alloc: Global, key: Key) -> Result<Resolved, Stop>
        requires watched { IsWatched (F.now self.old.source.files) self.old.source.rows self.old.stale }
        requires fresh { self.old.stale ≡ false }
        ensures watched { IsWatched (F.now self.new.source.files) self.new.source.rows self.new.stale }
        ensures fresh { self.new.stale ≡ false }
        ensures asked { IfOk result (λ r. Asked (kept_of self.old.source.rows) key (kept_of self.new.source.rows) r.fetched) }
        ensures ended { IfOk result (λ r. ComesTo key (keys_in self.new.source.rows.keys) (kept_of self.new.source.rows) r.end) }
        ensures number { IfOk result (λ r. IsNumber self.new.source.rows.keys key r.root) }
        ensures few { OnOk result (MeetsFew (kept_of self.new.source.rows) key) }
        ensures stopped { IfErr result (IsStopped (kept_of self.old.source.rows) key (kept_of self.new.source.rows)) }
        ensures asks { IfOk result (λ r. F.asked self.new.source.files ≤ F.asked self.old.source.files + r.fetched) }
        ensures asks_one { OnErr result (AsksFor 1 (F.asked self.old.source.files) (kept_of self.old.source.rows) (F.asked self.new.source.files) (kept_of self.new.source.rows)) }
        ensures now { F.now self.new.source.files ≡ F.now self.old.source.files }
        ensures counted { F.faults self.old.source.files ≤ F.faults self.new.source.files }
        ensures quiet { OnOk result (F.faults self.new.source.files ≡ F.faults self.old.source.files) }
        ensures failed { IfErr result (λ e. e ≡ stops.Failed → Rose (F.faults self.old.source.files) (F.faults self.new.source.files)) }
        ensures steady { IfErr result (λ e. e ≡ stops.TooMany → F.faults self.new.source.files ≡ F.faults self.old.source.files) }
    {
        let root = match self.source.rows.enter(alloc, key) {
            Ok(root) => root,
            Err(AllocError) => return Err(Stop::Memory),
        };
        self.source.ways.clear();
        match ask(alloc, &mut self.source, &mut self.trail, root) {
            Ok(Resolution { end, fetched }) => {
                self.allow(alloc, root, end)?;
                Ok(Resolved { root, end, fetched })
            }
            Err(stop) => Err(stop),
        }
    }

    // Allows an ask that came to this end where it visits no more keys than are allowed, those that earlier asks decided among them.
    fn allow(&self, alloc: Global, root: u32, end: End) -> Result<(), Stop>
        requires good { IsGood self.now.source.rows }
        requires sound { IsSound (kept_of self.now.source.rows) }
        requires inside { root < length self.now.source.rows.keys }
        requires ended { ComesTo (key_named self.now.source.rows.keys root) (keys_in self.now.source.rows.keys) (kept_of self.now.source.rows) end }
        requires chain { LeavesChain (key_named self.now.source.rows.keys root) (keys_in self.now.source.rows.keys) (kept_of self.now.source.rows) self.now.trail end }
        ensures few { OnOk result (MeetsFew (kept_of self.now.source.rows) (key_named self.now.source.rows.keys root)) }
        ensures many { IfErr result (λ e. e ≡ stops.TooMany → (n : ℕ) × Counts (kept_of self.now.source.rows) (key_named self.now.source.rows.keys root) n × most_keys < n) }
        ensures quiet { IfErr result (λ e. ¬ (e ≡ stops.Failed)) }
    {
        if self.visited(alloc, root, end)? > MOST_KEYS {
            return Err(Stop::TooMany);
        }
        Ok(())
    }

    // How many keys are visited from a root that came to this end. Where those are few that have outcomes or are on the trail, it is how
    // many these are, and nothing is counted.
    fn visited(&self, alloc: Global, root: u32, end: End) -> Result<usize, AllocError>
        requires good { IsGood self.now.source.rows }
        requires sound { IsSound (kept_of self.now.source.rows) }
        requires inside { root < length self.now.source.rows.keys }
        requires ended { ComesTo (key_named self.now.source.rows.keys root) (keys_in self.now.source.rows.keys) (kept_of self.now.source.rows) end }
        requires chain { LeavesChain (key_named self.now.source.rows.keys root) (keys_in self.now.source.rows.keys) (kept_of self.now.source.rows) self.now.trail end }
        ensures few { IfOk result (λ n. n ≤ most_keys → MeetsFew (kept_of self.now.source.rows) (key_named self.now.source.rows.keys root)) }
        ensures many { IfOk result (λ n. most_keys < n → Counts (kept_of self.now.source.rows) (key_named self.now.source.rows.keys root) n) }
    {
        let rows = &self.source.rows;
        let known = rows.outcome_count();
        match end {
            End::Decided => {
                if known <= MOST_KEYS {
                    return Ok(known);
                }
                rows.count_visited(alloc, root)
            }
            End::Loop(least) => {
                let chain = self.trail.len();
                if known <= MOST_KEYS && chain <= MOST_KEYS - known {
                    return Ok(known + chain);
                }
                rows.count_on_loop(alloc, self.trail.numbers(), least)
            }
        }
    }
}
