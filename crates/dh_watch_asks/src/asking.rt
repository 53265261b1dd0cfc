//! Edits and asks of files that are watched.

ghost use Rattle.std.specs.Prelude.{◌≡◌, ◌≤◌, ◌+◌, false, IfErr, IfOk, OnErr, OnOk};
ghost use Rattle.dh_ports.specs.Counts.{Rose};
ghost use Rattle.dh_record.specs.Entering.{keys_in};
ghost use Rattle.dh_record.specs.Rows.{key_named};
ghost use Rattle.dh_script.specs.Locations.{IsPlace};
ghost use Rattle.dh_script_laws.specs.Asks.{RootLine, root_key as root_key_of, root_of};
ghost use Rattle.dh_syntax.specs.declared.locations.Loc.{Loc as Location};
ghost use Rattle.dh_watch.specs.Watchers.{IsNumber, IsWatched, MeetsFew};
ghost use Rattle.dh_watch_asks.specs.Stops.{fault_of};
ghost use Rattle.dh_watch_laws.specs.Asking.{Asked};
ghost use Rattle.dh_watch_laws.specs.Editing.{locs_of};
ghost use Rattle.dh_watch_laws.specs.Kept.{IsSound};
ghost use Rattle.dh_watch_rows.specs.KeptRows.{kept_of};
ghost use Rattle.dh_watch_runs.specs.Asks.{ComesTo};
ghost use Rattle.dh_watching.specs.declared.watches.WatchFault.TheVariants as faults;
ghost use Rattle.dh_watching.specs.Steps.{AsksOneMore, IsRefusal};

use crate::watched::Watch;
use dh_ports::DeskError;
use dh_syntax::{Bytes, Key, Loc, Mode};
use dh_watch::{Resolved, Worker};
use dh_watch_files::Files;
use dh_watch_lines::root_line;
use dh_watch_runs::Stop;
use dh_watching::{Line, WatchFault, Watches};
use std::alloc::{AllocError, Global};

/// The key of a location that is asked: its code, without a digest.
fn root_key(alloc: Global, loc: &Loc) -> Result<Key, AllocError>
    requires { IsPlace loc.now }
    ensures { IfOk result (λ k. k ≡ root_key_of loc.now) }
{
    let loc = loc.copied(alloc)?;
    Ok(Key {
        loc,
        mode: Mode::Code,
        digest: None,
    })
}

/// Why an ask is refused whose resolution has no end.
fn fault_of(stop: Stop) -> WatchFault
    ensures { result ≡ fault_of stop }
{
    match stop {
        Stop::Failed => WatchFault::Failed,
        Stop::TooMany => WatchFault::TooMany,
        Stop::Memory => WatchFault::Memory,
    }
}

impl<F: Files, W: Worker> Watch<F, W> {
    /// Resolves a location over what is kept, after a sweep.
    fn resolve(&mut self, loc: &Loc) -> Result<Resolved, WatchFault>
        requires place { IsPlace loc.now }
        requires watched { IsWatched (F.now self.old.watcher.source.files) self.old.watcher.source.rows self.old.watcher.stale }
        requires fresh { self.old.watcher.stale ≡ false }
        ensures watched { IsWatched (F.now self.new.watcher.source.files) self.new.watcher.source.rows self.new.watcher.stale }
        ensures fresh { self.new.watcher.stale ≡ false }
        ensures asked { IfOk result (λ r. Asked (kept_of self.old.watcher.source.rows) (root_key_of loc.now) (kept_of self.new.watcher.source.rows) r.fetched) }
        ensures ended { IfOk result (λ r. ComesTo (root_key_of loc.now) (keys_in self.new.watcher.source.rows.keys) (kept_of self.new.watcher.source.rows) r.end) }
        ensures number { IfOk result (λ r. IsNumber self.new.watcher.source.rows.keys (root_key_of loc.now) r.root) }
        ensures few { OnOk result (MeetsFew (kept_of self.new.watcher.source.rows) (root_key_of loc.now)) }
        ensures refused { IfErr result (IsRefusal (F.now self.old.watcher.source.files) (locs_of (kept_of self.old.watcher.source.rows).recorded.texts) loc.now (locs_of (kept_of self.new.watcher.source.rows).recorded.texts)) }
        ensures asks { IfOk result (λ r. F.asked self.new.watcher.source.files ≤ F.asked self.old.watcher.source.files + r.fetched) }
        ensures asks_one { OnErr result (AsksOneMore (locs_of (kept_of self.old.watcher.source.rows).recorded.texts) (locs_of (kept_of self.new.watcher.source.rows).recorded.texts)
            (F.asked self.old.watcher.source.files) (F.asked self.new.watcher.source.files)) }
        ensures now { F.now self.new.watcher.source.files ≡ F.now self.old.watcher.source.files }
        ensures counted { F.faults self.old.watcher.source.files ≤ F.faults self.new.watcher.source.files }
        ensures failed { IfErr result (λ f. f ≡ faults.Failed → Rose (F.faults self.old.watcher.source.files) (F.faults self.new.watcher.source.files)) }
    {
        let key = match root_key(self.alloc, loc) {
            Ok(key) => key,
            Err(AllocError) => return Err(WatchFault::Memory),
        };
        match self.watcher.resolve(self.alloc, key) {
            Ok(resolved) => Ok(resolved),
            Err(stop) => Err(fault_of(stop)),
        }
    }

    /// The line of an ask that came to this end.
    fn line(&self, resolved: Resolved) -> Result<Line, AllocError>
        requires watched { IsWatched (F.now self.now.watcher.source.files) self.now.watcher.source.rows self.now.watcher.stale }
        requires fresh { self.now.watcher.stale ≡ false }
        requires number { (l : Location) × IsNumber self.now.watcher.source.rows.keys (root_key_of l) resolved.root }
        requires ended { ComesTo (key_named self.now.watcher.source.rows.keys resolved.root) (keys_in self.now.watcher.source.rows.keys) (kept_of self.now.watcher.source.rows) resolved.end }
        ensures line { IfOk result (λ line. (l : Location) → key_named self.now.watcher.source.rows.keys resolved.root ≡ root_key_of l
            → RootLine (kept_of self.now.watcher.source.rows).recorded (root_of l) line.text line.status) }
        ensures asked { IfOk result (λ line. line.asked ≡ resolved.fetched) }
    {
        let Ok(asked) = u32::try_from(resolved.fetched) else {
            return Err(AllocError);
        };
        let told = root_line(self.alloc, self.watcher.rows(), resolved.root, resolved.end)?;
        Ok(Line {
            text: told.text,
            status: told.status,
            asked,
        })
    }
}

impl<F: Files, W: Worker> Watches for Watch<F, W> {
    ghost use Rattle.dh_watch.specs.Watchers.{IsWatched};
    ghost use Rattle.dh_watch_laws.specs.Editing.{locs_of};
    ghost use Rattle.dh_watch_rows.specs.KeptRows.{kept_of};

    ghost agrees = { λ w. IsWatched (F.now w.watcher.source.files) w.watcher.source.rows w.watcher.stale };

    ghost now = { λ w. F.now w.watcher.source.files };

    ghost kept = { λ w. locs_of (kept_of w.watcher.source.rows).recorded.texts };

    ghost asked = { λ w. F.asked w.watcher.source.files };

    ghost faults = { λ w. F.faults w.watcher.source.files };

    fn change(&mut self, loc: &Loc, bytes: Option<Bytes>) -> Result<(), DeskError> {
        self.watcher.change(loc, bytes)
    }

    fn ask(&mut self, loc: &Loc) -> Result<Line, WatchFault> {
        self.watcher.refresh();
        let resolved = self.resolve(loc)?;
        match self.line(resolved) {
            Ok(line) => Ok(line),
            Err(AllocError) => Err(WatchFault::Memory),
        }
    }
}
