//! Files that are watched.

ghost use Rattle.std.specs.Prelude.{◌≡◌, []};
ghost use Rattle.dh_watch.specs.Watchers.{IsWatched};
ghost use Rattle.dh_watch_laws.specs.Editing.{locs_of};
ghost use Rattle.dh_watch_rows.specs.KeptRows.{kept_of};

use dh_watch::{Watcher, Worker};
use dh_watch_files::Files;
use std::alloc::Global;

/// Files that are edited and asked, with what is kept of them from one ask to the next.
#[derive(Drop)]
pub struct Watch<F: Files, W: Worker> {
    pub(crate) alloc: Global,
    pub(crate) watcher: Watcher<F, W>,
}

impl<F: Files, W: Worker> Watch<F, W> {
    /// Nothing is kept. It takes no memory.
    pub fn new(alloc: Global, files: F, worker: W) -> Watch<F, W>
        ensures agrees { IsWatched (F.now result.watcher.source.files) result.watcher.source.rows result.watcher.stale }
        ensures now { F.now result.watcher.source.files ≡ F.now files }
        ensures kept { locs_of (kept_of result.watcher.source.rows).recorded.texts ≡ [] }
        ensures faults { F.faults result.watcher.source.files ≡ F.faults files }
    {
        Watch {
            alloc,
            watcher: Watcher::new(alloc, files, worker),
        }
    }
}
