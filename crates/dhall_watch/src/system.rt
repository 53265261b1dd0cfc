//! Following files of the system.

ghost use Rattle.std.specs.Prelude.{map, string_bytes};
ghost use Rattle.dh_streams.specs.Streams.{output};
ghost use Rattle.dh_watch_disk.specs.FilesRuns.{pausing};
ghost use Rattle.dhall_watch.specs.FreshRuns.{FollowsFresh, FollowsSystem};

use dh_command::Status;
use dh_desks::{Folders, SystemDesk, make_desks};
use dh_ports::{Desk, Feed, Silent, Sink};
use dh_streams::lack_memory;
use dh_watch_asks::Watch;
use dh_watch_disk::{DeskFiles, Pauses, Sightings, watch_files};
use dh_watch_work::CommandWorker;
use std::alloc::{AllocError, Global};
use std::env::Env;
use std::net::Net;
use std::rt::Files;
use std::sync::Arc;
use std::sync::atomic::{AtomicBool, Ordering};
use std::thread;
use std::time::{Clock, Duration};

/// How long a pause between two looks is, in milliseconds.
const PAUSE: u64 = 200;

/// Pauses until standard input ends.
#[derive(Drop)]
struct UntilEnd<R> {
    rt: R,
    ended: Arc<AtomicBool, Global>,
    passed: u64,
    over: bool,
}

impl<R: Clock> Pauses for UntilEnd<R> {
    ghost passed = { λ p. p.passed };

    ghost over = { λ p. p.over };

    fn pause(&mut self) -> bool {
        if self.ended.load(Ordering::SeqCst) {
            self.over = true;
            return false;
        }
        thread::sleep(&self.rt, Duration::from_millis(PAUSE));
        self.passed = self.passed.saturating_add(1);
        true
    }
}

/// Reads an input to its end, or until it fails, and tells so.
pub(crate) fn tell_end<I: Feed>(input: &mut I, ended: &AtomicBool) {
    let mut piece = [0u8; 256];
    for _ in 0..u64::MAX {
        match input.read(&mut piece) {
            Ok(0) | Err(_) => break,
            Ok(_) => {}
        }
    }
    ended.store(true, Ordering::SeqCst);
}

/// Follows files at a desk, where nothing of them is kept yet. The other desk is one over the same files.
pub fn watch_desks<D: Desk<Silent> + Drop, P: Pauses, O: Sink, E: Sink>(
    alloc: Global,
    words: &[String],
    desk: D,
    other: &mut D,
    pauses: &mut P,
    out: &mut O,
    err: &mut E,
) -> Status
    ensures { FollowsFresh (map string_bytes words.now)
        (pausing (P.passed pauses.old) (P.passed pauses.new) (P.over pauses.new))
        (output (O.written out.old) (O.written out.new) (O.faults out.old) (O.faults out.new))
        (output (E.written err.old) (E.written err.new) (E.faults err.old) (E.faults err.new)) result }
{
    let sightings = Sightings::new(alloc);
    let mut watch = Watch::new(alloc, DeskFiles::new(desk, &sightings), CommandWorker);
    watch_files(
        alloc, words, &mut watch, &sightings, other, pauses, out, err,
    )
}

/// Two desks over the system.
fn two_desks<'a, R: Copy>(
    rt: R,
    alloc: Global,
    folders: &'a Folders,
) -> Result<(SystemDesk<'a, R>, SystemDesk<'a, R>), AllocError> {
    let mut desks = make_desks(rt, alloc, folders)?;
    match (desks.pop(), desks.pop()) {
        (Some(desk), Some(other)) => Ok((desk, other)),
        _ => Err(AllocError),
    }
}

/// Follows files of the system, whose locations the words name, until another thread tells the end of standard input.
pub fn watch_system<R: Clock + Copy + Env + Files + Net + AllocGlobal, O: Sink, E: Sink>(
    rt: R,
    alloc: Global,
    words: &[String],
    ended: Arc<AtomicBool, Global>,
    out: &mut O,
    err: &mut E,
) -> Status
    ensures { FollowsSystem (map string_bytes words.now)
        (output (O.written out.old) (O.written out.new) (O.faults out.old) (O.faults out.new))
        (output (E.written err.old) (E.written err.new) (E.faults err.old) (E.faults err.new)) result }
{
    let Ok(folders) = Folders::read(&rt) else {
        return lack_memory(out, err);
    };
    match two_desks(rt, alloc, &folders) {
        Ok((desk, mut other)) => {
            let mut pauses = UntilEnd {
                rt,
                ended,
                passed: 0,
                over: false,
            };
            watch_desks(alloc, words, desk, &mut other, &mut pauses, out, err)
        }
        Err(AllocError) => lack_memory(out, err),
    }
}
