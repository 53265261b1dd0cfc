//! The `dhall_watch` program: it follows a script of edits and asks, which it reads from standard input, over files in memory. Or it
//! follows files of the system, until standard input ends.
//!
//! ```text
//! printf 'set ./a 31\nask ./a\n' | dhall_watch
//! dhall_watch --files ./a.dhall ./b.dhall
//! ```
#![tactic(auto)]

mod system;

ghost use Rattle.std.specs.Prelude.{map, string_bytes};
ghost use Rattle.dh_streams.specs.Streams.{output, reading};
ghost use Rattle.dhall_watch.specs.FreshRuns.{RunsFresh};

use crate::system::{tell_end, watch_system};
use dh_command::Status;
use dh_ports::{CallList, Feed, Sink};
use dh_streams::{Source, Target, lack_memory};
use dh_watch_asks::Watch;
use dh_watch_files::MemFiles;
use dh_watch_work::CommandWorker;
use dh_watching::{run_watch, told_words};
use std::alloc::{AllocError, Global};
use std::process::ExitCode;
use std::sync::Arc;
use std::sync::atomic::AtomicBool;
use std::thread::Threads;
use std::{env, thread};

/// Follows a script over files in memory, of which there are none at first.
pub fn watch_script<I: Feed, O: Sink, E: Sink>(
    alloc: Global,
    words: &[String],
    input: &mut I,
    out: &mut O,
    err: &mut E,
) -> Status
    ensures { RunsFresh (map string_bytes words.now)
        (reading (I.left input.old) (I.left input.new) (I.faults input.old) (I.faults input.new))
        (output (O.written out.old) (O.written out.new) (O.faults out.old) (O.faults out.new))
        (output (E.written err.old) (E.written err.new) (E.faults err.old) (E.faults err.new)) result }
{
    let files = MemFiles::new(alloc, CallList::new(alloc));
    let mut watch = Watch::new(alloc, files, CommandWorker);
    run_watch(alloc, words, &mut watch, input, out, err)
}

/// Whether files of the system are to be followed.
fn is_of_system(words: &[String]) -> bool {
    match words.first() {
        Some(word) => word.as_str() == "--files",
        None => false,
    }
}

/// Whether standard input has ended, for the thread that reads it and for the one that asks.
fn shared_flag(
    alloc: Global,
) -> Result<(Arc<AtomicBool, Global>, Arc<AtomicBool, Global>), AllocError> {
    let ended = Arc::new(alloc, AtomicBool::new(false))?;
    let theirs = Arc::try_clone(&ended)?;
    Ok((ended, theirs))
}

/// Follows files of the system, while a thread of its own reads standard input to its end.
fn follow_system<T: Threads, O: Sink, E: Sink>(
    rt: HostRuntime,
    threads: &T,
    words: &[String],
    out: &mut O,
    err: &mut E,
) -> Result<Status, AllocError> {
    let alloc = rt.alloc();
    let (ended, theirs) = shared_flag(alloc)?;
    let Ok(_reader) = thread::spawn(threads, move || {
        let mut input = Source::new(rt.reader());
        tell_end(&mut input, &theirs)
    }) else {
        return Err(AllocError);
    };
    Ok(watch_system(rt, alloc, words, ended, out, err))
}

/// Runs the program on the words that it was called with. Its only fault is want of memory before the run begins.
fn run<T: Threads, O: Sink, E: Sink>(
    rt: HostRuntime,
    threads: &T,
    out: &mut O,
    err: &mut E,
) -> Result<Status, AllocError> {
    let alloc = rt.alloc();
    let words = told_words(alloc, env::args(&rt))?;
    if is_of_system(words.as_slice()) {
        return follow_system(rt, threads, words.as_slice(), out, err);
    }
    let mut input = Source::new(rt.stdin());
    Ok(watch_script(alloc, words.as_slice(), &mut input, out, err))
}

fn main(rt: HostRuntime) -> ExitCode {
    let mut out = Target::new(rt.stdout());
    let mut err = Target::new(rt.stderr());
    let status = match run(rt, &rt, &mut out, &mut err) {
        Ok(status) => status,
        Err(AllocError) => lack_memory(&mut out, &mut err),
    };
    ExitCode::from(status.code())
}
