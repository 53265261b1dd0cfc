//! Runs of the command over what a case says.

use crate::desks::{bytes_of, calls_of, desks_of};
use dh_cases::{CannotRun, Case, Entry, Ran, Row};
use dh_ports::{MemDesk, MemFeed, MemSink, OpenGate, Silent};
use dh_top::run_dhall;
use std::alloc::{AllocError, Global};
use std::sync::Wait;
use std::thread::Threads;

/// How many texts these desks were asked for.
fn asked_of(desks: &[MemDesk]) -> u64 {
    let mut asked = 0_u64;
    for desk in desks {
        asked = asked.saturating_add(desk.asked_count());
    }
    asked
}

/// Adds the entries that a desk has kept.
fn add_kept(alloc: Global, kept: &mut Vec<Entry>, desk: &MemDesk) -> Result<(), AllocError> {
    for entry in desk.kept().as_slice() {
        let bytes = Vec::from_slice(alloc, entry.bytes.as_slice())?;
        let digest = entry.digest.0;
        kept.push(Entry { digest, bytes })?;
    }
    Ok(())
}

/// The entries that these desks have kept.
fn kept_by(alloc: Global, desks: &[MemDesk]) -> Result<Vec<Entry>, AllocError> {
    let mut kept = Vec::new(alloc);
    for desk in desks {
        add_kept(alloc, &mut kept, desk)?;
    }
    Ok(kept)
}

/// Standard input of these bytes, which gives them as a case says.
fn feed_of(alloc: Global, case: &Case, input: &[u8]) -> Result<MemFeed, AllocError> {
    let bytes = bytes_of(alloc, input)?;
    let fails = calls_of(alloc, &case.failing.read)?;
    if case.narrow.read {
        return Ok(MemFeed::narrow(alloc, bytes, fails));
    }
    Ok(MemFeed::new(alloc, bytes, fails))
}

/// An output, narrow or not, of which these calls fail.
fn sink_of(alloc: Global, narrow: bool, fails: &Vec<u64>) -> Result<MemSink, AllocError> {
    let fails = calls_of(alloc, fails)?;
    if narrow {
        return Ok(MemSink::narrow(alloc, fails));
    }
    Ok(MemSink::new(alloc, fails))
}

/// Runs one command on an input, over what a case says is outside.
fn run_command<R: Threads + Wait + Sync>(
    rt: &R,
    alloc: Global,
    case: &Case,
    words: &[String],
    input: &[u8],
) -> Result<Ran, CannotRun> {
    let mut desks = desks_of(alloc, case)?;
    if desks.is_empty() {
        return Err(CannotRun::NoDesk);
    }
    let mut feed = feed_of(alloc, case, input)?;
    let mut out = sink_of(alloc, case.narrow.out, &case.failing.out)?;
    let mut err = sink_of(alloc, case.narrow.err, &case.failing.err)?;
    let status = run_dhall::<R, Silent, MemDesk, MemFeed, MemSink, MemSink, OpenGate>(
        rt, alloc, words, &mut desks, &mut feed, &mut out, &mut err, &OpenGate,
    );
    Ok(Ran {
        out: Vec::from_slice(alloc, out.written_bytes())?,
        err: Vec::from_slice(alloc, err.written_bytes())?,
        status: status.code(),
        asked: asked_of(desks.as_slice()),
        kept: kept_by(alloc, desks.as_slice())?,
    })
}

/// Runs a command of a case on a row, and then the commands that follow, each on what the one before wrote. The first that does not end
/// with the status 0 is the last one.
pub(crate) fn run_row<R: Threads + Wait + Sync>(
    rt: &R,
    alloc: Global,
    case: &Case,
    words: &[String],
    row: &Row,
) -> Result<Ran, CannotRun> {
    let mut ran = run_command(rt, alloc, case, words, row.input.as_slice())?;
    for words in &case.then {
        if ran.status != 0 {
            break;
        }
        ran = run_command(rt, alloc, case, words.as_slice(), ran.out.as_slice())?;
    }
    Ok(ran)
}
