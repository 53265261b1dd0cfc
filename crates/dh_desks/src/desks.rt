//! The desk over the system.

ghost use Rattle.std.specs.Prelude.{◌≡◌, ◌≢◌, ◌≤◌, length, None, Err, IfOk, IfErr, IfSome, OnOk, OnErr, vec_len, IsErr};
ghost use Rattle.dh_syntax.specs.Limits.{most_entry_bytes, most_workers};
ghost use Rattle.dh_ports.specs.Counts.{Rose};
ghost use Rattle.dh_ports.specs.Desks.{IsShort};
ghost use Rattle.dh_desks.specs.Answers.{AnswersOnly, DecidedBy};
ghost use Rattle.dh_desks.specs.Places.{place};

use crate::entries::{read_entry, write_entry};
use crate::folders::{Folder, Folders};
use crate::places::{Source, entry_file, place_of};
use crate::reading::{file_text, variable_text};
use dh_ports::{Desk, DeskError, Got, Silent};
use dh_syntax::{Bytes, Digest, Loc, MOST_WORKERS};
use dh_web::web_text;
use std::alloc::{AllocError, Global};
use std::env::Env;
use std::net::Net;
use std::rt::Files;

/// A desk over files, the environment, plain HTTP and the folder of the cache. It tells nothing of the outside.
#[derive(Drop)]
pub struct SystemDesk<'a, R> {
    rt: R,
    alloc: Global,
    folders: &'a Folders,
    asked: u64,
    failed: u64,
}

impl<'a, R> SystemDesk<'a, R> {
    /// A desk that was asked for nothing yet.
    pub(crate) fn new(rt: R, alloc: Global, folders: &'a Folders) -> SystemDesk<'a, R>
        ensures asked { result.asked ≡ 0 }
        ensures failed { result.failed ≡ 0 }
    {
        SystemDesk {
            rt,
            alloc,
            folders,
            asked: 0,
            failed: 0,
        }
    }

    /// How many texts were asked for. It stands still at `u64::MAX`.
    pub fn asked_count(&self) -> u64
        ensures { result ≡ self.now.asked }
    {
        self.asked
    }

    /// How many calls have failed. It stands still at `u64::MAX`.
    pub fn fault_count(&self) -> u64
        ensures { result ≡ self.now.failed }
    {
        self.failed
    }

    /// Counts a call that failed.
    fn count<T>(&mut self, answer: &Result<T, DeskError>)
        ensures asked { self.new.asked ≡ self.old.asked }
        ensures counted { self.old.failed ≤ self.new.failed }
        ensures quiet { OnOk answer.now (self.new.failed ≡ self.old.failed) }
        ensures failed { IfErr answer.now (λ e. e ≡ DeskError.Failed → Rose self.old.failed self.new.failed) }
    {
        if matches!(answer, Err(DeskError::Failed)) {
            self.failed = self.failed.saturating_add(1);
        }
    }
}

/// As many desks over one system as `n` says.
pub(crate) fn some_desks<'a, R: Copy>(
    rt: R,
    alloc: Global,
    folders: &'a Folders,
    n: usize,
) -> Result<Vec<SystemDesk<'a, R>>, AllocError>
    ensures { IfOk result (λ desks. vec_len desks ≡ n) }
{
    let mut desks = Vec::new(alloc);
    for _ in 0..n {
        desks.push(SystemDesk::new(rt, alloc, folders))?;
    }
    Ok(desks)
}

/// Desks over one system: one for each worker that a run may have.
pub fn make_desks<'a, R: Copy>(
    rt: R,
    alloc: Global,
    folders: &'a Folders,
) -> Result<Vec<SystemDesk<'a, R>>, AllocError>
    ensures { IfOk result (λ desks. vec_len desks ≡ most_workers) }
{
    some_desks(rt, alloc, folders, MOST_WORKERS as usize)
}

/// What is found at a location.
fn found_at<R: Files + Env + Net>(
    rt: &R,
    alloc: Global,
    home: &Folder,
    loc: &Loc,
) -> Result<Got, DeskError>
    ensures short { IfOk result IsShort }
    ensures decided { DecidedBy (place home.now loc.now) result }
{
    match place_of(alloc, home, loc)? {
        Source::File(path) => file_text(rt, alloc, path.as_str()),
        Source::Variable(name) => variable_text(rt, alloc, name.as_str()),
        Source::Nowhere => Ok(Got::Absent),
        Source::Web(url) => web_text(rt, alloc, &url),
        Source::Barred => Ok(Got::Broken(0)),
        Source::Untold => Err(DeskError::Failed),
    }
}

/// The entry of a digest. Without a folder there is none.
fn entry_at<R: Files>(
    rt: &R,
    alloc: Global,
    cache: &Folder,
    d: &Digest,
) -> Result<Option<Bytes>, DeskError>
    ensures small { IfOk result (λ entry. IfSome entry (λ bytes. length bytes ≤ most_entry_bytes)) }
    ensures unset { cache.now ≡ Folder.Unset → AnswersOnly result None }
    ensures untold { cache.now ≡ Folder.Untold → IsErr result }
{
    match entry_file(alloc, cache, d)? {
        Folder::At(path) => read_entry(rt, alloc, path.as_str()),
        Folder::Unset => Ok(None),
        Folder::Untold => Err(DeskError::Failed),
    }
}

/// Keeps the entry of a digest. Without a folder it fails.
fn keep_at<R: Files>(
    rt: &R,
    alloc: Global,
    cache: &Folder,
    d: &Digest,
    bytes: &[u8],
) -> Result<(), DeskError>
    ensures unset { cache.now ≡ Folder.Unset → IsErr result }
    ensures untold { cache.now ≡ Folder.Untold → IsErr result }
{
    match (cache, entry_file(alloc, cache, d)?) {
        (Folder::At(folder), Folder::At(path)) => {
            write_entry(rt, alloc, folder.as_str(), path.as_str(), bytes)
        }
        _ => Err(DeskError::Failed),
    }
}

impl<R: Files + Env + Net> Desk<Silent> for SystemDesk<'_, R> {
    ghost faults = { λ d. d.failed };

    ghost asked = { λ d. d.asked };

    fn fetch(&mut self, alloc: Global, loc: &Loc) -> Result<Got, DeskError> {
        self.asked = self.asked.saturating_add(1);
        let answer = found_at(&self.rt, alloc, &self.folders.home, loc);
        self.count(&answer);
        answer
    }

    fn look(&mut self, alloc: Global, d: &Digest) -> Result<Option<Bytes>, DeskError> {
        let answer = entry_at(&self.rt, alloc, &self.folders.cache, d);
        self.count(&answer);
        answer
    }

    fn keep(&mut self, d: &Digest, bytes: &[u8]) -> Result<(), DeskError> {
        let answer = keep_at(&self.rt, self.alloc, &self.folders.cache, d, bytes);
        self.count(&answer);
        answer
    }
}
