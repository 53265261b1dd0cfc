//! Files in memory.

ghost use Rattle.std.specs.Prelude.{◌≡◌, [], take, Some, IfOk, OnOk, OnErr};
ghost use Rattle.dh_syntax.specs.Expressions.SameTree.{loc_eq};
ghost use Rattle.dh_imports.specs.Records.{lookup};
ghost use Rattle.dh_watch_laws.specs.Contents.{most_fetched, IsEdited};
ghost use Rattle.dh_watch_files.specs.Contents.{got_of};
ghost use Rattle.dh_watch_files.specs.MemContents.{pairs_of};

use crate::files::Files;
use crate::ordered_locs::OrderedLoc;
use dh_ports::{CallList, DeskError, Found, Got};
use dh_syntax::{Bytes, Loc, MOST_BYTES};
use std::alloc::{AllocError, Global};
use std::collections::BTreeMap;

/// Files in memory, some of whose calls may be set to fail: their numbers, from 1, count all calls. What was put last counts.
pub struct MemFiles {
    alloc: Global,
    files: BTreeMap<OrderedLoc, Bytes>,
    fails: CallList,
    made: u64,
    asked: u64,
    failed: u64,
}

// Written by hand: a derived one puts the drop of each field inline wherever one may die.
impl Drop for MemFiles {
    fn drop(self) {
        let MemFiles {
            alloc: _,
            files: _,
            fails: _,
            made: _,
            asked: _,
            failed: _,
        } = self;
    }
}

impl MemFiles {
    ghost use Rattle.dh_watch_files.specs.MemContents.{now_of};

    /// No files; the calls fail that `fails` lists. It takes no memory.
    pub fn new(alloc: Global, fails: CallList) -> MemFiles
        ensures { now_of result ≡ [] }
    {
        MemFiles {
            alloc,
            files: BTreeMap::new(alloc),
            fails,
            made: 0,
            asked: 0,
            failed: 0,
        }
    }

    // Counts one more call, and tells whether it is to fail.
    fn next_fails(&mut self) -> bool
        ensures now { now_of self.new ≡ now_of self.old }
        ensures asked { self.new.asked ≡ self.old.asked }
        ensures failed { self.new.failed ≡ self.old.failed }
    {
        self.made = self.made.saturating_add(1);
        self.fails.as_slice().contains(&self.made)
    }
}

// The first bytes of a text, as many as are fetched.
fn first_bytes(alloc: Global, bytes: &[u8]) -> Result<Bytes, AllocError>
    ensures { IfOk result (λ b. b ≡ take most_fetched bytes.now) }
{
    let len = (MOST_BYTES + 1).min(bytes.len());
    let first = Vec::from_slice(alloc, &bytes[..len])?;
    Ok(Bytes::of(first))
}

// What is found at a location.
fn found_at(
    alloc: Global,
    files: &BTreeMap<OrderedLoc, Bytes>,
    loc: &Loc,
) -> Result<Got, AllocError>
    ensures { IfOk result (λ got. got ≡ got_of (lookup loc_eq (pairs_of files.now.entries) loc.now)) }
{
    let key = OrderedLoc::copied(alloc, loc)?;
    match files.get(&key) {
        None => Ok(Got::Absent),
        Some(bytes) => Ok(Got::Found(Found {
            bytes: first_bytes(alloc, bytes.as_slice())?,
            allow: None,
        })),
    }
}

// Puts bytes in the place of what is at a location, or takes out what is there.
fn edit(
    files: &mut BTreeMap<OrderedLoc, Bytes>,
    key: OrderedLoc,
    bytes: Option<Bytes>,
) -> Result<(), AllocError>
    ensures edited { OnOk result (IsEdited (pairs_of files.old.entries) key.loc bytes (pairs_of files.new.entries)) }
    ensures same { OnErr result (files.new.entries ≡ files.old.entries) }
{
    match bytes {
        None => {
            let _before = files.remove(&key);
        }
        Some(bytes) => {
            let _before = files.insert(key, bytes)?;
        }
    }
    Ok(())
}

impl Files for MemFiles {
    ghost use Rattle.dh_watch_files.specs.MemContents.{now_of};

    ghost now = { λ m. Some (now_of m) };

    ghost asked = { λ m. m.asked };

    ghost faults = { λ m. m.failed };

    /// Fails exactly where the number of this call is listed.
    fn fetch(&mut self, alloc: Global, loc: &Loc) -> Result<Got, DeskError> {
        self.asked = self.asked.saturating_add(1);
        if self.next_fails() {
            self.failed = self.failed.saturating_add(1);
            return Err(DeskError::Failed);
        }
        let got = found_at(alloc, &self.files, loc)?;
        Ok(got)
    }

    /// Fails exactly where the number of this call is listed.
    fn put(&mut self, loc: &Loc, bytes: Option<Bytes>) -> Result<(), DeskError> {
        if self.next_fails() {
            self.failed = self.failed.saturating_add(1);
            return Err(DeskError::Failed);
        }
        let key = OrderedLoc::copied(self.alloc, loc)?;
        edit(&mut self.files, key, bytes)?;
        Ok(())
    }
}
