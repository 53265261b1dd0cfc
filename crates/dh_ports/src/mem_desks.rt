//! A desk in memory.

ghost use Rattle.std.specs.Prelude.{◌≡◌, ◌≤◌, ◌++◌, [], ◌∷◌, ◌↔◌, Some, All, Contains, length, find, option_map, IsTrue, IfOk, IfErr, IfSome, IsErr, OnOk, OnErr};
ghost use Rattle.std.specs.Option.{option_copied};
ghost use Rattle.dh_syntax.specs.Expressions.SameTree.{loc_eq, digest_eq};
ghost use Rattle.dh_syntax.specs.Limits.{most_entry_bytes};
ghost use Rattle.dh_ports.specs.Counts.{one_more, Rose};
ghost use Rattle.std.specs.Coded.{codes};
ghost use Rattle.dh_ports.specs.Desks.{IsShort, Tells, shown};
ghost use Rattle.dh_ports.specs.MemDesk.{listed, listed_entry, pairs_of, AreTold, AreShelved};
ghost use Rattle.dh_ports.specs.contracts.worlds.Got as rows;

use crate::calls::{CallList, Calls};
use crate::desks::{Desk, DeskError};
use crate::worlds::{Found, Got, Silent, World};
use dh_syntax::{Bytes, Digest, Loc, MOST_BYTES, MOST_ENTRY_BYTES, Many};
use dh_terms::is_same_loc;
use std::alloc::{AllocError, Global};
use std::marker::PhantomData;

/// What is found at a location.
#[derive(Debug, Drop)]
pub struct Content {
    pub loc: Loc,
    pub got: Got,
}

/// What is found at locations; nothing is found at one that is not listed, and of two contents of one location the first
/// counts.
pub type Contents = Many<Content>;

/// An entry of the cache.
#[derive(Debug, Drop)]
pub struct CacheEntry {
    pub digest: Digest,
    pub bytes: Bytes,
}

/// Entries of the cache, of which the first of two of one digest counts.
pub type Cache = Many<CacheEntry>;

/// The numbers, from 1, of the calls that fail, a list for each kind of call.
#[derive(Debug, Drop)]
pub struct DeskFails {
    pub fetch: CallList,
    pub look: CallList,
    pub keep: CallList,
}

impl Found {
    fn copied(&self, alloc: Global) -> Result<Found, AllocError>
        ensures { IfOk result (λ c. c ≡ self.now) }
    {
        let bytes = self.bytes.copied(alloc)?;
        let allow = match &self.allow {
            Some(origin) => Some(origin.copied(alloc)?),
            None => None,
        };
        Ok(Found { bytes, allow })
    }
}

impl Got {
    /// An equal answer.
    pub fn copied(&self, alloc: Global) -> Result<Got, AllocError>
        ensures { IfOk result (λ c. c ≡ self.now) }
    {
        match self {
            Got::Found(found) => Ok(Got::Found(found.copied(alloc)?)),
            Got::Absent => Ok(Got::Absent),
            Got::Broken(status) => Ok(Got::Broken(*status)),
        }
    }
}

/// A desk over lists in memory, some of whose calls may be set to fail. What it keeps goes into a list of its own, which no
/// look reads. Its world may tell what is listed, or nothing: its own clauses say what it answers.
pub struct MemDesk<W: World = Silent> {
    alloc: Global,
    contents: Contents,
    cache: Cache,
    kept: Cache,
    fetches: Calls,
    looks: Calls,
    keeps: Calls,
    asked: u64,
    failed: u64,
    world: PhantomData<W>,
    ghost short: { All (λ c. IsShort c.got) contents },
    ghost told: { AreTold W.told contents } by { Prim.hlevel (codes, rows.the_row.coded) },
    ghost shelved: { AreShelved W.shelved cache },
}

// Written by hand: a derived one puts the drop of each field inline wherever one may die.
impl<W: World> Drop for MemDesk<W> {
    fn drop(self) {
        let MemDesk {
            alloc: _,
            contents: _,
            cache: _,
            kept: _,
            fetches: _,
            looks: _,
            keeps: _,
            asked: _,
            failed: _,
            world: _,
        } = self;
    }
}

/// Whether no more bytes are found than one more than a text may have.
fn is_short(got: &Got) -> bool
    ensures { IsTrue result ↔ IsShort got.now }
{
    match got {
        Got::Found(found) => found.bytes.as_slice().len() <= MOST_BYTES + 1,
        Got::Absent => true,
        Got::Broken(_) => true,
    }
}

/// Whether no more bytes are found anywhere than one more than a text may have: the condition of `MemDesk::new`.
pub fn are_short(contents: &Contents) -> bool
    ensures { IsTrue result ↔ All (λ c. IsShort c.got) contents.now }
{
    contents
        .as_slice()
        .iter()
        .all(|content| is_short(&content.got))
}

/// The first content of a location.
fn content_at<'a>(contents: &'a [Content], loc: &Loc) -> Option<&'a Content>
    ensures { option_copied result ≡ find (λ c. loc_eq loc.now c.loc) contents.now }
{
    contents
        .iter()
        .find(|content| is_same_loc(loc, &content.loc))
}

/// What is found at a location.
fn found_at(alloc: Global, contents: &[Content], loc: &Loc) -> Result<Got, AllocError>
    requires { All (λ c. IsShort c.got) contents.now }
    ensures found { IfOk result (λ got. got ≡ listed contents.now loc.now) }
    ensures short { IfOk result IsShort }
{
    match content_at(contents, loc) {
        Some(content) => content.got.copied(alloc),
        None => Ok(Got::Absent),
    }
}

fn is_same_digest(d: &Digest, e: &Digest) -> bool
    ensures { result ≡ digest_eq d.now e.now }
{
    d.0 == e.0
}

/// The first entry of a digest.
fn entry_at<'a>(entries: &'a [CacheEntry], d: &Digest) -> Option<&'a CacheEntry>
    ensures { option_copied result ≡ find (λ e. digest_eq d.now e.digest) entries.now }
{
    entries
        .iter()
        .find(|entry| is_same_digest(d, &entry.digest))
}

/// The bytes of a digest, if they are not too many.
fn bytes_at(alloc: Global, entries: &[CacheEntry], d: &Digest) -> Result<Option<Bytes>, AllocError>
    ensures found { IfOk result (λ o. o ≡ listed_entry entries.now d.now) }
    ensures small { IfOk result (λ o. IfSome o (λ bytes. length bytes ≤ most_entry_bytes)) }
{
    match entry_at(entries, d) {
        Some(entry) if entry.bytes.as_slice().len() <= MOST_ENTRY_BYTES => {
            Ok(Some(entry.bytes.copied(alloc)?))
        }
        Some(_) => Ok(None),
        None => Ok(None),
    }
}

impl MemDesk<Silent> {
    ghost use Rattle.dh_ports.specs.MemDeskViews.{contents_of, cache_of, kept_of};

    /// A desk over these lists, whose calls fail that `fails` lists, in a world that tells nothing. It takes no memory.
    pub fn new(alloc: Global, contents: Contents, cache: Cache, fails: DeskFails) -> MemDesk<Silent>
        requires { All (λ c. IsShort c.got) contents }
        ensures contents { contents_of result ≡ contents }
        ensures cache { cache_of result ≡ cache }
        ensures kept { kept_of result ≡ [] }
    {
        MemDesk::<Silent>::over(alloc, contents, cache, fails)
    }
}

impl<W: World> MemDesk<W> {
    ghost use Rattle.dh_ports.specs.MemDeskViews.{contents_of, cache_of, kept_of};

    /// A desk over these lists, whose calls fail that `fails` lists, in a world that tells, where it tells, what the lists have. It takes
    /// no memory.
    pub fn over(alloc: Global, contents: Contents, cache: Cache, fails: DeskFails) -> MemDesk<W>
        requires short { All (λ c. IsShort c.got) contents }
        requires told { AreTold W.told contents }
        requires shelved { AreShelved W.shelved cache }
        ensures contents { contents_of result ≡ contents }
        ensures cache { cache_of result ≡ cache }
        ensures kept { kept_of result ≡ [] }
    {
        let DeskFails { fetch, look, keep } = fails;
        MemDesk {
            alloc,
            contents,
            cache,
            kept: Many::new(alloc),
            fetches: Calls::new(fetch),
            looks: Calls::new(look),
            keeps: Calls::new(keep),
            asked: 0,
            failed: 0,
            world: PhantomData,
        }
    }

    /// What was kept so far.
    pub fn kept(&self) -> &Cache
        ensures { result.now ≡ kept_of self.now }
    {
        &self.kept
    }

    /// How many texts were asked for. It stands still at `u64::MAX`.
    pub fn asked_count(&self) -> u64
        ensures { result ≡ self.now.asked }
    {
        self.asked
    }

    /// How many calls have failed. It stands still at `u64::MAX`.
    pub fn fault_count(&self) -> u64
        ensures { result ≡ self.now.failed }
    {
        self.failed
    }
}

impl<W: World> Desk<W> for MemDesk<W> {
    ghost use Rattle.dh_ports.specs.MemDeskViews.{contents_of, cache_of, kept_of, fetches_of, looks_of, keeps_of, IsDue, SameOutside};

    ghost faults = { λ d. d.failed };

    ghost asked = { λ d. d.asked };

    ghost filed = { λ d. Some (pairs_of (kept_of d)) };

    /// Fails exactly where the number of this call is listed, and else answers what is listed for the location.
    fn fetch(&mut self, alloc: Global, loc: &Loc) -> Result<Got, DeskError>
        ensures fails { (result ≡ Err DeskError.Failed) ↔ IsDue (fetches_of self.old) }
        ensures found { IfOk result (λ got. got ≡ listed (contents_of self.old) loc.now) }
        ensures told { IfOk result (λ got. Tells (W.told loc.now) got) }
        ensures outside { SameOutside self.old self.new }
        ensures short { IfOk result IsShort }
        ensures filed { kept_of self.new ≡ kept_of self.old }
        ensures asked { self.new.asked ≡ one_more self.old.asked }
        ensures counted { self.old.failed ≤ self.new.failed }
        ensures quiet { OnOk result (self.new.failed ≡ self.old.failed) }
        ensures failed { IfErr result (λ e. e ≡ DeskError.Failed → Rose self.old.failed self.new.failed) }
    {
        self.asked = self.asked.saturating_add(1);
        if self.fetches.next_fails() {
            self.failed = self.failed.saturating_add(1);
            return Err(DeskError::Failed);
        }
        let got = found_at(alloc, self.contents.as_slice(), loc)?;
        Ok(got)
    }

    /// Fails exactly where the number of this call is listed, and else answers what is listed for the digest.
    fn look(&mut self, alloc: Global, d: &Digest) -> Result<Option<Bytes>, DeskError>
        ensures fails { (result ≡ Err DeskError.Failed) ↔ IsDue (looks_of self.old) }
        ensures found { IfOk result (λ entry. entry ≡ listed_entry (cache_of self.old) d.now) }
        ensures told { IfOk result (λ entry. Tells (option_map shown (W.shelved d.now)) entry) }
        ensures outside { SameOutside self.old self.new }
        ensures small { IfOk result (λ entry. IfSome entry (λ bytes. length bytes ≤ most_entry_bytes)) }
        ensures filed { kept_of self.new ≡ kept_of self.old }
        ensures asked { self.new.asked ≡ self.old.asked }
        ensures counted { self.old.failed ≤ self.new.failed }
        ensures quiet { OnOk result (self.new.failed ≡ self.old.failed) }
        ensures failed { IfErr result (λ e. e ≡ DeskError.Failed → Rose self.old.failed self.new.failed) }
    {
        if self.looks.next_fails() {
            self.failed = self.failed.saturating_add(1);
            return Err(DeskError::Failed);
        }
        let entry = bytes_at(alloc, self.cache.as_slice(), d)?;
        Ok(entry)
    }

    /// Fails where the number of this call is listed, and else adds the entry to what was kept.
    fn keep(&mut self, d: &Digest, bytes: &[u8]) -> Result<(), DeskError>
        ensures fails { (result ≡ Err DeskError.Failed) ↔ IsDue (keeps_of self.old) }
        ensures kept { OnOk result (kept_of self.new ≡ kept_of self.old ++ record { digest = d.now; bytes = bytes.now } ∷ []) }
        ensures not_kept { OnErr result (kept_of self.new ≡ kept_of self.old) }
        ensures outside { SameOutside self.old self.new }
        ensures asked { self.new.asked ≡ self.old.asked }
        ensures counted { self.old.failed ≤ self.new.failed }
        ensures quiet { OnOk result (self.new.failed ≡ self.old.failed) }
        ensures failed { IfErr result (λ e. e ≡ DeskError.Failed → Rose self.old.failed self.new.failed) }
    {
        if self.keeps.next_fails() {
            self.failed = self.failed.saturating_add(1);
            return Err(DeskError::Failed);
        }
        let bytes = Bytes::of(Vec::from_slice(self.alloc, bytes)?);
        self.kept.push(CacheEntry { digest: *d, bytes })?;
        Ok(())
    }
}

#[cfg(test)]
mod tests {
    use super::*;
    use dh_syntax::Piece;
    use std::test::Fail;

    fn fetch<D: Desk<Silent>>(desk: &mut D, alloc: Global, loc: &Loc) -> Result<Got, DeskError> {
        desk.fetch(alloc, loc)
    }

    fn here(alloc: Global, name: &str) -> Result<Loc, AllocError> {
        let comps = Vec::from_array(alloc, [Piece::new(alloc, name)?])?;
        Ok(Loc::Here(Many::of(comps)))
    }

    /// What a fetch answered, in one word.
    fn word(answer: &Result<Got, DeskError>) -> &'static str {
        match answer {
            Ok(Got::Found(found)) if found.bytes.as_slice() == b"1".as_slice() => "one",
            Ok(Got::Found(_)) => "other",
            Ok(Got::Absent) => "absent",
            Ok(Got::Broken(_)) => "broken",
            Err(DeskError::Failed) => "failed",
            Err(DeskError::Memory) => "memory",
        }
    }

    /// A desk where `./a` is the text `1`, and two bytes are the entry of a digest of ones. Its second fetch fails.
    fn desk(alloc: Global) -> Result<Option<MemDesk>, AllocError> {
        let found = Found {
            bytes: Bytes::of([b'1'].to_vec(alloc)?),
            allow: None,
        };
        let content = Content {
            loc: here(alloc, "a")?,
            got: Got::Found(found),
        };
        let entry = CacheEntry {
            digest: Digest([1; 32]),
            bytes: Bytes::of([8, 9].to_vec(alloc)?),
        };
        let contents = Many::of(Vec::from_array(alloc, [content])?);
        let cache = Many::of(Vec::from_array(alloc, [entry])?);
        let fails = DeskFails {
            fetch: Many::of([2].to_vec(alloc)?),
            look: Many::new(alloc),
            keep: Many::new(alloc),
        };
        if are_short(&contents) {
            return Ok(Some(MemDesk::new(alloc, contents, cache, fails)));
        }
        Ok(None)
    }

    #[test]
    fn finds_what_is_listed(rt: HostRuntime) -> Result<(), Fail> {
        let alloc = rt.alloc();
        let mut desk = desk(alloc)?.ok_or("too long")?;
        for (name, wanted) in [("a", "one"), ("a", "failed"), ("b", "absent"), ("a", "one")] {
            let answer = fetch(&mut desk, alloc, &here(alloc, name)?);
            assert_eq!(rt; word(&answer), wanted);
        }
        assert_eq!(rt; desk.asked_count(), 4);
        assert_eq!(rt; desk.fault_count(), 1);
        Ok(())
    }

    #[test]
    fn looks_and_keeps_apart(rt: HostRuntime) -> Result<(), Fail> {
        let alloc = rt.alloc();
        let mut desk = desk(alloc)?.ok_or("too long")?;
        match desk.look(alloc, &Digest([1; 32])) {
            Ok(Some(bytes)) => assert_eq!(rt; bytes.as_slice(), [8, 9].as_slice()),
            _ => return Err(Fail::from("no entry")),
        }
        assert_eq!(rt; desk.keep(&Digest([2; 32]), &[7]), Ok(()));
        assert_eq!(rt; desk.kept().len(), 1);
        match desk.look(alloc, &Digest([2; 32])) {
            Ok(None) => {}
            _ => return Err(Fail::from("an entry")),
        }
        assert_eq!(rt; desk.asked_count(), 0);
        Ok(())
    }
}
