//! One slot of a shelf: it is set once, and takes no lock.

ghost use Rattle.std.specs.Prelude.{◌≡◌, ◌≤◌, None, IfSome, length, option_map};
ghost use Rattle.once_cell.specs.Once.{cell_name};
ghost use Rattle.dh_syntax.specs.Expressions.SameTree.{digest_eq};
ghost use Rattle.dh_shelf.specs.Inside.{IsCompared, IsOffered};
ghost use Rattle.dh_shelf.specs.Shelves.{Agree, IsToldEntry, Stays, most_shelved_bytes};

use crate::held::Held;
use dh_ports::World;
use dh_record::Entry;
use dh_syntax::Digest;
use once_cell::race::{Note, OnceBox};
use std::alloc::Global;

/// How many slots a shelf has.
pub(crate) const SLOT_COUNT: usize = 4096;

/// What comes of offering an entry to one slot.
#[derive(Drop)]
pub(crate) enum Offered {
    /// The slot took it.
    Took,
    /// The slot holds an entry of its digest.
    There,
    /// The slot holds an entry of another digest.
    Other(Entry),
    /// Memory is wanting.
    Memory(Entry),
}

/// The entry that a slot holds, if it gives one.
pub(crate) fn read<'a, W: World>(
    slot: &'a OnceBox<Held<W>>,
    note: &mut Note<Held<W>>,
) -> Option<&'a Entry>
    requires { note.old.cell ≡ cell_name slot.now }
    ensures cell { note.new.cell ≡ note.old.cell }
    ensures known { note.new.known ≡ option_map (λ e. e.now) result }
    ensures stays { Stays note.old.known note.new.known }
    ensures small { IfSome result (λ e. length e.now.bytes ≤ most_shelved_bytes) }
    ensures told { IfSome result (λ e. IsToldEntry W.shelved e.now) }
{
    match slot.get_as(note) {
        Some(held) => Some(held.entry()),
        None => None,
    }
}

/// Whether two digests are the same.
pub(crate) fn is_same_digest(d: &Digest, e: &Digest) -> bool
    ensures { result ≡ digest_eq d.now e.now }
{
    d.0 == e.0
}

/// Compares an entry with the one that its slot holds.
fn compared(mine: Entry, theirs: &Entry) -> Offered
    ensures { IsCompared mine theirs.now result }
{
    if is_same_digest(&theirs.digest(), &mine.digest()) {
        Offered::There
    } else {
        Offered::Other(mine)
    }
}

#[tactic(auto, using(crate::proofs::Showing::compared_offered))]
/// Sets a slot that gave no value. One that was set meanwhile gives its value.
fn fill<W: World>(slot: &OnceBox<Held<W>>, note: &mut Note<Held<W>>, held: Box<Held<W>>) -> Offered
    requires cell { note.old.cell ≡ cell_name slot.now }
    requires unseen { note.old.known ≡ None }
    ensures cell { note.new.cell ≡ note.old.cell }
    ensures value { IsOffered held.value note.old.known note.new.known result }
{
    match slot.set_as(held, note) {
        Ok(()) => Offered::Took,
        Err(back) => match read(slot, note) {
            Some(theirs) => compared(Box::into_inner(back).into_entry(), theirs),
            None => unreachable!(),
        },
    }
}

#[tactic(auto, using(crate::proofs::Showing::compared_offered))]
/// Offers an entry to a slot.
pub(crate) fn offer<W: World>(
    alloc: Global,
    slot: &OnceBox<Held<W>>,
    note: &mut Note<Held<W>>,
    entry: Entry,
) -> Offered
    requires cell { note.old.cell ≡ cell_name slot.now }
    requires small { length entry.bytes ≤ most_shelved_bytes }
    requires told { IsToldEntry W.shelved entry }
    ensures cell { note.new.cell ≡ note.old.cell }
    ensures stays { Stays note.old.known note.new.known }
    ensures value { IsOffered entry note.old.known note.new.known result }
{
    match read(slot, note) {
        Some(theirs) => compared(entry, theirs),
        None => match Box::new(alloc, Held::of(entry)) {
            Ok(held) => fill(slot, note, held),
            Err(failed) => Offered::Memory(failed.value.into_entry()),
        },
    }
}

/// Two notes of one slot have seen the same, where both have seen a value.
#[tactic(auto, using(crate::proofs::Showing::both_agree))]
pub(crate) fn compare<W: World>(mine: &mut Note<Held<W>>, theirs: &mut Note<Held<W>>)
    requires { theirs.old.cell ≡ mine.old.cell }
    ensures same { (mine.new ≡ mine.old) × (theirs.new ≡ theirs.old) }
    ensures agree { Agree mine.old.known theirs.old.known }
{
    mine.compare(theirs.again());
}
