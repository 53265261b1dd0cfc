//! The shelf: a table of slots, each set at most once, that are probed in turn from the first two bytes of a digest on.

ghost use Rattle.std.specs.Prelude.{◌≡◌, ◌⊎◌, ◌<◌, ◌≤◌, None, Some, IfOk, IfSome, IsNone, length, option_map, replicate};
ghost use Rattle.dh_record.specs.Entries.{EntryParts};
ghost use Rattle.dh_shelf.specs.Inside.{IsOffered};
ghost use Rattle.dh_shelf.specs.Puts.{IsPut};
ghost use Rattle.dh_shelf.specs.Shelves.{Grows, HasGap, IsFull, IsToldEntry, finds, most_probes, most_shelved_bytes, seen_at, slot_count, slot_of};

use crate::held::Held;
use crate::passes::Pass;
use crate::slots::{Offered, SLOT_COUNT, is_same_digest, offer, read};
use dh_ports::World;
use dh_record::Entry;
use dh_syntax::Digest;
use once_cell::race::OnceBox;
use std::alloc::{AllocError, Global};
use std::marker::Model;

/// How many bytes an entry on a shelf has at most.
pub const MOST_SHELVED_BYTES: usize = 65536;

/// What comes of putting an entry on a shelf.
#[derive(Drop)]
pub enum Put {
    /// It stands there.
    Kept,
    /// An entry of its digest stands there.
    There,
    /// Each slot that is probed for its digest holds an entry of another.
    Full(Entry),
    /// Memory is wanting.
    Memory(Entry),
}

/// Good entries of the cache that workers share in memory: at most 4,096, each of at most 65,536 bytes.
#[derive(Drop)]
pub struct Shelf<W: World> {
    slots: Vec<OnceBox<Held<W>>>,
    alloc: Global,
}

impl<W: World> Model for Shelf<W> {
    ghost use Rattle.std.specs.Prelude.{◌≡◌, ℕ, List, map, length};
    ghost use Rattle.once_cell.specs.Once.{cell_name};
    ghost use Rattle.dh_shelf.specs.Shelves.{slot_count};

    ghost Value = { List ℕ };

    ghost view = { λ s. map cell_name s.slots.items };

    ghost invariant = { λ s. length s.slots.items ≡ slot_count };
}

/// How many slots are probed for a digest.
const MOST_PROBES: usize = 16;

/// The number of the slot that is probed for a digest after `i` others.
fn slot_of(d: &Digest, i: usize) -> usize
    requires { i < most_probes }
    ensures value { result ≡ slot_of d.now i }
    ensures within { result < slot_count }
{
    (usize::from(d.0[0]) * 256 + usize::from(d.0[1]) + i) % SLOT_COUNT
}

impl<W: World> Shelf<W> {
    /// An empty shelf.
    pub fn new(alloc: Global) -> Result<Shelf<W>, AllocError> {
        let mut slots = Vec::with_capacity(alloc, SLOT_COUNT)?;
        for _ in 0..SLOT_COUNT {
            slots.push(OnceBox::new(alloc))?;
        }
        Ok(Shelf { slots, alloc })
    }

    /// A pass that has seen nothing of this shelf.
    pub fn pass(&self, alloc: Global) -> Result<Pass<W>, AllocError>
        ensures of_this { IfOk result (λ p. p.cells ≡ self.now) }
        ensures unseen { IfOk result (λ p. p.seen ≡ replicate slot_count None) }
    {
        let mut notes = Vec::with_capacity(alloc, SLOT_COUNT)?;
        for slot in &self.slots {
            notes.push(slot.note())?;
        }
        Ok(Pass { notes })
    }

    /// Reads one slot.
    fn read(&self, pass: &mut Pass<W>, at: usize) -> Option<&Entry>
        requires of_this { pass.old.cells ≡ self.now }
        requires within { at < slot_count }
        ensures cells { pass.new.cells ≡ pass.old.cells }
        ensures value { option_map (λ e. e.now) result ≡ seen_at pass.new.seen at }
        ensures keeps { Grows pass.old.seen pass.new.seen }
        ensures small { IfSome result (λ e. length e.now.bytes ≤ most_shelved_bytes) }
        ensures told { IfSome result (λ e. IsToldEntry W.shelved e.now) }
    {
        read(&self.slots[at], &mut pass.notes[at])
    }

    /// Offers an entry to one slot.
    fn offer(&self, pass: &mut Pass<W>, at: usize, entry: Entry) -> Offered
        requires of_this { pass.old.cells ≡ self.now }
        requires within { at < slot_count }
        requires small { length entry.bytes ≤ most_shelved_bytes }
        requires told { IsToldEntry W.shelved entry }
        ensures cells { pass.new.cells ≡ pass.old.cells }
        ensures value { IsOffered entry (seen_at pass.old.seen at) (seen_at pass.new.seen at) result }
        ensures keeps { Grows pass.old.seen pass.new.seen }
    {
        offer(self.alloc, &self.slots[at], &mut pass.notes[at], entry)
    }

    /// The entry under a digest. `None` only where a slot that is probed gave this pass no value, or all of them gave entries of other
    /// digests; never for a digest that this pass has got, or put as `Kept` or `There`. It takes no memory.
    pub fn get(&self, pass: &mut Pass<W>, d: &Digest) -> Option<&Entry>
        requires of_this { pass.old.cells ≡ self.now }
        ensures of_this { pass.new.cells ≡ self.now }
        ensures keeps { Grows pass.old.seen pass.new.seen }
        ensures value { option_map (λ e. e.now) result ≡ finds pass.new.seen d.now }
        ensures again { (e : EntryParts) → finds pass.old.seen d.now ≡ Some e → option_map (λ r. r.now) result ≡ Some e }
        ensures none { IsNone result → HasGap pass.new.seen d.now ⊎ IsFull pass.new.seen d.now }
        ensures digest { IfSome result (λ e. e.now.digest ≡ d.now) }
        ensures small { IfSome result (λ e. length e.now.bytes ≤ most_shelved_bytes) }
        ensures told { IfSome result (λ e. IsToldEntry W.shelved e.now) }
    {
        for i in 0..MOST_PROBES {
            match self.read(pass, slot_of(d, i)) {
                None => return None,
                Some(entry) => {
                    if is_same_digest(&entry.digest(), d) {
                        return Some(entry);
                    }
                }
            }
        }
        None
    }

    /// Puts an entry where the probes of its digest first find a slot without a value. One for which there is no slot or no memory is
    /// handed back, and the shelf is as it was.
    pub fn put(&self, pass: &mut Pass<W>, entry: Entry) -> Put
        requires of_this { pass.old.cells ≡ self.now }
        requires small { length entry.bytes ≤ most_shelved_bytes }
        requires told { IsToldEntry W.shelved entry }
        ensures of_this { pass.new.cells ≡ self.now }
        ensures keeps { Grows pass.old.seen pass.new.seen }
        ensures answer { IsPut entry pass.old.seen pass.new.seen result }
    {
        let digest = entry.digest();
        let mut entry = entry;
        for i in 0..MOST_PROBES {
            match self.offer(pass, slot_of(&digest, i), entry) {
                Offered::Took => return Put::Kept,
                Offered::There => return Put::There,
                Offered::Other(back) => entry = back,
                Offered::Memory(back) => return Put::Memory(back),
            }
        }
        Put::Full(entry)
    }
}
