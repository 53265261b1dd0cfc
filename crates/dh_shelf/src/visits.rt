//! A shelf with a pass of it.

ghost use Rattle.std.specs.Prelude.{◌≡◌, ◌⊎◌, ◌≤◌, Some, None, IfOk, IfSome, IsNone, length, option_map, replicate};
ghost use Rattle.dh_record.specs.Entries.{EntryParts};
ghost use Rattle.dh_shelf.specs.Puts.{IsPut};
ghost use Rattle.dh_shelf.specs.Shelves.{Grows, HasGap, IsFull, IsToldEntry, finds, most_shelved_bytes, slot_count};

use crate::passes::Pass;
use crate::shelves::{Put, Shelf};
use dh_ports::World;
use dh_record::Entry;
use dh_syntax::Digest;
use std::alloc::{AllocError, Global};
use std::marker::Model;

/// A shelf with a pass of it, for one caller. Contracts see the pass.
#[derive(Drop)]
pub struct Visit<'a, W: World> {
    shelf: &'a Shelf<W>,
    pass: Pass<W>,
}

impl<'a, W: World> Model for Visit<'a, W> {
    ghost use Rattle.std.specs.Prelude.{◌≡◌};
    ghost use Rattle.std.specs.Coded.{codes};
    ghost use Rattle.dh_record.specs.contracts.entries.Entry as e;
    ghost use Rattle.dh_shelf.specs.Shelves.{Passed};

    ghost Value = { Passed };

    ghost coded = { Prim.hlevel (codes, e.the_row.coded) };

    ghost view = { λ v. v.pass };

    ghost invariant = { λ v. v.pass.cells ≡ v.shelf.now };
}

impl<'a, W: World> Visit<'a, W> {
    /// A visit that has seen nothing of this shelf.
    pub fn new(alloc: Global, shelf: &'a Shelf<W>) -> Result<Visit<'a, W>, AllocError>
        ensures of_this { IfOk result (λ v. v.cells ≡ shelf.now) }
        ensures unseen { IfOk result (λ v. v.seen ≡ replicate slot_count None) }
    {
        let pass = shelf.pass(alloc)?;
        Ok(Visit { shelf, pass })
    }

    /// The entry under a digest, as `Shelf::get` answers it. It takes no memory.
    pub fn get(&mut self, d: &Digest) -> Option<&'a Entry>
        ensures of_this { self.new.cells ≡ self.old.cells }
        ensures keeps { Grows self.old.seen self.new.seen }
        ensures value { option_map (λ e. e.now) result ≡ finds self.new.seen d.now }
        ensures again { (e : EntryParts) → finds self.old.seen d.now ≡ Some e → option_map (λ r. r.now) result ≡ Some e }
        ensures none { IsNone result → HasGap self.new.seen d.now ⊎ IsFull self.new.seen d.now }
        ensures digest { IfSome result (λ e. e.now.digest ≡ d.now) }
        ensures small { IfSome result (λ e. length e.now.bytes ≤ most_shelved_bytes) }
        ensures told { IfSome result (λ e. IsToldEntry W.shelved e.now) }
    {
        self.shelf.get(&mut self.pass, d)
    }

    /// Puts an entry, as `Shelf::put` does.
    pub fn put(&mut self, entry: Entry) -> Put
        requires small { length entry.bytes ≤ most_shelved_bytes }
        requires told { IsToldEntry W.shelved entry }
        ensures of_this { self.new.cells ≡ self.old.cells }
        ensures keeps { Grows self.old.seen self.new.seen }
        ensures answer { IsPut entry self.old.seen self.new.seen result }
    {
        self.shelf.put(&mut self.pass, entry)
    }
}
