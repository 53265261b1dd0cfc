//! An entry on a shelf.

ghost use Rattle.std.specs.Prelude.{◌≡◌, ◌≤◌, length};
ghost use Rattle.dh_shelf.specs.Shelves.{IsToldEntry, most_shelved_bytes};

use dh_ports::World;
use dh_record::Entry;
use std::marker::{Model, PhantomData};

/// An entry that stands on a shelf: it is not too long, and is what the world tells under its digest, where it tells.
pub(crate) struct Held<W: World> {
    entry: Entry,
    world: PhantomData<W>,
}

impl<W: World> Model for Held<W> {
    ghost use Rattle.std.specs.Prelude.{◌≤◌, length};
    ghost use Rattle.dh_record.specs.contracts.entries.Entry as e;
    ghost use Rattle.dh_record.specs.Entries.{EntryParts};
    ghost use Rattle.dh_shelf.specs.Shelves.{IsToldEntry, most_shelved_bytes};

    ghost Value = { EntryParts };

    ghost coded = { e.the_row.coded };

    ghost view = { λ h. h.entry };

    ghost invariant = { λ h. (length h.entry.bytes ≤ most_shelved_bytes) × IsToldEntry W.shelved h.entry };
}

impl<W: World> Drop for Held<W> {
    fn drop(self) {
        let Held { entry: _, world: _ } = self;
    }
}

impl<W: World> Held<W> {
    /// The entry, to stand on a shelf.
    pub(crate) fn of(entry: Entry) -> Held<W>
        requires small { length entry.bytes ≤ most_shelved_bytes }
        requires told { IsToldEntry W.shelved entry }
        ensures { result ≡ entry }
    {
        Held {
            entry,
            world: PhantomData,
        }
    }

    pub(crate) fn entry(&self) -> &Entry
        ensures same { result.now ≡ self.now }
        ensures small { length self.now.bytes ≤ most_shelved_bytes }
        ensures told { IsToldEntry W.shelved self.now }
    {
        &self.entry
    }

    pub(crate) fn into_entry(self) -> Entry
        ensures { result ≡ self }
    {
        let Held { entry, world: _ } = self;
        entry
    }
}
