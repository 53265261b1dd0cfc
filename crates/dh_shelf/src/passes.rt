//! What one caller has seen of a shelf.

ghost use Rattle.std.specs.Prelude.{◌≡◌, ℕ, Some};
ghost use Rattle.dh_syntax.specs.declared.locations.Digest.{Digest};
ghost use Rattle.dh_record.specs.Entries.{EntryParts};
ghost use Rattle.dh_shelf.specs.Shelves.{Agree, finds, seen_at};

use crate::held::Held;
use crate::slots::{SLOT_COUNT, compare};
use dh_ports::World;
use once_cell::race::Note;
use std::marker::Model;

/// What one caller has seen of the slots of one shelf. What it has seen stays.
#[derive(Drop)]
pub struct Pass<W: World> {
    pub(crate) notes: Vec<Note<Held<W>>>,
}

impl<W: World> Model for Pass<W> {
    ghost use Rattle.std.specs.Prelude.{◌≡◌, map, length};
    ghost use Rattle.std.specs.Coded.{codes};
    ghost use Rattle.dh_record.specs.contracts.entries.Entry as e;
    ghost use Rattle.dh_shelf.specs.Shelves.{Passed, slot_count};

    ghost Value = { Passed };

    ghost coded = { Prim.hlevel (codes, e.the_row.coded) };

    ghost view = { λ p. record { cells = map (λ n. n.cell) p.notes.items; seen = map (λ n. n.known) p.notes.items } };

    ghost invariant = { λ p. length p.notes.items ≡ slot_count };
}

impl<W: World> Pass<W> {
    /// Two passes of one shelf have seen the same in each slot in which both have seen a value. So where both find an entry under a
    /// digest, it is the same.
    pub fn compare(&mut self, other: &mut Pass<W>)
        requires of_one { other.old.cells ≡ self.old.cells }
        ensures same { (self.new ≡ self.old) × (other.new ≡ other.old) }
        ensures slots { (at : ℕ) → Agree (seen_at self.old.seen at) (seen_at other.old.seen at) }
        ensures found { (d : Digest) (e f : EntryParts) → finds self.old.seen d ≡ Some e → finds other.old.seen d ≡ Some f → e ≡ f }
    {
        for i in 0..SLOT_COUNT {
            compare(&mut self.notes[i], &mut other.notes[i]);
        }
    }
}
