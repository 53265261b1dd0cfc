//! What stands under labels, in the order of the labels.
ghost use Rattle.std.specs.Prelude.{◌≡◌, [], true, IfOk, OnOk};
ghost use Rattle.std.specs.Map.{lookup, remove_entry};
ghost use Rattle.dh_making.specs.Words.{key_of};
ghost use Rattle.dh_syntax.specs.Expressions.Numbers.{bytes_eq};
ghost use Rattle.dh_syntax.specs.Expressions.Order.{ascending};
ghost use Rattle.dh_syntax.specs.Text.Derivation.{key_label};
ghost use Rattle.dh_syntax.specs.Text.Derived.{among};
ghost use Rattle.dh_syntax.specs.Text.Meaning.{insert, names};

use crate::words::EntryKey;
use dh_syntax::Label;
use std::alloc::{AllocError, Global};
use std::collections::BTreeMap;
use std::marker::Model;

/// Values under labels, found by their labels. Contracts see the list of them, in the order of the labels.
#[derive(Drop)]
pub struct ByLabel<V> {
    map: BTreeMap<Label, V>,
}

impl<V> Model for ByLabel<V> {
    ghost use Rattle.std.specs.Prelude.{List, ℕ};
    ghost use Rattle.std.specs.Coded.{coded_list, coded_ℕ, coded×};
    ghost use Rattle.std.specs.BTreeMap.{IsOrdered};
    ghost use Rattle.std.specs.Cmp.Lexicographic.{slice_cmp};
    ghost use Rattle.std.specs.Ordering.{nat_cmp};

    ghost Value = { List (List ℕ × V) };

    ghost coded = { coded_list (coded× (coded_list coded_ℕ) V.code) };

    ghost view = { λ m. m.map.entries };

    ghost invariant = { λ m. IsOrdered (slice_cmp nat_cmp) m.map };
}

impl<V> ByLabel<V> {
    /// Nothing. It takes no memory.
    pub fn new(alloc: Global) -> ByLabel<V>
        ensures { result ≡ [] }
    {
        ByLabel {
            map: BTreeMap::new(alloc),
        }
    }

    /// Whether something stands under the label.
    pub fn contains(&self, label: &Label) -> bool
        ensures { result ≡ among label.now (names self.now) }
    {
        self.map.contains_key(label)
    }

    /// Whether something stands under the label of the key.
    pub fn contains_key(&self, alloc: Global, key: &EntryKey) -> Result<bool, AllocError>
        ensures { IfOk result (λ b. b ≡ among (key_label (key_of key.now)) (names self.now)) }
    {
        match key {
            EntryKey::Name(word) => Ok(self.contains(word.label())),
            EntryKey::Truth(_) | EntryKey::Builtin(_) | EntryKey::Some => {
                let label = key.copy_label(alloc)?;
                Ok(self.contains(&label))
            }
        }
    }

    /// Takes out what stands under the label.
    pub fn remove(&mut self, label: &Label) -> Option<V>
        ensures value { result ≡ lookup (bytes_eq label.now) self.old }
        ensures others { self.new ≡ remove_entry (bytes_eq label.now) self.old }
        ensures ordered { ascending (names self.old) ≡ true }
    {
        self.map.remove(label)
    }
}

impl<V: Drop> ByLabel<V> {
    /// Puts a value under the label, where there is none yet.
    pub fn insert(&mut self, label: Label, value: V) -> Result<(), AllocError>
        ensures { OnOk result (self.new ≡ insert (label, value) self.old) }
    {
        let is_new = !self.contains(&label);
        if is_new {
            self.map.insert(label, value)?;
        }
        Ok(())
    }

    /// All of them with their labels, in the order of the labels.
    pub fn into_vec(self, alloc: Global) -> Result<Vec<(Label, V)>, AllocError>
        ensures { IfOk result (λ v. v.items ≡ self) }
    {
        self.map.into_iter().collect(alloc)
    }
}
