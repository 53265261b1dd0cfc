//! A mark for each key.

ghost use Rattle.std.specs.Prelude.{◌≡◌, ◌<◌, ◌++◌, ◌∷◌, [], Bool, false, length, replicate, slice_get, slice_set, slice_index_or, OnOk, OnErr};

use std::alloc::{AllocError, Global};
use std::marker::Model;

/// A mark for each key, by its number.
#[derive(Debug, Drop)]
pub struct Marks {
    pub(crate) marks: Vec<bool>,
}

impl Model for Marks {
    ghost use Rattle.std.specs.Prelude.{List, Bool};

    ghost Value = { List Bool };

    ghost view = { λ m. m.marks.items };
}

impl Marks {
    /// No marks. It takes no memory.
    pub fn new(alloc: Global) -> Marks
        ensures { result ≡ [] }
    {
        Marks {
            marks: Vec::new(alloc),
        }
    }

    /// These marks.
    pub fn of(marks: Vec<bool>) -> Marks
        ensures { result ≡ marks.items }
    {
        Marks { marks }
    }

    /// The marks, by the numbers of keys.
    pub fn into_vec(self) -> Vec<bool>
        ensures { result.items ≡ self }
    {
        let Marks { marks } = self;
        marks
    }

    /// How many keys have a mark.
    pub fn len(&self) -> usize
        ensures { result ≡ length self.now }
    {
        self.marks.len()
    }

    /// The mark of a key. `None` exactly where the number is at least `len`.
    pub fn get(&self, key: u32) -> Option<bool>
        ensures { result ≡ slice_get self.now key }
    {
        self.marks.get(key as usize).copied()
    }

    /// Whether the mark of a key is set.
    pub fn is_set(&self, key: u32) -> bool
        requires { key < length self.now }
        ensures { result ≡ slice_index_or self.now key false }
    {
        self.marks[key as usize]
    }

    /// Sets or takes away the mark of a key.
    pub fn set(&mut self, key: u32, on: bool)
        requires { key < length self.old }
        ensures { self.new ≡ slice_set self.old key on }
    {
        self.marks[key as usize] = on;
    }

    /// Adds the mark of the next key. Where memory is wanting the marks stay as they were.
    pub fn push(&mut self, on: bool) -> Result<(), AllocError>
        ensures ok { OnOk result (self.new ≡ self.old ++ on ∷ []) }
        ensures err { OnErr result (self.new ≡ self.old) }
    {
        self.marks.push(on)?;
        Ok(())
    }

    /// Takes every mark away.
    pub fn clear(&mut self)
        ensures { self.new ≡ replicate (length self.old) false }
    {
        self.marks.fill(false);
    }
}
