//! Keys by their numbers.

ghost use Rattle.std.specs.Prelude.{◌≡◌, ◌<◌, [], Some, IfOk, length};
ghost use Rattle.dh_demand.specs.Results.{number_of};
ghost use Rattle.dh_syntax.specs.Imports.Keys.{key_eq, key_le};
ghost use Rattle.dh_record.specs.Rows.{key_named, rows_of};
ghost use Rattle.dh_watch_rows.specs.Inside.Edges.{IsFirstKey};
ghost use Rattle.dh_watch_rows.specs.KeptRows.{AreBehind, IsGood, kept_of};

use crate::rows::Rows;
use dh_demand::{Edges, Results};
use dh_record::{enter_all, is_at_most};
use dh_syntax::Key;
use std::alloc::{AllocError, Global};

impl Rows {
    /// How many keys have numbers.
    pub fn key_count(&self) -> usize
        ensures { result ≡ length self.now.keys }
    {
        self.keys.len()
    }

    /// The key of this number.
    pub fn key(&self, n: u32) -> &Key
        requires { n < length self.now.keys }
        ensures { result.now ≡ key_named self.now.keys n }
    {
        self.keys.key(n)
    }

    /// The number of a key, which is added where it is new. Where memory is wanting, what is kept stays as it was.
    pub fn enter(&mut self, alloc: Global, key: Key) -> Result<u32, AllocError>
        requires { IsGood self.old }
        ensures good { IsGood self.new }
        ensures kept { kept_of self.new ≡ kept_of self.old }
        ensures keys { AreBehind self.old.keys self.new.keys }
        ensures number { IfOk result (λ n. number_of (rows_of self.new.keys) key ≡ Some n) }
    {
        if let Some(number) = self.keys.number(&key) {
            return Ok(number);
        }
        let count = self.keys.len();
        let imports = [key];
        match enter_all(alloc, &mut self.keys, &imports, None) {
            Ok(edges) => Ok(first_key(&edges)),
            Err(fault) => {
                self.keys.truncate(count);
                Err(fault)
            }
        }
    }

    /// Whether these numbers are of one key.
    pub fn is_same(&self, j: u32, k: u32) -> bool
        requires good { IsGood self.now }
        requires inside { (j < length self.now.keys) × (k < length self.now.keys) }
        ensures { result ≡ key_eq (key_named self.now.keys j) (key_named self.now.keys k) }
    {
        j == k
    }

    /// Whether the first key comes before the second, or is it.
    pub fn is_at_most(&self, j: u32, k: u32) -> bool
        requires good { IsGood self.now }
        requires inside { (j < length self.now.keys) × (k < length self.now.keys) }
        ensures { result ≡ key_le (key_named self.now.keys j) (key_named self.now.keys k) }
    {
        let rows = self.keys.as_slice();
        is_at_most(&rows[j as usize], &rows[k as usize])
    }
}

// The number of the key of the first edge.
fn first_key(edges: &Edges) -> u32
    requires { ¬ (edges.now ≡ []) }
    ensures { IsFirstKey edges.now result }
{
    match edges.as_slice() {
        [edge, ..] => edge.key,
        [] => unreachable!(),
    }
}
