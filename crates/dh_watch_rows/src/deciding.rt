//! Keys get their outcomes.

ghost use Rattle.std.specs.Prelude.{◌≡◌, ◌<◌, ◌≤◌, ◌+◌, ◌++◌, ◌∷◌, [], if◌then◌else◌, None, OnOk, OnErr, length, vec_len, vec_capacity};
ghost use Rattle.dh_record.specs.Due.{IsItem};
ghost use Rattle.dh_record.specs.Entering.{keys_in};
ghost use Rattle.dh_record.specs.Rows.{key_named};
ghost use Rattle.dh_watch_laws.specs.Kept.{IsSound, known};
ghost use Rattle.dh_watch_laws.specs.Running.{stage_at};
ghost use Rattle.dh_watch_rows.specs.KeptRows.{Decides, IsGood, kept_of};

use crate::rows::Rows;
use dh_record::{Done, put};
use std::alloc::AllocError;

impl Rows {
    /// Gives the key of this number what came of its item. Where memory is wanting, what is kept stays as it was.
    pub fn decide(&mut self, n: u32, done: Done) -> Result<(), AllocError>
        requires good { IsGood self.old }
        requires inside { n < length self.old.keys }
        requires sound { IsSound (kept_of self.old) }
        requires open { known (kept_of self.old).outcomes (key_named self.old.keys n) ≡ None }
        requires item { IsItem (key_named self.old.keys n) (stage_at (kept_of self.old) (key_named self.old.keys n)) done.item }
        ensures good { IsGood self.new }
        ensures kept { OnOk result (Decides (kept_of self.old) (key_named self.old.keys n) (kept_of self.new)) }
        ensures same { OnErr result (kept_of self.new ≡ kept_of self.old) }
        ensures keys { keys_in self.new.keys ≡ keys_in self.old.keys }
    {
        self.found.reserve(1)?;
        self.limited.reserve(1)?;
        done.by_last_step();
        done.by_value();
        let limited = done.is_limit();
        self.keys.decide(n, done.into_outcome());
        put(&mut self.found, n);
        put_if(&mut self.limited, limited, n);
        Ok(())
    }
}

// Adds a number, or not, where there is room.
fn put_if(v: &mut Vec<u32>, on: bool, n: u32)
    requires { vec_len v.old < vec_capacity v.old }
    ensures { v.new.items ≡ (if on then v.old.items ++ n ∷ [] else v.old.items) }
{
    if on {
        put(v, n);
    }
}
