//! What is known of keys.

use dh_imports::Outcome;
use dh_syntax::Key;

/// The keys of a run by their numbers, each with its outcome once it has one.
pub trait Results {
    ghost use Rattle.std.specs.Prelude.{◌≡◌, ◌<◌, List, length, Some};
    ghost use Rattle.std.specs.Option.{option_copied};
    ghost use Rattle.dh_demand.specs.Results.{Row, key_at, outcome_at};

    ghost rows: { Self → List Row };

    /// The outcome of the key of this number. `None` exactly where it has none yet.
    fn outcome(&self, key: u32) -> Option<&Outcome>
        requires { key < length (rows self.now) }
        ensures { outcome_at (rows self.now) key ≡ Some (option_copied result) };

    /// The key of this number.
    fn key(&self, key: u32) -> &Key
        requires { key < length (rows self.now) }
        ensures { key_at (rows self.now) key ≡ Some result.now };
}
