//! The line of a root.

ghost use Rattle.std.specs.Prelude.{◌≡◌, ◌<◌, Some, IfOk, length};
ghost use Rattle.dh_command.specs.Answer.{cycle_at};
ghost use Rattle.dh_imports.specs.Outcomes.{Outcome as Became, plain};
ghost use Rattle.dh_imports.specs.Resolver.{Resolves};
ghost use Rattle.dh_record.specs.Entering.{keys_in};
ghost use Rattle.dh_record.specs.Rows.{key_named};
ghost use Rattle.dh_record.specs.Values.{HasValue};
ghost use Rattle.dh_script_laws.specs.Asks.{RootLine, root_key, root_of};
ghost use Rattle.dh_syntax.specs.declared.locations.Key.{Key as RootKey};
ghost use Rattle.dh_syntax.specs.declared.locations.Loc.{Loc};
ghost use Rattle.dh_watch_laws.specs.Kept.{IsSound, known};
ghost use Rattle.dh_watch_lines.specs.Lines.{TellsBlame};
ghost use Rattle.dh_watch_rows.specs.KeptRows.{IsGood, kept_of};
ghost use Rattle.dh_watch_runs.specs.Asks.{ComesTo};

use crate::blames::blame_line;
use crate::faults::why_told;
use crate::lines::Told;
use crate::values::value_line;
use dh_imports::{Outcome, Why};
use dh_watch_rows::Rows;
use dh_watch_runs::End;
use std::alloc::{AllocError, Global};

/// The line of a root whose key has this outcome.
fn outcome_line(alloc: Global, rows: &Rows, outcome: &Outcome) -> Result<Told, AllocError>
    requires good { IsGood rows.now }
    requires sound { IsSound (kept_of rows.now) }
    requires kept { (k : RootKey) × (known (kept_of rows.now).outcomes k ≡ Some (plain outcome.now)) }
    requires value { HasValue outcome.now }
    ensures { IfOk result (λ t. (l : Loc) → Resolves (kept_of rows.now).recorded (root_key l) (plain outcome.now) → RootLine (kept_of rows.now).recorded (root_of l) t.text t.status) }
{
    match outcome {
        Outcome::Good { value, origin: _ } => value_line(alloc, value),
        Outcome::Bad(blame) => blame_line(alloc, rows, blame),
    }
}

/// The line of a root that is decided.
fn decided_line(alloc: Global, rows: &Rows, root: u32) -> Result<Told, AllocError>
    requires good { IsGood rows.now }
    requires sound { IsSound (kept_of rows.now) }
    requires inside { root < length rows.now.keys }
    requires decided { (o : Became) × (known (kept_of rows.now).outcomes (key_named rows.now.keys root) ≡ Some o) }
    ensures { IfOk result (λ t. (l : Loc) → key_named rows.now.keys root ≡ root_key l → RootLine (kept_of rows.now).recorded (root_of l) t.text t.status) }
{
    match rows.outcome(root) {
        Some(outcome) => outcome_line(alloc, rows, outcome),
        None => unreachable!(),
    }
}

/// The line of a root that comes to a loop whose least key has this number.
fn loop_line(alloc: Global, rows: &Rows, least: u32) -> Result<Told, AllocError>
    requires { least < length rows.now.keys }
    ensures { IfOk result (TellsBlame (kept_of rows.now).recorded (cycle_at (key_named rows.now.keys least))) }
{
    why_told(alloc, Some(rows.key(least)), &Why::Cycle)
}

/// The line of a root, by the number of its key and to what that comes over what is kept.
pub fn root_line(alloc: Global, rows: &Rows, root: u32, end: End) -> Result<Told, AllocError>
    requires good { IsGood rows.now }
    requires sound { IsSound (kept_of rows.now) }
    requires inside { root < length rows.now.keys }
    requires ended { ComesTo (key_named rows.now.keys root) (keys_in rows.now.keys) (kept_of rows.now) end }
    ensures { IfOk result (λ t. (l : Loc) → key_named rows.now.keys root ≡ root_key l → RootLine (kept_of rows.now).recorded (root_of l) t.text t.status) }
{
    match end {
        End::Decided => decided_line(alloc, rows, root),
        End::Loop(least) => loop_line(alloc, rows, least),
    }
}
