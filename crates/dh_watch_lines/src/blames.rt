//! The line of a fault that decides a key: a place without a type is told by its line and column in the text that is kept of the key.

ghost use Rattle.std.specs.Prelude.{◌≡◌, IfOk, Some};
ghost use Rattle.std.specs.Option.{option_copied};
ghost use Rattle.dh_import_laws.specs.Blames.{StandsIn};
ghost use Rattle.dh_imports.specs.ImportFaults.{ill_of};
ghost use Rattle.dh_syntax.specs.declared.faults.Ill.{Ill as IllFault};
ghost use Rattle.dh_watch_laws.specs.Kept.{known};
ghost use Rattle.dh_watch_lines.specs.Lines.{TellsBlame};
ghost use Rattle.dh_watch_rows.specs.KeptRows.{IsGood, kept_of};

use crate::faults::{place_told, why_told};
use crate::lines::Told;
use dh_imports::{Blame, Why};
use dh_syntax::{Ill, TypeFault};
use dh_watch_rows::Rows;
use std::alloc::{AllocError, Global};

/// The place without a type that a reason tells.
fn ill_in(why: &Why) -> Option<&Ill>
    ensures { option_copied result ≡ ill_of why.now }
{
    match why {
        Why::Typing(fault) => match fault {
            TypeFault::Ill(ill) => Some(ill),
            TypeFault::Wide | TypeFault::Spent | TypeFault::Deep | TypeFault::Memory => None,
        },
        Why::Parse(_) | Why::Norm(_) | Why::Absent | Why::Missing | Why::Broken(_) => None,
        Why::Https | Why::Failed | Why::Differs { .. } | Why::Insane(_) | Why::Cors(_) => None,
        Why::Cycle | Why::TooMany => None,
    }
}

/// The line of a place without a type in the text of a key.
fn ill_in_text(alloc: Global, rows: &Rows, blame: &Blame, ill: &Ill) -> Result<Told, AllocError>
    requires good { IsGood rows.now }
    requires told { ill_of blame.now.why ≡ Some ill.now }
    requires stands { StandsIn (kept_of rows.now).recorded (known (kept_of rows.now).outcomes) blame.now ill.now }
    ensures { IfOk result (TellsBlame (kept_of rows.now).recorded blame.now) }
{
    let Some(key) = &blame.at else { unreachable!() };
    let Some(text) = rows.bytes_at(&key.loc) else {
        unreachable!()
    };
    let path = rows.path_at(alloc, &key.loc, ill.path.as_slice())?;
    place_told(alloc, Some(key), text, path.as_slice(), ill)
}

/// The line of a fault that decides a key.
pub(crate) fn blame_line(alloc: Global, rows: &Rows, blame: &Blame) -> Result<Told, AllocError>
    requires good { IsGood rows.now }
    requires stands { (f : IllFault) → ill_of blame.now.why ≡ Some f → StandsIn (kept_of rows.now).recorded (known (kept_of rows.now).outcomes) blame.now f }
    ensures { IfOk result (TellsBlame (kept_of rows.now).recorded blame.now) }
{
    match ill_in(&blame.why) {
        Some(ill) => ill_in_text(alloc, rows, blame, ill),
        None => why_told(alloc, blame.at.as_ref(), &blame.why),
    }
}
