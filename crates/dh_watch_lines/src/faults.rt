//! The lines of faults: of an item, and of a place without a type in a text.

ghost use Rattle.std.specs.Prelude.{IfOk, Ok, option_copied};
ghost use Rattle.dh_command.specs.Statuses.{why_status as status_of};
ghost use Rattle.dh_imports.specs.ImportFaults.{in_item as in_item_of, why_line};
ghost use Rattle.dh_syntax.specs.Expressions.Tree.{Term};
ghost use Rattle.dh_syntax.specs.Text.Spelling.{ParsesTo};
ghost use Rattle.dh_watch_lines.specs.Lines.{IsTold, TellsPlace};

use crate::lines::Told;
use dh_command::Status;
use dh_faults::{Placed, in_item, place_of, why_status, why_text};
use dh_imports::Why;
use dh_parse::parse_spans;
use dh_syntax::{Ill, Key, ParseFault};
use std::alloc::{AllocError, Global};

/// The line of a fault of an item.
fn fault_told(
    alloc: Global,
    at: Option<&Key>,
    line: &str,
    status: Status,
) -> Result<Told, AllocError>
    ensures { IfOk result (λ t. IsTold t (in_item_of (option_copied at.entry) line.now) status) }
{
    let text = in_item(alloc, at, line)?;
    Ok(Told::of(text, status))
}

/// The line that tells why an item has no value.
pub(crate) fn why_told(alloc: Global, at: Option<&Key>, why: &Why) -> Result<Told, AllocError>
    ensures { IfOk result (λ t. IsTold t (in_item_of (option_copied at.entry) (why_line why.now)) (status_of why.now)) }
{
    let line = why_text(alloc, why)?;
    fault_told(alloc, at, line.as_str(), why_status(why))
}

/// The line that tells a place without a type, by its path in the text of an item. The text spells an expression.
pub(crate) fn place_told(
    alloc: Global,
    at: Option<&Key>,
    text: &[u8],
    path: &[u32],
    ill: &Ill,
) -> Result<Told, AllocError>
    requires spelled { (e : Term) × ParsesTo text.now (Ok e) }
    ensures { IfOk result (λ t. (e : Term) → ParsesTo text.now (Ok e) → TellsPlace (option_copied at.entry) text.now e path.now ill.now t) }
{
    match parse_spans(alloc, text) {
        Ok((_, spans)) => {
            let place = place_of(text, &spans, path);
            let line = format!(in alloc; "{}", Placed { ill, place })?;
            fault_told(alloc, at, line.as_str(), Status::Ill)
        }
        Err(fault) => match fault {
            ParseFault::Memory => Err(AllocError),
            _ => unreachable!(),
        },
    }
}
