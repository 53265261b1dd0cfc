//! Replies that tell a fault in one line: of an item, and of a place without a type in a text.

ghost use Rattle.std.specs.Prelude.{◌≡◌, IfOk, Ok, Option, option_copied};
ghost use Rattle.dh_command.specs.Responses.{fault as fault_of};
ghost use Rattle.dh_imports.specs.ImportFaults.{in_item as in_item_of, why_line};
ghost use Rattle.dh_command.specs.Statuses.{why_status as status_of};
ghost use Rattle.dh_syntax.specs.Expressions.Tree.{Term};
ghost use Rattle.dh_syntax.specs.Text.Spelling.{ParsesTo};
ghost use Rattle.dh_top.specs.Replies.{written, TellsPlace};

use crate::replies::Reply;
use dh_command::Status;
use dh_faults::{Placed, in_item, place_of, why_status, why_text};
use dh_imports::Why;
use dh_parse::parse_spans;
use dh_syntax::{Ill, Key, ParseFault};
use std::alloc::{AllocError, Global};

/// The reply that tells a fault of an item in one line.
fn fault_reply(
    alloc: Global,
    at: Option<&Key>,
    line: &str,
    status: Status,
) -> Result<Reply, AllocError>
    ensures { IfOk result (λ w. written w ≡ fault_of (in_item_of (option_copied at.entry) line.now) status) }
{
    let mut text = in_item(alloc, at, line)?;
    text.push_str("\n")?;
    Ok(Reply::refusal(alloc, text, status))
}

/// The reply that tells why an item has no value.
pub(crate) fn why_reply(alloc: Global, at: Option<&Key>, why: &Why) -> Result<Reply, AllocError>
    ensures { IfOk result (λ w. written w ≡ fault_of (in_item_of (option_copied at.entry) (why_line why.now)) (status_of why.now)) }
{
    let line = why_text(alloc, why)?;
    fault_reply(alloc, at, line.as_str(), why_status(why))
}

/// The reply that tells a place without a type, by its path in the text of an item. The text spells an expression.
pub(crate) fn ill_reply(
    alloc: Global,
    at: Option<&Key>,
    text: &[u8],
    path: &[u32],
    ill: &Ill,
) -> Result<Reply, AllocError>
    requires spelled { (e : Term) × ParsesTo text.now (Ok e) }
    ensures { IfOk result (λ w. (e : Term) → ParsesTo text.now (Ok e) → TellsPlace (option_copied at.entry) text.now e path.now ill.now (written w)) }
{
    match parse_spans(alloc, text) {
        Ok((_, spans)) => {
            let place = place_of(text, &spans, path);
            let line = format!(in alloc; "{}", Placed { ill, place })?;
            fault_reply(alloc, at, line.as_str(), Status::Ill)
        }
        Err(fault) => match fault {
            ParseFault::Memory => Err(AllocError),
            _ => unreachable!(),
        },
    }
}
