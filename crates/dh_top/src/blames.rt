//! Replies that tell the fault that decides a root: an item's, with the place in the item's own text where that has no type.

ghost use Rattle.std.specs.Prelude.{◌≡◌, IfOk, Some};
ghost use Rattle.std.specs.Option.{option_copied};
ghost use Rattle.dh_import_laws.specs.Blames.{StandsIn};
ghost use Rattle.dh_command.specs.Answer.{FaultAnswer};
ghost use Rattle.dh_imports.specs.ImportFaults.{ill_of};
ghost use Rattle.dh_imports.specs.Machine.{outcome_of};
ghost use Rattle.dh_syntax.specs.declared.faults.Ill.{Ill as IllFault};
ghost use Rattle.dh_table.specs.States.{record_of, state_of};
ghost use Rattle.dh_top.specs.Replies.{written};

use crate::faults::{ill_reply, why_reply};
use crate::replies::Reply;
use dh_imports::{Blame, Why};
use dh_ports::World;
use dh_syntax::{Ill, TypeFault};
use dh_table::Table;
use std::alloc::{AllocError, Global};

/// The place without a type that a reason tells.
fn ill_in(why: &Why) -> Option<&Ill>
    ensures { option_copied result ≡ ill_of why.now }
{
    match why {
        Why::Typing(fault) => match fault {
            TypeFault::Ill(ill) => Some(ill),
            TypeFault::Wide | TypeFault::Spent | TypeFault::Deep | TypeFault::Memory => None,
        },
        Why::Parse(_) | Why::Norm(_) | Why::Absent | Why::Missing | Why::Broken(_) => None,
        Why::Https | Why::Failed | Why::Differs { .. } | Why::Insane(_) | Why::Cors(_) => None,
        Why::Cycle | Why::TooMany => None,
    }
}

/// The reply that tells a place without a type in the text of a key.
fn ill_in_text<W: World>(
    alloc: Global,
    table: &Table<W>,
    blame: &Blame,
    ill: &Ill,
) -> Result<Reply, AllocError>
    requires told { ill_of blame.now.why ≡ Some ill.now }
    requires stands { StandsIn (record_of table.now) (outcome_of (state_of table.now)) blame.now ill.now }
    ensures { IfOk result (λ w. FaultAnswer (record_of table.now) blame.now (written w)) }
{
    table.by_history();
    let Some(key) = &blame.at else { unreachable!() };
    let Some(text) = table.bytes_at(&key.loc) else {
        unreachable!()
    };
    let path = table.path_at(alloc, &key.loc, ill.path.as_slice())?;
    ill_reply(alloc, Some(key), text, path.as_slice(), ill)
}

/// The reply that tells the fault that decides the root.
pub(crate) fn blame_reply<W: World>(
    alloc: Global,
    table: &Table<W>,
    blame: &Blame,
) -> Result<Reply, AllocError>
    requires stands { (f : IllFault) → ill_of blame.now.why ≡ Some f → StandsIn (record_of table.now) (outcome_of (state_of table.now)) blame.now f }
    ensures { IfOk result (λ w. FaultAnswer (record_of table.now) blame.now (written w)) }
{
    match ill_in(&blame.why) {
        Some(ill) => ill_in_text(alloc, table, blame, ill),
        None => why_reply(alloc, blame.at.as_ref(), &blame.why),
    }
}
