//! The command `freeze`: the text of the input with the digest of its value behind each import that has none.

ghost use Rattle.std.specs.Prelude.{◌≡◌, ℕ, List, IfOk, Ok};
ghost use Rattle.dh_command.specs.Responses.{answer as answer_of};
ghost use Rattle.dh_imports.specs.FrozenTexts.{IsFrozenText};
ghost use Rattle.dh_syntax.specs.Expressions.Tree.{Term};
ghost use Rattle.dh_imports.specs.Machine.{outcome_of};
ghost use Rattle.dh_syntax.specs.Text.Offsets.{SpellsWith};
ghost use Rattle.dh_syntax.specs.Text.Spelling.{ParsesTo};
ghost use Rattle.dh_table.specs.States.{state_of};
ghost use Rattle.dh_top.specs.Replies.{written};

use crate::replies::Reply;
use dh_freeze::frozen_text;
use dh_parse::parse_imports;
use dh_ports::World;
use dh_syntax::ParseFault;
use dh_table::Table;
use std::alloc::{AllocError, Global};

/// The offsets behind the locations of the imports of a text that spells an expression, in the order of its nodes.
fn import_offsets(alloc: Global, text: &[u8]) -> Result<Vec<u32>, AllocError>
    requires spelled { (e : Term) × ParsesTo text.now (Ok e) }
    ensures { IfOk result (λ os. (e : Term) → ParsesTo text.now (Ok e) → SpellsWith text.now e os.items) }
{
    match parse_imports(alloc, text) {
        Ok((_, offsets)) => Ok(offsets),
        Err(fault) => match fault {
            ParseFault::Memory => Err(AllocError),
            _ => unreachable!(),
        },
    }
}

/// The reply of `freeze` to a root whose imports have values. Each byte of the text stays, and no line feed is added.
pub(crate) fn freezing<W: World>(
    alloc: Global,
    text: &[u8],
    table: &Table<W>,
) -> Result<Reply, AllocError>
    requires spelled { ParsesTo text.now (Ok (state_of table.now).root) }
    ensures { IfOk result (λ w. (bytes : List ℕ) × IsFrozenText text.now (state_of table.now).root (outcome_of (state_of table.now)) bytes × (written w ≡ answer_of bytes)) }
{
    let offsets = import_offsets(alloc, text)?;
    let digests = table.root_digests(alloc)?;
    let frozen = frozen_text(alloc, text, offsets.as_slice(), digests.as_slice())?;
    Ok(Reply::answer(alloc, frozen.into_vec()))
}
