//! The command `encode`: from a text to the binary form.

ghost use Rattle.std.specs.Prelude.{◌≡◌, ◌≤◌, List, IfOk, Ok};
ghost use Rattle.dh_command.specs.Answer.{Does, encoded, nothing_found};
ghost use Rattle.dh_command.specs.Words.{Word};
ghost use Rattle.dh_syntax.specs.Expressions.Arity.{IsWellFormed};
ghost use Rattle.dh_syntax.specs.Expressions.Bridge.{term};
ghost use Rattle.dh_syntax.specs.Expressions.Nesting.{nesting};
ghost use Rattle.dh_command.specs.declared.verbs.Verb.TheVariants as verbs;
ghost use Rattle.dh_top.specs.Replies.{written};

use crate::replies::{Reply, misspelling};
use dh_encode::encode;
use dh_parse::parse;
use dh_syntax::{Expr, ParseFault};
use std::alloc::{AllocError, Global};

/// The reply to a text that spells this expression.
fn encoded_reply(alloc: Global, e: &Expr) -> Result<Reply, AllocError>
    requires formed { IsWellFormed (term e.now) }
    requires shallow { nesting (term e.now) ≤ 500 }
    ensures { IfOk result (λ r. written r ≡ encoded (Ok (term e.now))) }
{
    let bytes = encode(alloc, e)?;
    Ok(Reply::answer(alloc, bytes.into_vec()))
}

/// The reply of `encode` to a text.
pub(crate) fn encoding(alloc: Global, text: &[u8]) -> Result<Reply, AllocError>
    ensures { IfOk result (λ r. (ops : List Word) → Does verbs.Encode ops text.now nothing_found (written r)) }
{
    match parse(alloc, text) {
        Ok(e) => encoded_reply(alloc, &e),
        Err(fault) => match fault {
            ParseFault::Memory => Err(AllocError),
            _ => misspelling(alloc, fault),
        },
    }
}
