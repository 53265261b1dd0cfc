//! The command `decode`: from the binary form to the printed text.

ghost use Rattle.std.specs.Prelude.{◌≡◌, ◌≤◌, List, length, IfOk, Ok, Err};
ghost use Rattle.dh_command.specs.Answer.{Does, decoded, nothing_found};
ghost use Rattle.dh_command.specs.Words.{Word};
ghost use Rattle.dh_syntax.specs.Expressions.Arity.{IsWellFormed};
ghost use Rattle.dh_syntax.specs.Expressions.Bridge.{term};
ghost use Rattle.dh_syntax.specs.Expressions.Nesting.{nesting};
ghost use Rattle.dh_syntax.specs.Limits.{most_bytes};
ghost use Rattle.dh_command.specs.declared.verbs.Verb.TheVariants as verbs;
ghost use Rattle.dh_top.specs.Replies.{written};

use crate::replies::{Reply, misspelling};
use dh_command::Status;
use dh_decode::decode;
use dh_print::print;
use dh_syntax::{DecodeFault, Expr, MOST_BYTES, ParseFault};
use std::alloc::{AllocError, Global};

/// The reply to the binary form of this expression.
fn printed_reply(alloc: Global, e: &Expr) -> Result<Reply, AllocError>
    requires formed { IsWellFormed (term e.now) }
    requires shallow { nesting (term e.now) ≤ 500 }
    ensures { IfOk result (λ r. written r ≡ decoded (Ok (term e.now))) }
{
    let mut line = print(alloc, e)?.into_string();
    line.push_str("\n")?;
    Ok(Reply::answer(alloc, line.into_bytes()))
}

/// The reply to bytes that are no expression.
fn misreading(alloc: Global, fault: DecodeFault) -> Result<Reply, AllocError>
    ensures { IfOk result (λ r. written r ≡ decoded (Err fault)) }
{
    let text = format!(in alloc; "{fault}\n")?;
    Ok(Reply::refusal(alloc, text, Status::Text))
}

/// The reply of `decode` to no more bytes than a text may have.
fn reading(alloc: Global, bytes: &[u8]) -> Result<Reply, AllocError>
    requires { length bytes.now ≤ most_bytes }
    ensures { IfOk result (λ r. (ops : List Word) → Does verbs.Decode ops bytes.now nothing_found (written r)) }
{
    match decode(alloc, bytes) {
        Ok(e) => printed_reply(alloc, &e),
        Err(fault) => match fault {
            DecodeFault::Memory => Err(AllocError),
            _ => misreading(alloc, fault),
        },
    }
}

/// The reply of `decode` to bytes. More than a text may have are not read.
pub(crate) fn decoding(alloc: Global, bytes: &[u8]) -> Result<Reply, AllocError>
    ensures { IfOk result (λ r. (ops : List Word) → Does verbs.Decode ops bytes.now nothing_found (written r)) }
{
    if bytes.len() > MOST_BYTES {
        return misspelling(alloc, ParseFault::TooLarge);
    }
    reading(alloc, bytes)
}
