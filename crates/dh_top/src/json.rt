//! The command `to-json`: from a normal form to its JSON text.

ghost use Rattle.std.specs.Prelude.{◌≡◌, IfOk};
ghost use Rattle.dh_json.specs.JsonValue.{json};
ghost use Rattle.dh_syntax.specs.Expressions.Arity.{IsWellFormed};
ghost use Rattle.dh_syntax.specs.Expressions.Bridge.{term};
ghost use Rattle.dh_top.specs.Replies.{written, IsJsonReply};

use crate::replies::Reply;
use dh_command::Status;
use dh_json::{JsonFault, json_text};
use dh_syntax::Expr;
use std::alloc::{AllocError, Global};

/// The reply that writes the JSON text of a normal form on one line, or names its first place without a value.
pub(crate) fn json_value_reply(alloc: Global, form: &Expr) -> Result<Reply, AllocError>
    requires { IsWellFormed (term form.now) }
    ensures { IfOk result (λ r. IsJsonReply (json (term form.now)) (written r)) }
{
    match json_text(alloc, form) {
        Ok(text) => {
            let mut text = text.into_string();
            text.push_str("\n")?;
            Ok(Reply::answer(alloc, text.into_bytes()))
        }
        Err(fault) => match fault {
            JsonFault::Memory => Err(AllocError),
            _ => {
                let text = format!(in alloc; "{fault}\n")?;
                Ok(Reply::refusal(alloc, text, Status::NoJson))
            }
        },
    }
}
