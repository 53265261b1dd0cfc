//! What the program tells of itself: the rules of typing, the page of help, and its version.

ghost use Rattle.std.specs.Prelude.{◌≡◌, IfOk, IsOk, map, string_bytes};
ghost use Rattle.dh_command.specs.Responses.{answer as answer_of};
ghost use Rattle.dh_command.specs.Telling.{help_text, version_text};
ghost use Rattle.dh_explain.specs.RuleWords.{operand_text};
ghost use Rattle.dh_top.specs.Replies.{written, IsExplained};

use crate::replies::Reply;
use dh_explain::told;
use std::alloc::{AllocError, Global};

/// What the rule of typing wants that the operands name, or the list of the rules where there are no operands.
pub(crate) fn explain(alloc: Global, operands: &[String]) -> Result<Reply, AllocError>
    requires { IsOk (operand_text 1 (map string_bytes operands.now)) }
    ensures { IfOk result (λ r. IsExplained (map string_bytes operands.now) (written r)) }
{
    let text = String::from_str(alloc, told(operands))?;
    Ok(Reply::answer(alloc, text.into_bytes()))
}

/// The commands with what they do, and the exit statuses, a line each.
pub(crate) fn help(alloc: Global) -> Result<Reply, AllocError>
    ensures { IfOk result (λ w. written w ≡ answer_of help_text) }
{
    let text = String::from_str(
        alloc,
        "dhall COMMAND [--workers N]: reads standard input, with N workers for its imports, 1 to 64 (4)\n\
         encode: writes the binary form of the expression\n\
         decode: prints the expression of which the input is the binary form\n\
         resolve: prints the expression with a value for each import\n\
         type: prints its type\n\
         normalize: prints its normal form\n\
         hash: prints the digest of its normal form\n\
         to-json: prints the JSON text of its normal form\n\
         freeze: writes the input with a digest after each import that has none\n\
         batch FILE..: prints the name of each file, and the digest of its normal form or why it has none; reads no input\n\
         steps PLACE..: prints the expression after one step at each place, and whether it is normal\n\
         gen N: prints how many imports and fetches the generated texts 0 to N take, N at most 4000, and the digest of their list; reads no input\n\
         explain [RULE]: prints what a rule of typing wants, or the list of the rules; reads no input\n\
         help, --help, -h: prints this page\n\
         --version: prints the version of the program and of the standard\n\
         status 0: the answer was written\n\
         status 1: the input or an import is no expression\n\
         status 2: the input or an import has no type\n\
         status 3: an import has no value\n\
         status 4: a limit was met\n\
         status 5: the words are no command line\n\
         status 6: the input could not be read\n\
         status 7: an output could not be written\n\
         status 8: an import could not be read\n\
         status 9: out of memory\n\
         status 10: the normal form has no JSON value\n\
         status 11: a step cannot be made\n",
    )?;
    Ok(Reply::answer(alloc, text.into_bytes()))
}

/// The name and the version of the program, and the version of the standard.
pub(crate) fn version(alloc: Global) -> Result<Reply, AllocError>
    ensures { IfOk result (λ w. written w ≡ answer_of version_text) }
{
    let text = String::from_str(alloc, "dhall 0.1.0, standard 23\n")?;
    Ok(Reply::answer(alloc, text.into_bytes()))
}
