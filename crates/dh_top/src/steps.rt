//! The command `steps`: one step at each place that its operands name.

ghost use Rattle.std.specs.Prelude.{◌≡◌, ◌≤◌, ◌++◌, Ok, IfOk, IsOk, List, if◌then◌else◌, length, map, string_bytes};
ghost use Rattle.dh_command.specs.Answer.{Does, nothing_found};
ghost use Rattle.dh_command.specs.Responses.{answer as answer_of, line};
ghost use Rattle.dh_command.specs.declared.verbs.Verb.TheVariants as verbs;
ghost use Rattle.dh_confluence.specs.FragmentSteps.{is_settled};
ghost use Rattle.dh_steps.specs.StepLines.{settled_line, unsettled_line};
ghost use Rattle.dh_steps.specs.StepWords.{most_places, operand_places};
ghost use Rattle.dh_syntax.specs.Expressions.Arity.{IsWellFormed};
ghost use Rattle.dh_syntax.specs.Expressions.Bridge.{term};
ghost use Rattle.dh_syntax.specs.Expressions.Spellable.{IsSpellable};
ghost use Rattle.dh_syntax.specs.Normalising.Named.{put};
ghost use Rattle.dh_syntax.specs.Text.Printed.{text_of};
ghost use Rattle.dh_syntax.specs.Text.Spelling.{ParsesTo};
ghost use Rattle.dh_top.specs.Replies.{written, IsStepFault, Tells};

use crate::replies::{Reply, misspelling};
use dh_command::Status;
use dh_parse::parse;
use dh_print::print;
use dh_steps::{Places, StepFault, read_places, run_steps, settled};
use dh_syntax::{Expr, ParseFault};
use std::alloc::{AllocError, Global};

/// The reply that prints an expression on one line, and on the next whether a step is left.
fn settled_reply(alloc: Global, e: &Expr) -> Result<Reply, AllocError>
    requires { IsWellFormed (term e.now) }
    ensures { IfOk result (λ r. written r ≡ answer_of (line (text_of (term e.now)) ++ line (if is_settled put (term e.now) then settled_line else unsettled_line))) }
{
    let mut text = print(alloc, e)?.into_string();
    text.push_str(if settled(e) {
        "\nnormal\n"
    } else {
        "\nnot normal\n"
    })?;
    Ok(Reply::answer(alloc, text.into_bytes()))
}

/// The reply that tells why a step cannot be made.
fn step_fault_reply(alloc: Global, fault: &StepFault) -> Result<Reply, AllocError>
    ensures { IfOk result (λ r. IsStepFault fault.now (written r)) }
{
    let status = match fault {
        StepFault::Memory => return Err(AllocError),
        StepFault::Grown(_) => Status::Limit,
        StepFault::Outside(_) | StepFault::NoRule(_) => Status::Step,
    };
    let text = format!(in alloc; "{fault}\n")?;
    Ok(Reply::refusal(alloc, text, status))
}

/// The reply to a text that spells this expression.
fn spelled_steps(alloc: Global, text: &[u8], e: &Expr, places: &Places) -> Result<Reply, AllocError>
    requires spelled { ParsesTo text.now (Ok (term e.now)) }
    requires spellable { IsSpellable (term e.now) }
    requires formed { IsWellFormed (term e.now) }
    requires few { length places.now ≤ most_places }
    ensures { IfOk result (λ r. Tells places.now text.now (written r)) }
{
    match run_steps(alloc, e, places) {
        Ok(end) => settled_reply(alloc, &end),
        Err(fault) => step_fault_reply(alloc, &fault),
    }
}

/// The reply to a text, after steps at these places.
fn steps_reply(alloc: Global, text: &[u8], places: &Places) -> Result<Reply, AllocError>
    requires { length places.now ≤ most_places }
    ensures { IfOk result (λ r. Tells places.now text.now (written r)) }
{
    match parse(alloc, text) {
        Ok(e) => spelled_steps(alloc, text, &e, places),
        Err(fault) => match fault {
            ParseFault::Memory => Err(AllocError),
            _ => misspelling(alloc, fault),
        },
    }
}

/// The reply of `steps` with these operands to a text.
pub(crate) fn stepping(alloc: Global, operands: &[String], text: &[u8]) -> Result<Reply, AllocError>
    requires { IsOk (operand_places most_places 1 (map string_bytes operands.now)) }
    ensures { IfOk result (λ r. Does verbs.Steps (map string_bytes operands.now) text.now nothing_found (written r)) }
{
    match read_places(alloc, operands)? {
        Some(places) => steps_reply(alloc, text, &places),
        None => unreachable!(),
    }
}
