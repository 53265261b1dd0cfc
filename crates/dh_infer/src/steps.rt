//! The machine takes its steps until no frame waits.

ghost use Rattle.std.specs.Prelude.{◌≡◌, ◌∷◌, ℕ, IfOk, IfErr, OnOk};
ghost use Rattle.dh_syntax.specs.Names.Nameless.{Core};
ghost use Rattle.dh_infer.specs.Inside.Debts.{Root};
ghost use Rattle.dh_infer.specs.Inside.Known.{IsKnown};
ghost use Rattle.dh_infer.specs.Inside.Machine.{Advances, Halts, IsHalted, IsReady, with_frame};
ghost use Rattle.dh_infer.specs.Inside.Scopes.{Models};
ghost use Rattle.dh_infer.specs.Inside.Steps.{IsAtWork, Ends};
ghost use Rattle.dh_infer.specs.declared.frames.State.TheVariants as states;

use crate::asking::{ask, universe_typed};
use crate::binders::{forall_domain, forall_range, lambda_body, lambda_domain};
use crate::completions::{completed_record_typed, completed_type_typed, completion_typed};
use crate::failing::fail;
use crate::frames::{Failure, Frame, State, Typer};
use crate::functions::{argument, function};
use crate::known::{Known, begin_unknown, remember, settled};
use crate::lets::{bind, let_annotation, let_body, let_value, used, value};
use crate::parts::{next_part, part_typed};
use dh_store::CodeId;
use dh_syntax::{NormFault, Purse};
use std::alloc::Global;

/// How the typing of an expression ends.
#[derive(Drop)]
pub(crate) enum Ending {
    /// With this type.
    Typed(CodeId),
    /// With a place that has none.
    Failed(Failure),
}

/// One step where a type was found for a frame, which was taken.
fn step_typed(
    alloc: Global,
    typer: &mut Typer,
    purse: &mut Purse,
    known: &mut Known,
    typed: CodeId,
    frame: Frame,
) -> Result<State, NormFault>
    requires ready { IsReady (with_frame frame typer.old) (states.Typed typed) }
    requires known { (g : ℕ → Core) → Models typer.old.codes g → IsKnown g known.old }
    ensures ok { IfOk result (λ s. Advances (with_frame frame typer.old) typer.new (states.Typed typed) s purse.old.left purse.new.left) }
    ensures err { IfErr result (λ h. Halts (with_frame frame typer.old) (states.Typed typed) purse.old.left h) }
    ensures known { OnOk result ((g : ℕ → Core) → Models typer.new.codes g → IsKnown g known.new) }
{
    match frame {
        Frame::Function(given) => function(typer, given, typed, purse),
        Frame::Argument(called, given) => {
            argument(alloc, typer, known, called, given, typed, purse)
        },
        Frame::LambdaDomain(name, domain, body) => {
            lambda_domain(alloc, typer, known, name, domain, body, typed, purse)
        }
        Frame::LambdaBody(name, domain, number) => {
            lambda_body(alloc, typer, known, name, domain, number, typed, purse)
        }
        Frame::ForallDomain(name, domain, range) => {
            forall_domain(alloc, typer, known, name, domain, range, typed, purse)
        }
        Frame::ForallRange(domain) => forall_range(alloc, typer, domain, typed, purse),
        Frame::Value(given, body) => Ok(value(typer, given, body, typed, purse)),
        Frame::LetAnnotation(annotation, given, body) => {
            let_annotation(typer, annotation, given, body, typed, purse)
        }
        Frame::LetValue(annotation, given, body) => {
            let_value(alloc, typer, annotation, given, body, typed, purse)
        }
        Frame::LetBody(number) => Ok(let_body(typer, number, typed, purse)),
        Frame::Part(code, at, types) => part_typed(typer, purse, code, at, types, typed),
        Frame::Universe(code, at, types, found, left) => Ok(universe_typed(
            typer, purse, code, at, types, found, left, typed,
        )),
        Frame::CompletedType(completed, record) => {
            completed_type_typed(typer, purse, completed, record, typed)
        }
        Frame::CompletedRecord(completed, record) => {
            completed_record_typed(alloc, typer, purse, completed, record, typed)
        }
        Frame::Completion => Ok(completion_typed(typer, purse, typed)),
        Frame::Used(index) => Ok(used(typer, index, typed, purse)),
    }
}

/// One step where a type was found for a frame, which was taken. The type is kept where the frame waits for that of a code by itself.
fn step_found(
    alloc: Global,
    typer: &mut Typer,
    purse: &mut Purse,
    known: &mut Known,
    typed: CodeId,
    frame: Frame,
) -> Result<State, NormFault>
    requires ready { IsReady (with_frame frame typer.old) (states.Typed typed) }
    requires at_work { (root : Root) × IsAtWork root (with_frame frame typer.old) (states.Typed typed) purse.old.left }
    requires known { (g : ℕ → Core) → Models typer.old.codes g → IsKnown g known.old }
    ensures ok { IfOk result (λ s. Advances (with_frame frame typer.old) typer.new (states.Typed typed) s purse.old.left purse.new.left) }
    ensures err { IfErr result (λ h. Halts (with_frame frame typer.old) (states.Typed typed) purse.old.left h) }
    ensures known { OnOk result ((g : ℕ → Core) → Models typer.new.codes g → IsKnown g known.new) }
{
    remember(alloc, typer, purse, known, &frame, typed)?;
    step_typed(alloc, typer, purse, known, typed, frame)
}

/// Goes on from a state until no frame waits.
pub(crate) fn run(
    alloc: Global,
    typer: &mut Typer,
    purse: &mut Purse,
    start: State,
) -> Result<Ending, NormFault>
    requires ready { IsReady typer.old start }
    requires at_work { (root : Root) × IsAtWork root typer.old start purse.old.left }
    ensures ok { IfOk result (λ e. (root : Root) → IsAtWork root typer.old start purse.old.left → Ends root typer.new purse.new.left e) }
    ensures err { IfErr result (λ h. (root : Root) → IsAtWork root typer.old start purse.old.left → IsHalted root h) }
{
    let mut known = Known::new(alloc);
    let mut state = start;
    'steps: for _ in 0..u64::MAX {
        match state {
            State::Type(code) => {
                state = begin_unknown(alloc, typer, purse, &known, code)?;
            }
            State::Parts(code, at, types) => {
                state = next_part(typer, purse, code, at, types)?;
            }
            State::Rule(code, types, found) => {
                state = ask(alloc, typer, purse, &mut known, code, types, found)?;
            }
            State::Bind(value, body, part) => {
                state = bind(alloc, typer, &mut known, value, body, part, purse)?;
            }
            State::Typed(found) => {
                let typed = settled(typer, purse, &mut known, found)?;
                match typer.frames.pop() {
                    None => return Ok(Ending::Typed(typed)),
                    Some(frame) => {
                        state = step_found(alloc, typer, purse, &mut known, typed, frame)?;
                    }
                }
            }
            State::Failed(failure) => match typer.frames.pop() {
                None => return Ok(Ending::Failed(failure)),
                Some(frame) => {
                    state = fail(alloc, typer, purse, frame, failure)?;
                }
            },
        }
    }
    Err(NormFault::Memory)
}
