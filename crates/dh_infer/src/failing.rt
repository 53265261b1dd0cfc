//! A place without a type, seen from what waits for the type.

ghost use Rattle.std.specs.Prelude.{◌≡◌, IfOk, IfErr};
ghost use Rattle.dh_syntax.specs.declared.faults.NormFault.TheVariants.{Memory};
ghost use Rattle.dh_infer.specs.Inside.Leaving.{outside_binder, outside_let, IsFailedBelow};
ghost use Rattle.dh_infer.specs.Inside.Machine.{Advances, Halts, IsReady, IsRefusal, with_frame};
ghost use Rattle.dh_infer.specs.declared.frames.State.TheVariants as states;

use crate::beginnings::refuse;
use crate::founds::with_universe;
use crate::frames::{Failure, Frame, State, Typer};
use dh_syntax::{NormFault, Purse};
use dh_types::rules;
use std::alloc::Global;

/// The failure is one below the part with this number.
fn outwards(failure: Failure, part: u32) -> Result<State, NormFault>
    ensures ok { IfOk result (λ s. IsFailedBelow part failure s) }
    ensures err { IfErr result (λ h. h ≡ Memory) }
{
    let mut failure = failure;
    failure.path.push(part)?;
    Ok(State::Failed(failure))
}

/// Out of a binder whose variable has a number.
fn leave_binder(typer: &mut Typer)
    ensures { typer.new ≡ outside_binder typer.old }
{
    let _entry = typer.scope.pop();
    let _typed = typer.levels.pop();
}

/// Out of a `let`.
fn leave_let(typer: &mut Typer)
    ensures { typer.new ≡ outside_let typer.old }
{
    let _entry = typer.scope.pop();
}

/// What waits for a type learns that there is none.
pub(crate) fn fail(
    alloc: Global,
    typer: &mut Typer,
    purse: &mut Purse,
    frame: Frame,
    failure: Failure,
) -> Result<State, NormFault>
    requires ready { IsReady (with_frame frame typer.old) (states.Failed failure) }
    ensures ok { IfOk result (λ s. Advances (with_frame frame typer.old) typer.new (states.Failed failure) s purse.old.left purse.new.left) }
    ensures err { IfErr result (λ h. Halts (with_frame frame typer.old) (states.Failed failure) purse.old.left h) }
{
    match frame {
        Frame::Function(_) => outwards(failure, 0),
        Frame::Argument(_, _) => outwards(failure, 1),
        Frame::LambdaDomain(_, _, _) => outwards(failure, 0),
        Frame::LambdaBody(_, _, _) => {
            leave_binder(typer);
            outwards(failure, 1)
        }
        Frame::ForallDomain(_, _, _) => outwards(failure, 0),
        Frame::ForallRange(_) => {
            leave_binder(typer);
            outwards(failure, 1)
        }
        Frame::Value(_, _) => outwards(failure, 0),
        Frame::LetAnnotation(_, _, _) => outwards(failure, 0),
        Frame::LetValue(_, _, _) => outwards(failure, 1),
        Frame::LetBody(part) => {
            leave_let(typer);
            outwards(failure, part)
        }
        Frame::Part(_, at, _) => outwards(failure, at),
        Frame::Universe(code, part, types, found, left) => {
            purse.left = left;
            Ok(State::Rule(code, types, with_universe(found, part, None)))
        }
        Frame::CompletedType(_, _) => outwards(failure, 0),
        Frame::CompletedRecord(_, _) => outwards(failure, 1),
        Frame::Completion => Ok(refuse(alloc, rules::COMPLETION_HAS_NO_TYPE)),
        Frame::Used(_) => Ok(State::Failed(failure)),
    }
}
