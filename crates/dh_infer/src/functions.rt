//! Application: the function is typed, and then the argument.

ghost use Rattle.std.specs.Prelude.{◌≡◌, ◌<◌, ℕ, Some, None, IfOk, IfErr, IfSome, IfNone, OnOk};
ghost use Rattle.dh_syntax.specs.Expressions.Tree.{Name};
ghost use Rattle.dh_syntax.specs.Names.Nameless.{Core, first, sub};
ghost use Rattle.dh_syntax.specs.Typing.TypeViews.{as_forall};
ghost use Rattle.dh_store.specs.Cells.{code_core, AreCoded};
ghost use Rattle.dh_store.specs.Growth.{count};
ghost use Rattle.dh_types.specs.Closed.{IsClosedBelow};
ghost use Rattle.dh_types.specs.Growing.{Grows};
ghost use Rattle.dh_infer.specs.Inside.Known.{IsKnown};
ghost use Rattle.dh_infer.specs.Inside.Machine.{Advances, Halts, IsReady, with_frame};
ghost use Rattle.dh_infer.specs.Inside.NormalCodes.{IsNormalCode, IsStopped};
ghost use Rattle.dh_infer.specs.Inside.Scopes.{in_scope, AreEntriesThere, Models};
ghost use Rattle.dh_infer.specs.declared.frames.Frame.TheVariants as frames;
ghost use Rattle.dh_infer.specs.declared.frames.State.TheVariants as states;

use crate::beginnings::refuse;
use crate::frames::{Frame, State, Typer};
use crate::known::{Known, known_form};
use crate::normals::normal_put;
use dh_store::{CodeId, Codes};
use dh_syntax::{NormFault, Purse};
use dh_types::{forall, rules, same, seen_outside};
use std::alloc::Global;

/// The function that is applied to this argument has this type.
pub(crate) fn function(
    typer: &mut Typer,
    argument: CodeId,
    typed: CodeId,
    purse: &Purse,
) -> Result<State, NormFault>
    requires ready { IsReady (with_frame (frames.Function argument) typer.old) (states.Typed typed) }
    ensures ok { IfOk result (λ s. Advances (with_frame (frames.Function argument) typer.old) typer.new (states.Typed typed) s purse.now.left purse.now.left) }
    ensures err { IfErr result (λ h. Halts (with_frame (frames.Function argument) typer.old) (states.Typed typed) purse.now.left h) }
{
    typer.frames.push(Frame::Argument(typed, argument))?;
    Ok(State::Type(argument))
}

/// The domain and the range of a type that is a ∀.
fn function_parts(codes: &Codes, typed: CodeId) -> Option<(CodeId, CodeId)>
    requires coded { AreCoded codes.now }
    requires there { typed < count codes.now }
    ensures there { IfSome result (λ x. (x.0 < count codes.now) × (x.1 < count codes.now)) }
    ensures some { IfSome result (λ x. (g : ℕ → Core) → Models codes.now g → (y : Name) × (as_forall (g typed) ≡ Some (g x.0, y, g x.1))) }
    ensures none { IfNone result ((g : ℕ → Core) → Models codes.now g → as_forall (g typed) ≡ None) }
{
    match forall(codes, typed) {
        Some((domain, _, range)) => Some((domain, range)),
        None => None,
    }
}

/// The type of an application: the normal form of the range of the function's type with the argument put in. A range that does not
/// mention its variable stands by itself, so its normal form is found once.
fn applied(
    alloc: Global,
    typer: &mut Typer,
    known: &mut Known,
    range: CodeId,
    argument: CodeId,
    purse: &mut Purse,
) -> Result<CodeId, NormFault>
    requires coded { AreCoded typer.old.codes }
    requires entries { AreEntriesThere (count typer.old.codes) typer.old.scope }
    requires range { range < count typer.old.codes }
    requires argument { argument < count typer.old.codes }
    requires closed { IsClosedBelow (code_core typer.old.codes range) }
    requires known { (g : ℕ → Core) → Models typer.old.codes g → IsKnown g known.old }
    ensures known { OnOk result ((g : ℕ → Core) → Models typer.new.codes g → IsKnown g known.new) }
    ensures grows { Grows typer.old.codes typer.new.codes }
    ensures rest { typer.new ≡ record typer.old { codes = typer.new.codes } }
    ensures ok { IfOk result (λ k. IsNormalCode typer.new.codes purse.old.left purse.new.left (λ g. sub (first (in_scope g typer.old.scope argument)) (g range)) k) }
    ensures err { IfErr result (λ h. IsStopped typer.old.codes purse.old.left (λ g. sub (first (in_scope g typer.old.scope argument)) (g range)) h) }
{
    let outside = seen_outside(alloc, &typer.codes, range)?;
    match outside {
        Some(alone) => known_form(alloc, &mut typer.codes, known, alone, purse),
        None => normal_put(alloc, typer, range, argument, purse),
    }
}

/// The argument of a function with this type has a type: in the type of the application it is put into the range.
pub(crate) fn argument(
    alloc: Global,
    typer: &mut Typer,
    known: &mut Known,
    function: CodeId,
    argument: CodeId,
    typed: CodeId,
    purse: &mut Purse,
) -> Result<State, NormFault>
    requires ready { IsReady (with_frame (frames.Argument function argument) typer.old) (states.Typed typed) }
    requires known { (g : ℕ → Core) → Models typer.old.codes g → IsKnown g known.old }
    ensures known { OnOk result ((g : ℕ → Core) → Models typer.new.codes g → IsKnown g known.new) }
    ensures ok { IfOk result (λ s. Advances (with_frame (frames.Argument function argument) typer.old) typer.new (states.Typed typed) s purse.old.left purse.new.left) }
    ensures err { IfErr result (λ h. Halts (with_frame (frames.Argument function argument) typer.old) (states.Typed typed) purse.old.left h) }
{
    match function_parts(&typer.codes, function) {
        None => Ok(refuse(alloc, rules::NO_FUNCTION)),
        Some((domain, range)) => {
            if same(alloc, &typer.codes, typed, domain)? {
                let found = applied(alloc, typer, known, range, argument, purse)?;
                Ok(State::Typed(found))
            } else {
                Ok(refuse(alloc, rules::WRONG_ARGUMENT))
            }
        }
    }
}
