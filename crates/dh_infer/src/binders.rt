//! λ and ∀: the domain is typed, and then the body or the range, where the variable has a number.

ghost use Rattle.std.specs.Prelude.{◌≡◌, ◌<◌, ℕ, length, drop, IfOk, IfErr, OnOk};
ghost use Rattle.dh_syntax.specs.Expressions.Tree.{Leaf};
ghost use Rattle.dh_syntax.specs.Names.Nameless.{Core};
ghost use Rattle.dh_syntax.specs.Typing.Universes.{function_check};
ghost use Rattle.dh_store.specs.Cells.{outside, AreCoded};
ghost use Rattle.dh_types.specs.Growing.{Grows, Stands};
ghost use Rattle.dh_infer.specs.Inside.Known.{IsKnown};
ghost use Rattle.dh_infer.specs.Inside.Opening.{Opens};
ghost use Rattle.dh_infer.specs.Inside.Scopes.{Models};
ghost use Rattle.dh_infer.specs.Inside.OpenTyping.{level};
ghost use Rattle.dh_infer.specs.Inside.Machine.{Advances, Halts, IsReady, with_frame};
ghost use Rattle.dh_infer.specs.declared.frames.Frame.TheVariants as frames;
ghost use Rattle.dh_infer.specs.declared.frames.State.TheVariants as states;

use crate::beginnings::refuse;
use crate::frames::{Entry, Frame, State, Typer};
use crate::known::{Known, known_form, shared_normal};
use crate::piles::Pile;
use dh_store::{Code, CodeId, Codes};
use dh_syntax::{Builtin, Label, NormFault, Purse};
use dh_types::{bound_in, constant, function_type, is_constant, rules, universe_of};
use std::alloc::{AllocError, Global};

/// The next number of a variable.
fn next_number(levels: &Pile<CodeId>) -> Result<u32, AllocError>
    ensures { IfOk result (λ n. n ≡ length levels.now) }
{
    u32::try_from(levels.len()).ok().ok_or(AllocError)
}

/// Adds the variable with this number.
fn numbered(alloc: Global, codes: &mut Codes, number: u32) -> Result<CodeId, AllocError>
    requires coded { AreCoded codes.old }
    ensures grows { Grows codes.old codes.new }
    ensures made { IfOk result (λ c. Stands codes.new c (Leaf (level number))) }
{
    let name = Label::new(alloc, "")?;
    codes.push(Code::Free(name, number))
}

/// Goes below one more binder, whose variable has the next number and this type; this frame waits for the type of what stands there.
fn enter(
    alloc: Global,
    typer: &mut Typer,
    number: u32,
    typed: CodeId,
    frame: Frame,
) -> Result<(), AllocError>
    requires coded { AreCoded typer.old.codes }
    ensures { OnOk result (Opens typer.old typer.new number typed frame) }
{
    let value = numbered(alloc, &mut typer.codes, number)?;
    typer.frames.push(frame)?;
    typer.levels.push(typed)?;
    typer.scope.push(Entry {
        value,
        typed: Some(typed),
        opened: true,
    })
}

/// Leaves a binder whose variable has a number.
fn leave(typer: &mut Typer)
    ensures { typer.new ≡ record typer.old { scope = drop 1 typer.old.scope; levels = drop 1 typer.old.levels } }
{
    let _ = typer.scope.pop();
    let _ = typer.levels.pop();
}

/// The domain of a λ has a type: its body is typed.
pub(crate) fn lambda_domain(
    alloc: Global,
    typer: &mut Typer,
    known: &mut Known,
    name: Label,
    domain: CodeId,
    body: CodeId,
    typed: CodeId,
    purse: &mut Purse,
) -> Result<State, NormFault>
    requires ready { IsReady (with_frame (frames.LambdaDomain name domain body) typer.old) (states.Typed typed) }
    requires known { (g : ℕ → Core) → Models typer.old.codes g → IsKnown g known.old }
    ensures ok { IfOk result (λ s. Advances (with_frame (frames.LambdaDomain name domain body) typer.old) typer.new (states.Typed typed) s purse.old.left purse.new.left) }
    ensures err { IfErr result (λ h. Halts (with_frame (frames.LambdaDomain name domain body) typer.old) (states.Typed typed) purse.old.left h) }
    ensures known { OnOk result ((g : ℕ → Core) → Models typer.new.codes g → IsKnown g known.new) }
{
    let Some(_) = universe_of(&typer.codes, typed) else {
        return Ok(refuse(alloc, rules::LAMBDA_DOMAIN));
    };
    let normal = shared_normal(alloc, typer, known, domain, purse)?;
    let number = next_number(&typer.levels)?;
    enter(
        alloc,
        typer,
        number,
        normal,
        Frame::LambdaBody(name, normal, number),
    )?;
    Ok(State::Type(body))
}

/// The body of a λ has a type: that of the λ has it as its range, below the binder again.
pub(crate) fn lambda_body(
    alloc: Global,
    typer: &mut Typer,
    known: &mut Known,
    name: Label,
    domain: CodeId,
    number: u32,
    typed: CodeId,
    purse: &mut Purse,
) -> Result<State, NormFault>
    requires ready { IsReady (with_frame (frames.LambdaBody name domain number) typer.old) (states.Typed typed) }
    requires known { (g : ℕ → Core) → Models typer.old.codes g → IsKnown g known.old }
    ensures ok { IfOk result (λ s. Advances (with_frame (frames.LambdaBody name domain number) typer.old) typer.new (states.Typed typed) s purse.old.left purse.new.left) }
    ensures err { IfErr result (λ h. Halts (with_frame (frames.LambdaBody name domain number) typer.old) (states.Typed typed) purse.old.left h) }
    ensures known { OnOk result ((g : ℕ → Core) → Models typer.new.codes g → IsKnown g known.new) }
{
    leave(typer);
    if is_constant(&typer.codes, Builtin::Sort, typed) {
        return Ok(refuse(alloc, rules::LAMBDA_BODY));
    }
    let range = bound_in(alloc, &mut typer.codes, typed, number)?;
    let function = function_type(alloc, &mut typer.codes, name, domain, range)?;
    let found = known_form(alloc, &mut typer.codes, known, function, purse)?;
    Ok(State::Typed(found))
}

/// The domain of a ∀ has a type: its range is typed.
pub(crate) fn forall_domain(
    alloc: Global,
    typer: &mut Typer,
    known: &mut Known,
    name: Label,
    domain: CodeId,
    range: CodeId,
    typed: CodeId,
    purse: &mut Purse,
) -> Result<State, NormFault>
    requires ready { IsReady (with_frame (frames.ForallDomain name domain range) typer.old) (states.Typed typed) }
    requires known { (g : ℕ → Core) → Models typer.old.codes g → IsKnown g known.old }
    ensures ok { IfOk result (λ s. Advances (with_frame (frames.ForallDomain name domain range) typer.old) typer.new (states.Typed typed) s purse.old.left purse.new.left) }
    ensures err { IfErr result (λ h. Halts (with_frame (frames.ForallDomain name domain range) typer.old) (states.Typed typed) purse.old.left h) }
    ensures known { OnOk result ((g : ℕ → Core) → Models typer.new.codes g → IsKnown g known.new) }
{
    let Some(universe) = universe_of(&typer.codes, typed) else {
        return Ok(refuse(alloc, rules::FORALL_DOMAIN));
    };
    let normal = shared_normal(alloc, typer, known, domain, purse)?;
    let number = next_number(&typer.levels)?;
    enter(alloc, typer, number, normal, Frame::ForallRange(universe))?;
    Ok(State::Type(range))
}

/// The universe of a ∀ whose domain and range are in these.
fn function_universe(domain: Builtin, range: Builtin) -> Builtin
    ensures { result ≡ function_check domain range }
{
    match (domain, range) {
        (_, Builtin::TypeConst | Builtin::Sort) => range,
        (Builtin::Sort, _) => domain,
        (_, Builtin::Kind) => range,
        _ => domain,
    }
}

/// The range of a ∀ has a type: that of the ∀ is a universe.
pub(crate) fn forall_range(
    alloc: Global,
    typer: &mut Typer,
    universe: Builtin,
    typed: CodeId,
    purse: &Purse,
) -> Result<State, NormFault>
    requires ready { IsReady (with_frame (frames.ForallRange universe) typer.old) (states.Typed typed) }
    ensures ok { IfOk result (λ s. Advances (with_frame (frames.ForallRange universe) typer.old) typer.new (states.Typed typed) s purse.now.left purse.now.left) }
    ensures err { IfErr result (λ h. Halts (with_frame (frames.ForallRange universe) typer.old) (states.Typed typed) purse.now.left h) }
{
    leave(typer);
    match universe_of(&typer.codes, typed) {
        None => Ok(refuse(alloc, rules::FORALL_RANGE)),
        Some(range) => {
            let found = constant(alloc, &mut typer.codes, function_universe(universe, range))?;
            Ok(State::Typed(found))
        }
    }
}
