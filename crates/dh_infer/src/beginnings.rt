//! Where the typing of a code begins.

ghost use Rattle.std.specs.Prelude.{◌≡◌, ℕ, IfOk, IfErr};
ghost use Rattle.dh_syntax.specs.Names.Nameless.{Core};
ghost use Rattle.dh_syntax.specs.declared.faults.NormFault.TheVariants.{Memory};
ghost use Rattle.dh_store.specs.Growth.{count};
ghost use Rattle.dh_infer.specs.Inside.Forms.{IsForm, IsFormThere, IsLiteral};
ghost use Rattle.dh_infer.specs.Inside.Machine.{Advances, Halts, IsReady, IsRefusal, with_frame};
ghost use Rattle.dh_infer.specs.Inside.Scopes.{Models};
ghost use Rattle.dh_infer.specs.declared.forms.Form.TheVariants as of_forms;
ghost use Rattle.dh_infer.specs.declared.frames.State.TheVariants as states;

use crate::forms::{Form, form_of};
use crate::frames::{Failure, Frame, State, Typer};
use crate::sorts::is_sort;
use dh_builtin_types::type_of;
use dh_store::CodeId;
use dh_syntax::{Builtin, NormFault, Purse};
use dh_types::{constant, rules};
use std::alloc::Global;

/// The rule fails at the expression itself.
pub(crate) fn refuse(alloc: Global, rule: u8) -> State
    ensures { IsRefusal rule result }
{
    State::Failed(Failure {
        path: Vec::new(alloc),
        rule,
    })
}

/// A variable of a binder above.
fn variable(
    alloc: Global,
    typer: &mut Typer,
    purse: &Purse,
    code: CodeId,
    index: u32,
) -> Result<State, NormFault>
    requires ready { IsReady typer.old (states.Type code) }
    requires form { (g : ℕ → Core) → Models typer.old.codes g → IsForm g (g code) (of_forms.Bound index) }
    ensures ok { IfOk result (λ s. Advances typer.old typer.new (states.Type code) s purse.now.left purse.now.left) }
    ensures err { IfErr result (λ h. Halts typer.old (states.Type code) purse.now.left h) }
{
    match typer.scope.get(index as usize) {
        None => Ok(refuse(alloc, rules::UNBOUND_VARIABLE)),
        Some(entry) => match entry.typed {
            Some(typed) => Ok(State::Typed(typed)),
            None => {
                let value = entry.value;
                typer.frames.push(Frame::Used(index))?;
                Ok(State::Type(value))
            }
        },
    }
}

/// A variable that has a number.
fn level(
    alloc: Global,
    typer: &Typer,
    purse: &Purse,
    code: CodeId,
    number: u32,
) -> Result<State, NormFault>
    requires ready { IsReady typer.now (states.Type code) }
    requires form { (g : ℕ → Core) → Models typer.now.codes g → IsForm g (g code) (of_forms.Level number) }
    ensures ok { IfOk result (λ s. Advances typer.now typer.now (states.Type code) s purse.now.left purse.now.left) }
    ensures err { IfErr result (λ h. Halts typer.now (states.Type code) purse.now.left h) }
{
    let open = typer.levels.len();
    let at = number as usize;
    if at < open {
        match typer.levels.get(open - 1 - at) {
            Some(typed) => Ok(State::Typed(*typed)),
            None => Ok(refuse(alloc, rules::UNBOUND_VARIABLE)),
        }
    } else {
        Ok(refuse(alloc, rules::UNBOUND_VARIABLE))
    }
}

/// A variable that no binder binds.
fn free(alloc: Global, typer: &Typer, purse: &Purse, code: CodeId) -> State
    requires ready { IsReady typer.now (states.Type code) }
    requires form { (g : ℕ → Core) → Models typer.now.codes g → IsForm g (g code) of_forms.Free }
    ensures { Advances typer.now typer.now (states.Type code) result purse.now.left purse.now.left }
{
    refuse(alloc, rules::UNBOUND_VARIABLE)
}

/// A built-in.
fn builtin(
    alloc: Global,
    typer: &mut Typer,
    purse: &Purse,
    code: CodeId,
    builtin: Builtin,
) -> Result<State, NormFault>
    requires ready { IsReady typer.old (states.Type code) }
    requires form { (g : ℕ → Core) → Models typer.old.codes g → IsForm g (g code) (of_forms.Builtin builtin) }
    ensures ok { IfOk result (λ s. Advances typer.old typer.new (states.Type code) s purse.now.left purse.now.left) }
    ensures err { IfErr result (λ h. Halts typer.old (states.Type code) purse.now.left h) }
{
    match type_of(alloc, &mut typer.codes, builtin)? {
        Some(typed) => Ok(State::Typed(typed)),
        None => Ok(refuse(alloc, rules::SORT_HAS_NO_TYPE)),
    }
}

/// A literal, whose type is this built-in.
fn literal(
    alloc: Global,
    typer: &mut Typer,
    purse: &Purse,
    code: CodeId,
    builtin: Builtin,
) -> Result<State, NormFault>
    requires ready { IsReady typer.old (states.Type code) }
    requires form { (g : ℕ → Core) → Models typer.old.codes g → IsLiteral (g code) builtin }
    ensures ok { IfOk result (λ s. Advances typer.old typer.new (states.Type code) s purse.now.left purse.now.left) }
    ensures err { IfErr result (λ h. Halts typer.old (states.Type code) purse.now.left h) }
{
    let typed = constant(alloc, &mut typer.codes, builtin)?;
    Ok(State::Typed(typed))
}

/// A `let` with an annotation.
fn annotated_let(
    typer: &mut Typer,
    purse: &Purse,
    code: CodeId,
    annotation: CodeId,
    value: CodeId,
    body: CodeId,
) -> Result<State, NormFault>
    requires ready { IsReady typer.old (states.Type code) }
    requires form { (g : ℕ → Core) → Models typer.old.codes g → IsForm g (g code) (of_forms.LetTyped annotation value body) }
    requires there { IsFormThere (count typer.old.codes) (of_forms.LetTyped annotation value body) }
    ensures ok { IfOk result (λ s. Advances typer.old typer.new (states.Type code) s purse.now.left purse.now.left) }
    ensures err { IfErr result (λ h. Halts typer.old (states.Type code) purse.now.left h) }
{
    if is_sort(&typer.codes, &typer.scope, annotation) {
        typer.frames.push(Frame::LetValue(annotation, value, body))?;
        Ok(State::Type(value))
    } else {
        typer
            .frames
            .push(Frame::LetAnnotation(annotation, value, body))?;
        Ok(State::Type(annotation))
    }
}

/// A node whose first part to be typed is this one, and which waits for its type.
fn first_part(typer: &mut Typer, frame: Frame, part: CodeId) -> Result<State, NormFault>
    ensures ok { IfOk result (λ s. (s ≡ states.Type part) × (typer.new ≡ with_frame frame typer.old)) }
    ensures err { IfErr result (λ h. h ≡ Memory) }
{
    typer.frames.push(frame)?;
    Ok(State::Type(part))
}

/// The typing of a code begins.
pub(crate) fn begin(
    alloc: Global,
    typer: &mut Typer,
    purse: &Purse,
    code: CodeId,
) -> Result<State, NormFault>
    requires ready { IsReady typer.old (states.Type code) }
    ensures ok { IfOk result (λ s. Advances typer.old typer.new (states.Type code) s purse.now.left purse.now.left) }
    ensures err { IfErr result (λ h. Halts typer.old (states.Type code) purse.now.left h) }
{
    match form_of(&typer.codes, code) {
        Form::Bound(index) => variable(alloc, typer, purse, code, index),
        Form::Level(number) => level(alloc, typer, purse, code, number),
        Form::Free => Ok(free(alloc, typer, purse, code)),
        Form::Builtin(named) => builtin(alloc, typer, purse, code, named),
        Form::Bool => literal(alloc, typer, purse, code, Builtin::Bool),
        Form::Natural => literal(alloc, typer, purse, code, Builtin::Natural),
        Form::Integer => literal(alloc, typer, purse, code, Builtin::Integer),
        Form::Lambda(name, domain, body) => {
            let name = name.copied(alloc)?;
            first_part(typer, Frame::LambdaDomain(name, domain, body), domain)
        }
        Form::Forall(name, domain, range) => {
            let name = name.copied(alloc)?;
            first_part(typer, Frame::ForallDomain(name, domain, range), domain)
        }
        Form::Let(value, body) => first_part(typer, Frame::Value(value, body), value),
        Form::LetTyped(annotation, value, body) => {
            annotated_let(typer, purse, code, annotation, value, body)
        }
        Form::Application(function, argument) => {
            first_part(typer, Frame::Function(argument), function)
        }
        Form::Completion(typed, value) => {
            first_part(typer, Frame::CompletedType(typed, value), typed)
        }
        Form::Plain => Ok(State::Parts(code, 0, Vec::new(alloc))),
    }
}
