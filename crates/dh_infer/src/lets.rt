//! `let`: the value is typed, and its normal form stands for the variable in the body.

ghost use Rattle.std.specs.Prelude.{◌≡◌, ◌<◌, ℕ, IfOk, IfErr, OnOk};
ghost use Rattle.dh_syntax.specs.Names.Nameless.{Core};
ghost use Rattle.dh_infer.specs.Inside.Known.{IsKnown};
ghost use Rattle.dh_infer.specs.Inside.Machine.{Advances, Halts, IsReady, with_frame};
ghost use Rattle.dh_infer.specs.Inside.Scopes.{Models};
ghost use Rattle.dh_infer.specs.declared.frames.Frame.TheVariants as frames;
ghost use Rattle.dh_infer.specs.declared.frames.State.TheVariants as states;

use crate::beginnings::refuse;
use crate::frames::{Entry, Frame, State, Typer};
use crate::known::{Known, shared_normal};
use crate::normals::normal_in_scope;
use dh_store::CodeId;
use dh_syntax::{NormFault, Purse};
use dh_types::{rules, same};
use std::alloc::Global;

/// The value of a `let` without an annotation has a type.
pub(crate) fn value(
    typer: &Typer,
    value: CodeId,
    body: CodeId,
    typed: CodeId,
    purse: &Purse,
) -> State
    requires ready { IsReady (with_frame (frames.Value value body) typer.now) (states.Typed typed) }
    ensures { Advances (with_frame (frames.Value value body) typer.now) typer.now (states.Typed typed) result purse.now.left purse.now.left }
{
    State::Bind(value, body, 1)
}

/// The annotation of a `let` has a type: the value is typed.
pub(crate) fn let_annotation(
    typer: &mut Typer,
    annotation: CodeId,
    value: CodeId,
    body: CodeId,
    typed: CodeId,
    purse: &Purse,
) -> Result<State, NormFault>
    requires ready { IsReady (with_frame (frames.LetAnnotation annotation value body) typer.old) (states.Typed typed) }
    ensures ok { IfOk result (λ s. Advances (with_frame (frames.LetAnnotation annotation value body) typer.old) typer.new (states.Typed typed) s purse.now.left purse.now.left) }
    ensures err { IfErr result (λ h. Halts (with_frame (frames.LetAnnotation annotation value body) typer.old) (states.Typed typed) purse.now.left h) }
{
    typer.frames.push(Frame::LetValue(annotation, value, body))?;
    Ok(State::Type(value))
}

/// The value of a `let` with an annotation has a type: it is compared with the annotation's normal form.
pub(crate) fn let_value(
    alloc: Global,
    typer: &mut Typer,
    annotation: CodeId,
    value: CodeId,
    body: CodeId,
    typed: CodeId,
    purse: &mut Purse,
) -> Result<State, NormFault>
    requires ready { IsReady (with_frame (frames.LetValue annotation value body) typer.old) (states.Typed typed) }
    ensures ok { IfOk result (λ s. Advances (with_frame (frames.LetValue annotation value body) typer.old) typer.new (states.Typed typed) s purse.old.left purse.new.left) }
    ensures err { IfErr result (λ h. Halts (with_frame (frames.LetValue annotation value body) typer.old) (states.Typed typed) purse.old.left h) }
{
    let wanted = normal_in_scope(alloc, typer, annotation, purse)?;
    if same(alloc, &typer.codes, typed, wanted)? {
        Ok(State::Bind(value, body, 2))
    } else {
        Ok(refuse(alloc, rules::LET_ANNOTATION))
    }
}

/// The normal form of a value is to stand for the variable of a body, the part with this number.
pub(crate) fn bind(
    alloc: Global,
    typer: &mut Typer,
    known: &mut Known,
    value: CodeId,
    body: CodeId,
    part: u32,
    purse: &mut Purse,
) -> Result<State, NormFault>
    requires ready { IsReady typer.old (states.Bind value body part) }
    requires known { (g : ℕ → Core) → Models typer.old.codes g → IsKnown g known.old }
    ensures ok { IfOk result (λ s. Advances typer.old typer.new (states.Bind value body part) s purse.old.left purse.new.left) }
    ensures err { IfErr result (λ h. Halts typer.old (states.Bind value body part) purse.old.left h) }
    ensures known { OnOk result ((g : ℕ → Core) → Models typer.new.codes g → IsKnown g known.new) }
{
    let held = shared_normal(alloc, typer, known, value, purse)?;
    typer.frames.push(Frame::LetBody(part))?;
    typer.scope.push(Entry {
        value: held,
        typed: None,
        opened: false,
    })?;
    Ok(State::Type(body))
}

/// The body of a `let` has a type, which is that of the `let`.
pub(crate) fn let_body(typer: &mut Typer, part: u32, typed: CodeId, purse: &Purse) -> State
    requires ready { IsReady (with_frame (frames.LetBody part) typer.old) (states.Typed typed) }
    ensures { Advances (with_frame (frames.LetBody part) typer.old) typer.new (states.Typed typed) result purse.now.left purse.now.left }
{
    let _ = typer.scope.pop();
    State::Typed(typed)
}

/// The value of a variable has a type, which is kept for its further uses.
pub(crate) fn used(typer: &mut Typer, index: u32, typed: CodeId, purse: &Purse) -> State
    requires ready { IsReady (with_frame (frames.Used index) typer.old) (states.Typed typed) }
    ensures { Advances (with_frame (frames.Used index) typer.old) typer.new (states.Typed typed) result purse.now.left purse.now.left }
{
    let below = index as usize;
    match typer.scope.get(below) {
        Some(entry) => {
            let kept = Entry {
                typed: Some(typed),
                ..*entry
            };
            typer.scope.set(below, kept);
        }
        None => unreachable!(),
    }
    State::Typed(typed)
}
