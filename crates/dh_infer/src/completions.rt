//! `t::r`, which is typed as the longer expression that it stands for.

ghost use Rattle.std.specs.Prelude.{◌<◌, codes as chars, IfOk, IfErr};
ghost use Rattle.dh_syntax.specs.Expressions.Forms as form;
ghost use Rattle.dh_store.specs.Cells.{code_core, AreCoded};
ghost use Rattle.dh_store.specs.Growth.{count};
ghost use Rattle.dh_types.specs.Growing.{Grows, Stands};
ghost use Rattle.dh_infer.specs.Inside.Machine.{Advances, Halts, IsReady, with_frame};
ghost use Rattle.dh_infer.specs.Inside.Rests.{longer};
ghost use Rattle.dh_infer.specs.declared.frames.Frame.TheVariants as of_frames;
ghost use Rattle.dh_infer.specs.declared.frames.State.TheVariants as states;

use crate::frames::{Frame, State, Typer};
use dh_store::{CodeId, Codes};
use dh_syntax::{BinOp, Label, NormFault, Op, Purse};
use dh_types::plain_node;
use std::alloc::{AllocError, Global};

/// Adds the selection of a label from a code.
fn selection(
    alloc: Global,
    codes: &mut Codes,
    code: CodeId,
    label: &str,
) -> Result<CodeId, AllocError>
    requires coded { AreCoded codes.old }
    requires there { code < count codes.old }
    ensures grows { Grows codes.old codes.new }
    ensures made { IfOk result (λ c. Stands codes.new c (form.field (code_core codes.old code) label.now)) }
{
    let label = Label::new(alloc, label)?;
    plain_node(alloc, codes, Op::Field(label), &[code])
}

/// Adds `(t.default ⫽ r) : t.Type`, where `typed` is t and `value` is r.
fn longer(
    alloc: Global,
    codes: &mut Codes,
    typed: CodeId,
    value: CodeId,
) -> Result<CodeId, AllocError>
    requires coded { AreCoded codes.old }
    requires typed { typed < count codes.old }
    requires value { value < count codes.old }
    ensures grows { Grows codes.old codes.new }
    ensures made { IfOk result (λ c. Stands codes.new c (longer (code_core codes.old typed) (code_core codes.old value))) }
{
    let default = selection(alloc, codes, typed, "default")?;
    let annotation = selection(alloc, codes, typed, "Type")?;
    let joined = plain_node(alloc, codes, Op::Bin(BinOp::Prefer), &[default, value])?;
    plain_node(alloc, codes, Op::Annot, &[joined, annotation])
}

/// The type of the type of a completion was found: its record is typed.
pub(crate) fn completed_type_typed(
    typer: &mut Typer,
    purse: &Purse,
    typed: CodeId,
    value: CodeId,
    found: CodeId,
) -> Result<State, NormFault>
    requires ready { IsReady (with_frame (of_frames.CompletedType typed value) typer.old) (states.Typed found) }
    ensures ok { IfOk result (λ s. Advances (with_frame (of_frames.CompletedType typed value) typer.old) typer.new (states.Typed found) s purse.now.left purse.now.left) }
    ensures err { IfErr result (λ h. Halts (with_frame (of_frames.CompletedType typed value) typer.old) (states.Typed found) purse.now.left h) }
{
    typer.frames.push(Frame::CompletedRecord(typed, value))?;
    Ok(State::Type(value))
}

/// The type of the record of a completion was found: the longer expression is typed.
pub(crate) fn completed_record_typed(
    alloc: Global,
    typer: &mut Typer,
    purse: &Purse,
    typed: CodeId,
    value: CodeId,
    found: CodeId,
) -> Result<State, NormFault>
    requires ready { IsReady (with_frame (of_frames.CompletedRecord typed value) typer.old) (states.Typed found) }
    ensures ok { IfOk result (λ s. Advances (with_frame (of_frames.CompletedRecord typed value) typer.old) typer.new (states.Typed found) s purse.now.left purse.now.left) }
    ensures err { IfErr result (λ h. Halts (with_frame (of_frames.CompletedRecord typed value) typer.old) (states.Typed found) purse.now.left h) }
{
    let code = longer(alloc, &mut typer.codes, typed, value)?;
    typer.frames.push(Frame::Completion)?;
    Ok(State::Type(code))
}

/// The type of the longer expression was found: it is that of the completion.
pub(crate) fn completion_typed(typer: &Typer, purse: &Purse, found: CodeId) -> State
    requires ready { IsReady (with_frame of_frames.Completion typer.now) (states.Typed found) }
    ensures { Advances (with_frame of_frames.Completion typer.now) typer.now (states.Typed found) result purse.now.left purse.now.left }
{
    State::Typed(found)
}
