//! The parts of a node are typed one after the other, and then its rule is followed.

ghost use Rattle.std.specs.Prelude.{◌≡◌, ◌<◌, ◌+◌, IfOk, IfErr};
ghost use Rattle.dh_syntax.specs.declared.faults.NormFault.TheVariants.{Memory};
ghost use Rattle.dh_store.specs.Cells.{code_core, AreCoded, AreKidsBelow};
ghost use Rattle.dh_store.specs.Growth.{count};
ghost use Rattle.dh_infer.specs.Inside.Machine.{Advances, Halts, IsPlainNode, IsReady, with_frame};
ghost use Rattle.dh_infer.specs.Inside.Scopes.{AreEntriesThere};
ghost use Rattle.dh_infer.specs.Inside.Turns.{IsAnnotation, IsTurn, IsTurnOf, IsUntyped};
ghost use Rattle.dh_infer.specs.declared.frames.Frame.TheVariants as of_frames;
ghost use Rattle.dh_infer.specs.declared.frames.State.TheVariants as states;

use crate::frames::{Entry, Frame, State, Typer};
use crate::piles::Pile;
use crate::sorts::is_sort;
use dh_store::{CodeId, CodeKid, Codes};
use dh_syntax::{NormFault, Op, Purse};
use dh_types::{Found, shown};

/// What is done with the part that comes next of a node.
#[derive(Clone, Copy)]
pub(crate) enum Turn {
    /// There is none.
    Done,
    /// It is an annotation that is the constant `Sort`, which has no type.
    Skip,
    /// It is typed.
    Type(CodeId),
}

/// Whether the part with this number is an annotation.
fn is_annotation(op: &Op, at: u32) -> bool
    ensures { IsAnnotation op.now at result }
{
    match op {
        Op::Let(typed) => *typed && at == 0,
        Op::EmptyList => at == 0,
        Op::Annot => at == 1,
        Op::ToMap(annotated) => *annotated && at == 1,
        Op::Merge(annotated) => *annotated && at == 2,
        _ => false,
    }
}

/// Whether the part with this number, which is this code, is an annotation that is the constant `Sort`.
fn is_untyped(codes: &Codes, scope: &Pile<Entry>, op: &Op, at: u32, code: CodeId) -> bool
    requires coded { AreCoded codes.now }
    requires entries { AreEntriesThere (count codes.now) scope.now }
    requires there { code < count codes.now }
    ensures { IsUntyped codes.now scope.now op.now at code result }
{
    if is_annotation(op, at) {
        is_sort(codes, scope, code)
    } else {
        false
    }
}

/// What is done with the part with this number of a node with this operator and these parts.
fn turn_of(codes: &Codes, scope: &Pile<Entry>, op: &Op, kids: &[CodeKid], at: u32) -> Turn
    requires coded { AreCoded codes.now }
    requires entries { AreEntriesThere (count codes.now) scope.now }
    requires there { AreKidsBelow (count codes.now) kids.now }
    ensures { IsTurnOf codes.now scope.now op.now kids.now at result }
{
    match kids.get(at as usize) {
        Some(kid) => {
            if is_untyped(codes, scope, op, at, kid.code) {
                Turn::Skip
            } else {
                Turn::Type(kid.code)
            }
        }
        None => Turn::Done,
    }
}

/// What is done with the part with this number of a code.
fn turn_at(codes: &Codes, scope: &Pile<Entry>, code: CodeId, at: u32) -> Turn
    requires coded { AreCoded codes.now }
    requires entries { AreEntriesThere (count codes.now) scope.now }
    requires node { IsPlainNode (code_core codes.now) code }
    ensures { IsTurn codes.now scope.now code at result }
{
    match shown(codes, code) {
        Some((op, kids)) => turn_of(codes, scope, op, kids, at),
        None => unreachable!(),
    }
}

/// The number of the part behind this one.
fn next_number(at: u32) -> Result<u32, NormFault>
    ensures ok { IfOk result (λ n. n ≡ at + 1) }
    ensures err { IfErr result (λ h. h ≡ Memory) }
{
    at.checked_add(1).ok_or(NormFault::Memory)
}

/// The parts of a node from a place on are typed, where those before it have these types.
pub(crate) fn next_part(
    typer: &mut Typer,
    purse: &Purse,
    code: CodeId,
    at: u32,
    types: Vec<CodeId>,
) -> Result<State, NormFault>
    requires ready { IsReady typer.old (states.Parts code at types) }
    ensures ok { IfOk result (λ s. Advances typer.old typer.new (states.Parts code at types) s purse.now.left purse.now.left) }
    ensures err { IfErr result (λ h. Halts typer.old (states.Parts code at types) purse.now.left h) }
{
    match turn_at(&typer.codes, &typer.scope, code, at) {
        Turn::Done => Ok(State::Rule(
            code,
            types,
            Found {
                first: None,
                second: None,
                third: None,
                first_universe: None,
                second_universe: None,
            },
        )),
        Turn::Skip => Ok(State::Parts(code, next_number(at)?, types)),
        Turn::Type(part) => {
            typer.frames.push(Frame::Part(code, at, types))?;
            Ok(State::Type(part))
        }
    }
}

/// The type of the part with this number was found.
pub(crate) fn part_typed(
    typer: &Typer,
    purse: &Purse,
    code: CodeId,
    at: u32,
    types: Vec<CodeId>,
    typed: CodeId,
) -> Result<State, NormFault>
    requires ready { IsReady (with_frame (of_frames.Part code at types) typer.now) (states.Typed typed) }
    ensures ok { IfOk result (λ s. Advances (with_frame (of_frames.Part code at types) typer.now) typer.now (states.Typed typed) s purse.now.left purse.now.left) }
    ensures err { IfErr result (λ h. Halts (with_frame (of_frames.Part code at types) typer.now) (states.Typed typed) purse.now.left h) }
{
    let mut types = types;
    let next = next_number(at)?;
    types.push(typed)?;
    Ok(State::Parts(code, next, types))
}
