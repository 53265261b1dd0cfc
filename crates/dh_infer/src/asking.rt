//! The rule of a node is followed one step: to a type, to a refusal, or to what it wants to know of a part.

ghost use Rattle.std.specs.Prelude.{◌≡◌, ◌<◌, ℕ, length, map, IfOk, IfErr, IfSome, Some, slice_get, OnOk};
ghost use Rattle.std.specs.Option.{option_map};
ghost use Rattle.dh_syntax.specs.Names.Nameless.{Core, sub};
ghost use Rattle.dh_store.specs.Cells.{code_core, AreBelow, AreCoded};
ghost use Rattle.dh_store.specs.Growth.{count};
ghost use Rattle.dh_types.specs.ClosedSteps.{AreTypesClosed, IsFoundClosed};
ghost use Rattle.dh_types.specs.Following.{course_of, facts_of, follow};
ghost use Rattle.dh_types.specs.Growing.{Grows};
ghost use Rattle.dh_types.specs.There.{IsFoundThere, IsStepThere};
ghost use Rattle.dh_types.specs.declared.steps.Step.TheVariants as steps;
ghost use Rattle.dh_typerows.specs.Groups.{IsLabelled};
ghost use Rattle.dh_infer.specs.Inside.Known.{IsKnown};
ghost use Rattle.dh_infer.specs.Inside.Machine.{Advances, Halts, IsPlainNode, IsReady, with_frame};
ghost use Rattle.dh_infer.specs.Inside.Rests.{bodies_of, op_of, rule_of, IsStepOf};
ghost use Rattle.dh_infer.specs.Inside.Scopes.{Models};
ghost use Rattle.dh_infer.specs.Inside.Turns.{code_at};
ghost use Rattle.dh_infer.specs.declared.frames.Frame.TheVariants as of_frames;
ghost use Rattle.dh_infer.specs.declared.frames.State.TheVariants as states;

use crate::beginnings::refuse;
use crate::founds::{with_normal, with_universe};
use crate::frames::{Frame, State, Typer};
use crate::known::{Known, known_form};
use crate::normals::normal_in_scope;
use dh_infer_ops::operator_step;
use dh_store::{CodeId, CodeKid, Codes};
use dh_syntax::{NormFault, Op, Purse};
use dh_typerows::row_step;
use dh_types::{Found, Step, rules, shown, universe_of};
use std::alloc::{AllocError, Global};

/// The units of a typing aside.
const PURSE_ASIDE: u64 = 16_777_216;

/// The operator of a code that is a node.
fn operator_of(alloc: Global, codes: &Codes, code: CodeId) -> Result<Op, AllocError>
    requires coded { AreCoded codes.now }
    requires node { IsPlainNode (code_core codes.now) code }
    ensures { IfOk result (λ op. op ≡ op_of (code_core codes.now code)) }
{
    match shown(codes, code) {
        Some((op, _kids)) => op.copied(alloc),
        None => unreachable!(),
    }
}

/// The part with this number, of these.
fn code_at(kids: &[CodeKid], part: u32) -> Option<CodeId>
    ensures { result ≡ code_at kids.now part }
{
    match kids.get(part as usize) {
        Some(kid) => Some(kid.code),
        None => None,
    }
}

/// The type with this number, of these.
pub(crate) fn type_at(types: &[CodeId], part: u32) -> Option<CodeId>
    ensures { result ≡ slice_get types.now part }
{
    match types.get(part as usize) {
        Some(typed) => Some(*typed),
        None => None,
    }
}

/// The part of a node with this number.
fn part_of(codes: &Codes, code: CodeId, part: u32) -> Option<CodeId>
    requires coded { AreCoded codes.now }
    requires there { code < count codes.now }
    requires node { IsPlainNode (code_core codes.now) code }
    ensures part { (g s : ℕ → Core) → Models codes.now g → slice_get (bodies_of (sub s (g code))) part ≡ option_map (λ c. sub s (g c)) result }
    ensures there { IfSome result (λ c. c < count codes.now) }
{
    match shown(codes, code) {
        Some((_op, kids)) => code_at(kids, part),
        None => unreachable!(),
    }
}

/// How far the rule of a node goes, by the types of its parts and what is known beside them; none for a node without a rule.
fn group_step(
    alloc: Global,
    codes: &mut Codes,
    op: &Op,
    types: &[CodeId],
    found: &Found,
) -> Result<Option<Step>, AllocError>
    requires coded { AreCoded codes.old }
    requires found { IsFoundThere codes.old found.now }
    requires types { AreBelow (count codes.old) types.now }
    requires labelled { IsLabelled op.now (length types.now) }
    requires closed { AreTypesClosed (code_core codes.old) types.now }
    requires found_closed { IsFoundClosed (code_core codes.old) found.now }
    ensures grows { Grows codes.old codes.new }
    ensures rule { IfOk result (λ s. option_map (course_of (code_core codes.new)) s ≡ option_map (follow (facts_of (code_core codes.old) found.now)) (rule_of op.now (map (code_core codes.old) types.now))) }
    ensures there { IfOk result (λ s. IfSome s (IsStepThere codes.new)) }
{
    match operator_step(alloc, codes, found, op, types)? {
        Some(step) => Ok(Some(step)),
        None => row_step(alloc, codes, found, op, types),
    }
}

/// How far the rule of a node goes in the machine.
fn step_of(
    alloc: Global,
    typer: &mut Typer,
    code: CodeId,
    types: &Vec<CodeId>,
    found: &Found,
) -> Result<Option<Step>, AllocError>
    requires ready { IsReady typer.old (states.Rule code types.now found.now) }
    ensures grows { Grows typer.old.codes typer.new.codes }
    ensures rest { typer.new ≡ record typer.old { codes = typer.new.codes } }
    ensures asked { IfOk result (λ o. (g : ℕ → Core) → Models typer.new.codes g → IsStepOf g code types.now.items found.now o) }
    ensures there { IfOk result (λ o. IfSome o (IsStepThere typer.new.codes)) }
{
    let op = operator_of(alloc, &typer.codes, code)?;
    group_step(alloc, &mut typer.codes, &op, types.as_slice(), found)
}

/// The type is the normal form of this one.
fn formed(
    alloc: Global,
    typer: &mut Typer,
    purse: &mut Purse,
    known: &mut Known,
    code: CodeId,
    types: &Vec<CodeId>,
    found: &Found,
    typed: CodeId,
) -> Result<State, NormFault>
    requires ready { IsReady typer.old (states.Rule code types.now found.now) }
    requires known { (g : ℕ → Core) → Models typer.old.codes g → IsKnown g known.old }
    requires asked { (g : ℕ → Core) → Models typer.old.codes g → IsStepOf g code types.now.items found.now (Some (steps.Forms typed)) }
    requires there { typed < count typer.old.codes }
    ensures ok { IfOk result (λ s. Advances typer.old typer.new (states.Rule code types.now found.now) s purse.old.left purse.new.left) }
    ensures err { IfErr result (λ h. Halts typer.old (states.Rule code types.now found.now) purse.old.left h) }
    ensures known { OnOk result ((g : ℕ → Core) → Models typer.new.codes g → IsKnown g known.new) }
{
    let normal = known_form(alloc, &mut typer.codes, known, typed, purse)?;
    Ok(State::Typed(normal))
}

/// The rule wants the normal form of a part.
fn normal_wanted(
    alloc: Global,
    typer: &mut Typer,
    purse: &mut Purse,
    code: CodeId,
    types: Vec<CodeId>,
    found: Found,
    part: u32,
) -> Result<State, NormFault>
    requires ready { IsReady typer.old (states.Rule code types found) }
    requires asked { (g : ℕ → Core) → Models typer.old.codes g → IsStepOf g code types.items found (Some (steps.WantsNormal part)) }
    ensures ok { IfOk result (λ s. Advances typer.old typer.new (states.Rule code types found) s purse.old.left purse.new.left) }
    ensures err { IfErr result (λ h. Halts typer.old (states.Rule code types found) purse.old.left h) }
{
    match part_of(&typer.codes, code, part) {
        Some(wanted) => {
            let normal = normal_in_scope(alloc, typer, wanted, purse)?;
            Ok(State::Rule(code, types, with_normal(found, part, normal)))
        }
        None => Ok(refuse(alloc, rules::NOT_RESOLVED)),
    }
}

/// The rule wants the universe that the type of a part is in.
fn universe_wanted(
    alloc: Global,
    typer: &mut Typer,
    purse: &mut Purse,
    code: CodeId,
    types: Vec<CodeId>,
    found: Found,
    part: u32,
) -> Result<State, NormFault>
    requires ready { IsReady typer.old (states.Rule code types found) }
    requires asked { (g : ℕ → Core) → Models typer.old.codes g → IsStepOf g code types.items found (Some (steps.WantsUniverse part)) }
    ensures ok { IfOk result (λ s. Advances typer.old typer.new (states.Rule code types found) s purse.old.left purse.new.left) }
    ensures err { IfErr result (λ h. Halts typer.old (states.Rule code types found) purse.old.left h) }
{
    match type_at(types.as_slice(), part) {
        Some(typed) => {
            typer
                .frames
                .push(Frame::Universe(code, part, types, found, purse.left))?;
            purse.left = PURSE_ASIDE;
            Ok(State::Type(typed))
        }
        None => Ok(refuse(alloc, rules::NOT_RESOLVED)),
    }
}

/// The rule of a node goes on by what it answered.
fn go_on(
    alloc: Global,
    typer: &mut Typer,
    purse: &mut Purse,
    known: &mut Known,
    code: CodeId,
    types: Vec<CodeId>,
    found: Found,
    step: Step,
) -> Result<State, NormFault>
    requires ready { IsReady typer.old (states.Rule code types found) }
    requires known { (g : ℕ → Core) → Models typer.old.codes g → IsKnown g known.old }
    requires asked { (g : ℕ → Core) → Models typer.old.codes g → IsStepOf g code types.items found (Some step) }
    requires there { IsStepThere typer.old.codes step }
    ensures ok { IfOk result (λ s. Advances typer.old typer.new (states.Rule code types found) s purse.old.left purse.new.left) }
    ensures err { IfErr result (λ h. Halts typer.old (states.Rule code types found) purse.old.left h) }
    ensures known { OnOk result ((g : ℕ → Core) → Models typer.new.codes g → IsKnown g known.new) }
{
    match step {
        Step::Takes(typed) => Ok(State::Typed(typed)),
        Step::Forms(typed) => formed(alloc, typer, purse, known, code, &types, &found, typed),
        Step::Refuses(rule) => Ok(refuse(alloc, rule)),
        Step::WantsNormal(part) => normal_wanted(alloc, typer, purse, code, types, found, part),
        Step::WantsUniverse(part) => universe_wanted(alloc, typer, purse, code, types, found, part),
    }
}

/// The rule of a node whose parts are typed is followed one step.
pub(crate) fn ask(
    alloc: Global,
    typer: &mut Typer,
    purse: &mut Purse,
    known: &mut Known,
    code: CodeId,
    types: Vec<CodeId>,
    found: Found,
) -> Result<State, NormFault>
    requires ready { IsReady typer.old (states.Rule code types found) }
    requires known { (g : ℕ → Core) → Models typer.old.codes g → IsKnown g known.old }
    ensures ok { IfOk result (λ s. Advances typer.old typer.new (states.Rule code types found) s purse.old.left purse.new.left) }
    ensures err { IfErr result (λ h. Halts typer.old (states.Rule code types found) purse.old.left h) }
    ensures known { OnOk result ((g : ℕ → Core) → Models typer.new.codes g → IsKnown g known.new) }
{
    match step_of(alloc, typer, code, &types, &found)? {
        Some(step) => go_on(alloc, typer, purse, known, code, types, found, step),
        None => Ok(refuse(alloc, rules::NOT_RESOLVED)),
    }
}

/// The type of the type of a part was found: the rule is followed further, with as many units as were left before.
pub(crate) fn universe_typed(
    typer: &Typer,
    purse: &mut Purse,
    code: CodeId,
    part: u32,
    types: Vec<CodeId>,
    found: Found,
    left: u64,
    typed: CodeId,
) -> State
    requires ready { IsReady (with_frame (of_frames.Universe code part types found left) typer.now) (states.Typed typed) }
    ensures { Advances (with_frame (of_frames.Universe code part types found left) typer.now) typer.now (states.Typed typed) result purse.old.left purse.new.left }
{
    purse.left = left;
    let universe = universe_of(&typer.codes, typed);
    State::Rule(code, types, with_universe(found, part, universe))
}
