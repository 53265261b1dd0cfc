//! What the contracts do not say: that each rule answers where memory is at hand.

ghost use Rattle.std.specs.Prelude.{◌<◌, ℕ, IfSome};
ghost use Rattle.dh_syntax.specs.Names.Nameless.{Core};
ghost use Rattle.dh_store.specs.declared.codes.Codes.{Codes};
ghost use Rattle.dh_store.specs.Growth.{count};
ghost use Rattle.dh_types.specs.Closed.{IsClosed};
ghost use Rattle.dh_types.specs.ClosedSteps.{IsFoundClosed};
ghost use Rattle.dh_types.specs.There.{IsFoundThere};

use crate::operator_step;
use dh_store::{CodeId, Codes};
use dh_syntax::{BinOp, Builtin, Many, Op};
use dh_types::{Found, Step, constant};
use std::alloc::{AllocError, Global};
use std::test::Fail;

/// What is known beside the types of a node's parts: one normal form and one universe for all parts.
fn known(normal: Option<CodeId>, universe: Option<Option<Builtin>>) -> Found
    ensures there { (cs : Codes) → IfSome normal (λ c. c < count cs) → IsFoundThere cs result }
    ensures closed { (f : ℕ → Core) → IfSome normal (λ c. IsClosed (f c)) → IsFoundClosed f result }
{
    Found {
        first: normal,
        second: normal,
        third: normal,
        first_universe: universe,
        second_universe: universe,
    }
}

/// How far the rule of a node with one part goes that has this type, and this normal form.
fn one(alloc: Global, op: Op, t: Builtin, normal: Builtin) -> Result<Option<Step>, AllocError> {
    let mut codes = Codes::new(alloc)?;
    let t = constant(alloc, &mut codes, t)?;
    let normal = constant(alloc, &mut codes, normal)?;
    let found = known(Some(normal), Some(Some(Builtin::TypeConst)));
    operator_step(alloc, &mut codes, &found, &op, &[t])
}

/// How far the rule of a node with two parts goes that have these types, where this universe is known, or none.
fn two(
    alloc: Global,
    op: Op,
    l: Builtin,
    r: Builtin,
    universe: Option<Option<Builtin>>,
) -> Result<Option<Step>, AllocError> {
    let mut codes = Codes::new(alloc)?;
    let l = constant(alloc, &mut codes, l)?;
    let r = constant(alloc, &mut codes, r)?;
    operator_step(alloc, &mut codes, &known(None, universe), &op, &[l, r])
}

/// The number of the rule that fails.
fn refusal(step: Option<Step>) -> Option<u8> {
    match step {
        Some(Step::Refuses(rule)) => Some(rule),
        _ => None,
    }
}

/// Whether a type is found.
fn is_typed(step: Option<Step>) -> bool {
    matches!(step, Some(Step::Takes(_)) | Some(Step::Forms(_)))
}

#[test]
fn operators(rt: HostRuntime) -> Result<(), Fail> {
    let alloc = rt.alloc();
    let natural = Builtin::Natural;
    let text = Builtin::Text;
    let in_type = Some(Some(Builtin::TypeConst));
    let sum = two(alloc, Op::Bin(BinOp::Plus), natural, natural, None)?;
    assert!(rt; is_typed(sum));
    let left = two(alloc, Op::Bin(BinOp::Plus), text, natural, None)?;
    assert!(rt; refusal(left) == Some(13));
    let right = two(alloc, Op::Bin(BinOp::Plus), natural, text, None)?;
    assert!(rt; refusal(right) == Some(14));
    let same = two(alloc, Op::Bin(BinOp::Equivalent), text, text, in_type)?;
    assert!(rt; is_typed(same));
    let sides = two(alloc, Op::Bin(BinOp::Equivalent), text, natural, in_type)?;
    assert!(rt; refusal(sides) == Some(50));
    let no_universe = two(alloc, Op::Bin(BinOp::Equivalent), text, text, Some(None))?;
    assert!(rt; refusal(no_universe) == Some(51));
    Ok(())
}

#[test]
fn lists(rt: HostRuntime) -> Result<(), Fail> {
    let alloc = rt.alloc();
    let natural = Builtin::Natural;
    let text = Builtin::Text;
    let in_type = Some(Some(Builtin::TypeConst));
    let list = two(alloc, Op::List, natural, natural, in_type)?;
    assert!(rt; is_typed(list));
    let wanted = two(alloc, Op::List, natural, natural, None)?;
    assert!(rt; matches!(wanted, Some(Step::WantsUniverse(0))));
    let outside = two(alloc, Op::List, natural, natural, Some(None))?;
    assert!(rt; refusal(outside) == Some(16));
    let mixed = two(alloc, Op::List, natural, text, in_type)?;
    assert!(rt; refusal(mixed) == Some(17));
    let empty = one(alloc, Op::EmptyList, natural, natural)?;
    assert!(rt; refusal(empty) == Some(15));
    let some = one(alloc, Op::Some, natural, natural)?;
    assert!(rt; is_typed(some));
    let spliced = one(alloc, Op::Text(Many::new(alloc)), natural, natural)?;
    assert!(rt; refusal(spliced) == Some(46));
    Ok(())
}

#[test]
fn assertions_and_annotations(rt: HostRuntime) -> Result<(), Fail> {
    let alloc = rt.alloc();
    let natural = Builtin::Natural;
    let annotated = one(alloc, Op::Annot, natural, natural)?;
    assert!(rt; is_typed(annotated));
    let differs = one(alloc, Op::Annot, natural, Builtin::Text)?;
    assert!(rt; refusal(differs) == Some(52));
    let no_type = one(alloc, Op::Assert, natural, natural)?;
    assert!(rt; refusal(no_type) == Some(47));
    let no_equivalence = one(alloc, Op::Assert, Builtin::TypeConst, natural)?;
    assert!(rt; refusal(no_equivalence) == Some(48));
    Ok(())
}
