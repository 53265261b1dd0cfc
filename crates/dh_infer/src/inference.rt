//! The types of expressions.

ghost use Rattle.std.specs.Prelude.{◌≡◌, ◌<◌, ◌≤◌, ◌+◌, ◌^◌, ℕ, [], IfOk, IfErr};
ghost use Rattle.dh_syntax.specs.Expressions.Arity.{IsWellFormed};
ghost use Rattle.dh_syntax.specs.Expressions.Bridge.{term};
ghost use Rattle.dh_syntax.specs.Expressions.Nesting.{nesting};
ghost use Rattle.dh_syntax.specs.Limits.{most_nesting};
ghost use Rattle.dh_syntax.specs.Names.Indices.{IndicesBelow};
ghost use Rattle.dh_syntax.specs.Names.Nameless.{Core as CoreTree};
ghost use Rattle.dh_syntax.specs.Typing.Inference.{Has};
ghost use Rattle.dh_syntax.specs.Typing.NamedTyping.{IsTypeFault};
ghost use Rattle.dh_store.specs.Cells.{AreCoded};
ghost use Rattle.dh_terms.specs.Cores.{nameless};
ghost use Rattle.dh_infer.specs.NamedTypes.{IsTypeOf};
ghost use Rattle.dh_infer.specs.Inside.Debts.{whole};
ghost use Rattle.dh_infer.specs.Inside.Lettered.{lettered};
ghost use Rattle.dh_infer.specs.Inside.Levels.{IsOf};
ghost use Rattle.dh_infer.specs.Inside.Machine.{IsHalted};
ghost use Rattle.dh_infer.specs.Inside.Steps.{Ends, IsAnswer};
ghost use Rattle.dh_infer.specs.Inside.TypeAnswers.{Answers, AnswersFault, limit_fault};
ghost use Rattle.dh_infer.specs.declared.steps.Ending.TheVariants as endings;

use crate::frames::{Failure, State, Typer};
use crate::loads::load;
use crate::piles::Pile;
use crate::steps::{Ending, run};
use crate::unloads::unload;
use dh_norm::first_codes;
use dh_store::CodeId;
use dh_syntax::{Expr, Ill, MOST_NESTING, Many, NormFault, Purse, TypeFault};
use dh_terms::{Core, from_core, to_core};
use std::alloc::Global;

/// The fault of a typing that ends at a limit.
fn limit(fault: NormFault) -> TypeFault
    ensures { result ≡ limit_fault fault }
{
    match fault {
        NormFault::Wide => TypeFault::Wide,
        NormFault::Spent => TypeFault::Spent,
        NormFault::Deep => TypeFault::Deep,
        NormFault::Memory => TypeFault::Memory,
    }
}

/// The fault of a typing that the machine ends at a limit.
fn halted(fault: NormFault) -> TypeFault
    ensures { (units : ℕ) (e : CoreTree) → IsHalted (units, whole [] (lettered e)) fault → AnswersFault units e result }
{
    limit(fault)
}

/// The fault of a typing that ends at a place that has no type.
fn refusal(failure: Failure) -> TypeFault
    ensures { (units : ℕ) (e : CoreTree) (g : ℕ → CoreTree) (left : ℕ) → IsAnswer (units, whole [] (lettered e)) g left (endings.Failed failure) → AnswersFault units e result }
{
    let Failure { mut path, rule } = failure;
    path.reverse();
    TypeFault::Ill(Ill {
        path: Many::of(path),
        rule,
    })
}

/// The type that a code stands for, where it nests within the limit.
fn written(alloc: Global, typer: &Typer, purse: &Purse, typed: CodeId) -> Result<Core, TypeFault>
    requires coded { AreCoded typer.now.codes }
    ensures ok { IfOk result (λ t. (units : ℕ) (e : CoreTree) → Ends (units, whole [] (lettered e)) typer.now purse.now.left (endings.Typed typed) → Answers units e (Has (nameless t) purse.now.left)) }
    ensures formed { IfOk result (λ t. (units : ℕ) (e : CoreTree) → Ends (units, whole [] (lettered e)) typer.now purse.now.left (endings.Typed typed) → IsWellFormed (nameless t)) }
    ensures shallow { IfOk result (λ t. nesting (nameless t) ≤ most_nesting) }
    ensures err { IfErr result (λ f. (units : ℕ) (e : CoreTree) → Ends (units, whole [] (lettered e)) typer.now purse.now.left (endings.Typed typed) → AnswersFault units e f) }
{
    match unload(alloc, &typer.codes, typed, MOST_NESTING) {
        Ok(written) => Ok(written),
        Err(fault) => Err(limit(fault)),
    }
}

/// The type of a nameless expression in the empty context.
pub(crate) fn type_nameless(alloc: Global, e: &Core, purse: &mut Purse) -> Result<Core, TypeFault>
    requires formed { IsWellFormed (nameless e.now) }
    requires closed { IsOf 0 (lettered (nameless e.now)) }
    ensures ok { IfOk result (λ t. Answers purse.old.left (nameless e.now) (Has (nameless t) purse.new.left)) }
    ensures formed { IfOk result (λ t. IsWellFormed (nameless t)) }
    ensures shallow { IfOk result (λ t. nesting (nameless t) ≤ most_nesting) }
    ensures err { IfErr result (λ f. AnswersFault purse.old.left (nameless e.now) f) }
{
    let mut codes = first_codes(alloc)?;
    let code = load(alloc, &mut codes, e)?;
    let mut typer = Typer {
        codes,
        scope: Pile::new(alloc),
        levels: Pile::new(alloc),
        frames: Pile::new(alloc),
    };
    match run(alloc, &mut typer, purse, State::Type(code)) {
        Ok(Ending::Typed(typed)) => written(alloc, &typer, purse, typed),
        Ok(Ending::Failed(failure)) => Err(refusal(failure)),
        Err(fault) => Err(halted(fault)),
    }
}

/// The type of an expression in the empty context (the standard's "Type inference"), with the names of its binders, for at most the
/// units that it takes to find it. `Ill` comes only where the expression has no type, with the first place that has none and the
/// number of the rule that fails there. A limit is named only where it is licensed.
pub fn infer(alloc: Global, e: &Expr, purse: &mut Purse) -> Result<Expr, TypeFault>
    requires formed { IsWellFormed (term e.now) }
    requires shallow { nesting (term e.now) < 2 ^ 32 }
    requires indices { IndicesBelow (2 ^ 31) (term e.now) }
    ensures ok { IfOk result (λ t. IsTypeOf purse.old.left purse.new.left (term e.now) (term t)) }
    ensures formed { IfOk result (λ t. IsWellFormed (term t)) }
    ensures shallow { IfOk result (λ t. nesting (term t) ≤ most_nesting) }
    ensures indices { IfOk result (λ t. IndicesBelow (2 ^ 31 + most_nesting) (term t)) }
    ensures err { IfErr result (λ f. IsTypeFault [] purse.old.left (term e.now) f) }
{
    let core = to_core(alloc, e)?;
    let typed = type_nameless(alloc, &core, purse)?;
    let named = from_core(alloc, &typed)?;
    Ok(named)
}
