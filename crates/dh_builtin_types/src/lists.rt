//! The types of built-ins on lists.

ghost use Rattle.std.specs.Prelude.{◌≡◌, ◌<◌, [], ◌∷◌, IfOk};
ghost use Rattle.dh_syntax.specs.declared.operators.Builtin.TheVariants as builtins;
ghost use Rattle.dh_syntax.specs.Expressions.Forms.{builtin, call, list_type};
ghost use Rattle.dh_store.specs.Cells.{code_core, AreCoded};
ghost use Rattle.dh_store.specs.Growth.{count};
ghost use Rattle.dh_types.specs.Growing.{Grows, Stands};
ghost use Rattle.dh_builtin_types.specs.Shapes.{arrow, entry_labels, for_each, indexed, listing, listing_steps, of_list, var};

use crate::pieces::{applied_to, arrow, named, over, variables};
use dh_store::{CodeId, Codes};
use dh_syntax::{Builtin, Label, Labels, Many};
use dh_types::{applied, bound, constant, record_type_of};
use std::alloc::{AllocError, Global};

/// `a → list → list`
fn cons_type(alloc: Global, codes: &mut Codes, a: u32) -> Result<CodeId, AllocError>
    requires coded { AreCoded codes.old }
    ensures grows { Grows codes.old codes.new }
    ensures made { IfOk result (λ c. Stands codes.new c (arrow (var a) (arrow (var 1) (var 2)))) }
{
    let element = bound(codes, a)?;
    let rest = variables(alloc, codes, "_", 1, 2)?;
    arrow(alloc, codes, element, rest)
}

/// `∀(cons : a → list → list) → ∀(nil : list) → list`
fn listing_steps(alloc: Global, codes: &mut Codes, a: u32) -> Result<CodeId, AllocError>
    requires coded { AreCoded codes.old }
    ensures grows { Grows codes.old codes.new }
    ensures made { IfOk result (λ c. Stands codes.new c (listing_steps a)) }
{
    let step = cons_type(alloc, codes, a)?;
    let rest = variables(alloc, codes, "nil", 1, 2)?;
    named(alloc, codes, "cons", step, rest)
}

/// `∀(list : Type) → ∀(cons : a → list → list) → ∀(nil : list) → list`, where a is the binder so many above `list`.
fn listing(alloc: Global, codes: &mut Codes, a: u32) -> Result<CodeId, AllocError>
    requires coded { AreCoded codes.old }
    ensures grows { Grows codes.old codes.new }
    ensures made { IfOk result (λ c. Stands codes.new c (listing a)) }
{
    let steps = listing_steps(alloc, codes, a)?;
    over(alloc, codes, "list", Builtin::TypeConst, steps)
}

/// `∀(a : Type) → List a → result`
fn of_list(alloc: Global, codes: &mut Codes, range: CodeId) -> Result<CodeId, AllocError>
    requires coded { AreCoded codes.old }
    requires there { range < count codes.old }
    ensures grows { Grows codes.old codes.new }
    ensures made { IfOk result (λ c. Stands codes.new c (of_list (code_core codes.old range))) }
{
    let list = applied_to(alloc, codes, Builtin::List, 0)?;
    let function = arrow(alloc, codes, list, range)?;
    over(alloc, codes, "a", Builtin::TypeConst, function)
}

/// The type of `List/build`.
pub(crate) fn build(alloc: Global, codes: &mut Codes) -> Result<CodeId, AllocError>
    requires coded { AreCoded codes.old }
    ensures grows { Grows codes.old codes.new }
    ensures made { IfOk result (λ c. Stands codes.new c (for_each (arrow (listing 1) (list_type (var 1))))) }
{
    let builder = listing(alloc, codes, 1)?;
    let list = applied_to(alloc, codes, Builtin::List, 1)?;
    let function = arrow(alloc, codes, builder, list)?;
    over(alloc, codes, "a", Builtin::TypeConst, function)
}

/// The type of `List/fold`.
pub(crate) fn fold(alloc: Global, codes: &mut Codes) -> Result<CodeId, AllocError>
    requires coded { AreCoded codes.old }
    ensures grows { Grows codes.old codes.new }
    ensures made { IfOk result (λ c. Stands codes.new c (of_list (listing 2))) }
{
    let folder = listing(alloc, codes, 2)?;
    of_list(alloc, codes, folder)
}

/// The type of `List/length`.
pub(crate) fn length(alloc: Global, codes: &mut Codes) -> Result<CodeId, AllocError>
    requires coded { AreCoded codes.old }
    ensures grows { Grows codes.old codes.new }
    ensures made { IfOk result (λ c. Stands codes.new c (of_list (builtin builtins.Natural))) }
{
    let natural = constant(alloc, codes, Builtin::Natural)?;
    of_list(alloc, codes, natural)
}

/// `∀(a : Type) → List a → f a` of a built-in, the type of `List/head`, `List/last` and `List/reverse`.
pub(crate) fn part(
    alloc: Global,
    codes: &mut Codes,
    function: Builtin,
) -> Result<CodeId, AllocError>
    requires coded { AreCoded codes.old }
    ensures grows { Grows codes.old codes.new }
    ensures made { IfOk result (λ c. Stands codes.new c (of_list (call function (var 1 ∷ [])))) }
{
    let range = applied_to(alloc, codes, function, 1)?;
    of_list(alloc, codes, range)
}

/// The labels `index` and `value`.
fn entry_labels(alloc: Global) -> Result<Labels, AllocError>
    ensures { IfOk result (λ xs. xs ≡ entry_labels) }
{
    let mut labels = Many::new(alloc);
    labels.push(Label::new(alloc, "index")?)?;
    labels.push(Label::new(alloc, "value")?)?;
    Ok(labels)
}

/// `{ index : Natural, value : a }`
fn entry(alloc: Global, codes: &mut Codes) -> Result<CodeId, AllocError>
    requires coded { AreCoded codes.old }
    ensures grows { Grows codes.old codes.new }
    ensures made { IfOk result (λ c. Stands codes.new c indexed) }
{
    let labels = entry_labels(alloc)?;
    let index = constant(alloc, codes, Builtin::Natural)?;
    let value = bound(codes, 1)?;
    record_type_of(alloc, codes, labels, &[index, value])
}

/// The type of `List/indexed`.
pub(crate) fn indexed(alloc: Global, codes: &mut Codes) -> Result<CodeId, AllocError>
    requires coded { AreCoded codes.old }
    ensures grows { Grows codes.old codes.new }
    ensures made { IfOk result (λ c. Stands codes.new c (of_list (list_type indexed))) }
{
    let entry = entry(alloc, codes)?;
    let range = applied(alloc, codes, Builtin::List, entry)?;
    of_list(alloc, codes, range)
}
