//! The types of built-ins on numbers and texts that take more than one argument or a function.

ghost use Rattle.std.specs.Prelude.{IfOk};
ghost use Rattle.dh_syntax.specs.declared.operators.Builtin.TheVariants as builtins;
ghost use Rattle.dh_syntax.specs.Expressions.Forms.{builtin};
ghost use Rattle.dh_store.specs.Cells.{AreCoded};
ghost use Rattle.dh_types.specs.Growing.{Grows, Stands};
ghost use Rattle.dh_builtin_types.specs.Shapes.{arrow as arrow_of, counting as counting_of, none_type, replace_type};

use crate::naturals::counting;
use crate::pieces::{applied_to, arrow, between, over};
use dh_store::{CodeId, Codes};
use dh_syntax::Builtin;
use dh_types::constant;
use std::alloc::{AllocError, Global};

/// The type of `None`.
pub(crate) fn none(alloc: Global, codes: &mut Codes) -> Result<CodeId, AllocError>
    requires coded { AreCoded codes.old }
    ensures grows { Grows codes.old codes.new }
    ensures made { IfOk result (λ c. Stands codes.new c none_type) }
{
    let optional = applied_to(alloc, codes, Builtin::Optional, 0)?;
    over(alloc, codes, "A", Builtin::TypeConst, optional)
}

/// The type of `Natural/fold`.
pub(crate) fn fold(alloc: Global, codes: &mut Codes) -> Result<CodeId, AllocError>
    requires coded { AreCoded codes.old }
    ensures grows { Grows codes.old codes.new }
    ensures made { IfOk result (λ c. Stands codes.new c (arrow_of (builtin builtins.Natural) counting_of)) }
{
    let folder = counting(alloc, codes)?;
    over(alloc, codes, "_", Builtin::Natural, folder)
}

/// The type of `Natural/build`.
pub(crate) fn build(alloc: Global, codes: &mut Codes) -> Result<CodeId, AllocError>
    requires coded { AreCoded codes.old }
    ensures grows { Grows codes.old codes.new }
    ensures made { IfOk result (λ c. Stands codes.new c (arrow_of counting_of (builtin builtins.Natural))) }
{
    let builder = counting(alloc, codes)?;
    let natural = constant(alloc, codes, Builtin::Natural)?;
    arrow(alloc, codes, builder, natural)
}

/// The type of `Natural/subtract`.
pub(crate) fn subtract(alloc: Global, codes: &mut Codes) -> Result<CodeId, AllocError>
    requires coded { AreCoded codes.old }
    ensures grows { Grows codes.old codes.new }
    ensures made { IfOk result (λ c. Stands codes.new c (arrow_of (builtin builtins.Natural) (arrow_of (builtin builtins.Natural) (builtin builtins.Natural)))) }
{
    let rest = between(alloc, codes, Builtin::Natural, Builtin::Natural)?;
    over(alloc, codes, "_", Builtin::Natural, rest)
}

/// The type of `Text/replace`.
pub(crate) fn replace(alloc: Global, codes: &mut Codes) -> Result<CodeId, AllocError>
    requires coded { AreCoded codes.old }
    ensures grows { Grows codes.old codes.new }
    ensures made { IfOk result (λ c. Stands codes.new c replace_type) }
{
    let text = constant(alloc, codes, Builtin::Text)?;
    let last = over(alloc, codes, "haystack", Builtin::Text, text)?;
    let rest = over(alloc, codes, "replacement", Builtin::Text, last)?;
    over(alloc, codes, "needle", Builtin::Text, rest)
}
