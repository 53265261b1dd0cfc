//! The type of a fold over a natural number.

ghost use Rattle.std.specs.Prelude.{IfOk};
ghost use Rattle.dh_store.specs.Cells.{AreCoded};
ghost use Rattle.dh_types.specs.Growing.{Grows, Stands};
ghost use Rattle.dh_builtin_types.specs.Shapes.{counting, counting_steps};

use crate::pieces::{named, over, variables};
use dh_store::{CodeId, Codes};
use dh_syntax::Builtin;
use std::alloc::{AllocError, Global};

/// `∀(succ : natural → natural) → ∀(zero : natural) → natural`
fn counting_steps(alloc: Global, codes: &mut Codes) -> Result<CodeId, AllocError>
    requires coded { AreCoded codes.old }
    ensures grows { Grows codes.old codes.new }
    ensures made { IfOk result (λ c. Stands codes.new c counting_steps) }
{
    let step = variables(alloc, codes, "_", 0, 1)?;
    let rest = variables(alloc, codes, "zero", 1, 2)?;
    named(alloc, codes, "succ", step, rest)
}

/// `∀(natural : Type) → ∀(succ : natural → natural) → ∀(zero : natural) → natural`
pub(crate) fn counting(alloc: Global, codes: &mut Codes) -> Result<CodeId, AllocError>
    requires coded { AreCoded codes.old }
    ensures grows { Grows codes.old codes.new }
    ensures made { IfOk result (λ c. Stands codes.new c counting) }
{
    let steps = counting_steps(alloc, codes)?;
    over(alloc, codes, "natural", Builtin::TypeConst, steps)
}
