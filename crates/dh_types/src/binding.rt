//! A type below a binder of its own, and a body with its argument put in.

ghost use Rattle.std.specs.Prelude.{◌<◌, IfOk};
ghost use Rattle.dh_syntax.specs.Names.Nameless.{first, sub};
ghost use Rattle.dh_store.specs.Cells.{code_core, AreCoded};
ghost use Rattle.dh_store.specs.Growth.{count};
ghost use Rattle.dh_types.specs.Binding.{bound_in};
ghost use Rattle.dh_types.specs.Closed.{IsClosed, IsClosedBelow};
ghost use Rattle.dh_types.specs.Growing.{Grows, Stands};

use crate::changes::{Change, changed};
use dh_store::{CodeId, Codes};
use std::alloc::{AllocError, Global};

/// The code of a type below one binder, which is that of the variable of the context with this number. A part that does not
/// mention the variable is itself.
pub fn bound_in(
    alloc: Global,
    codes: &mut Codes,
    id: CodeId,
    variable: u32,
) -> Result<CodeId, AllocError>
    requires coded { AreCoded codes.old }
    requires there { id < count codes.old }
    ensures grows { Grows codes.old codes.new }
    ensures made { IfOk result (λ c. Stands codes.new c (bound_in variable (code_core codes.old id))) }
    ensures closed { IsClosed (code_core codes.old id) → IfOk result (λ c. IsClosedBelow (code_core codes.new c)) }
{
    changed(alloc, codes, Change::Binds(variable), id)
}

/// The code of a body that stands below one binder, with an argument in the place of the variable of that binder. A part that
/// does not mention the variable is itself.
pub fn opened(
    alloc: Global,
    codes: &mut Codes,
    body: CodeId,
    argument: CodeId,
) -> Result<CodeId, AllocError>
    requires coded { AreCoded codes.old }
    requires body { body < count codes.old }
    requires argument { argument < count codes.old }
    requires body_closed { IsClosedBelow (code_core codes.old body) }
    requires argument_closed { IsClosed (code_core codes.old argument) }
    ensures grows { Grows codes.old codes.new }
    ensures made { IfOk result (λ c. Stands codes.new c (sub (first (code_core codes.old argument)) (code_core codes.old body))) }
    ensures closed { IfOk result (λ c. IsClosed (code_core codes.new c)) }
{
    changed(alloc, codes, Change::Puts(argument), body)
}
