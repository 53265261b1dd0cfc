//! What a rule of this group answers, before the type that it makes is made.

ghost use Rattle.std.specs.Prelude.{◌≡◌, IfOk};
ghost use Rattle.dh_store.specs.Cells.{code_core, AreCoded};
ghost use Rattle.dh_store.specs.Growth.{count};
ghost use Rattle.dh_types.specs.Following.{course_of};
ghost use Rattle.dh_types.specs.Growing.{Grows};
ghost use Rattle.dh_types.specs.There.{IsStepThere};
ghost use Rattle.dh_infer_ops.specs.Drafts.{draft_of, IsDraftBelow};

use dh_store::{CodeId, Codes};
use dh_syntax::Builtin;
use dh_types::{Step, applied, constant};
use std::alloc::{AllocError, Global};

/// The answer of a rule.
#[derive(Clone, Copy)]
pub(crate) enum Draft {
    Takes(CodeId),
    /// The type is this built-in.
    TakesConstant(Builtin),
    /// The type is the normal form of this built-in applied to the code.
    FormsApplied(Builtin, CodeId),
    Refuses(u8),
    WantsNormal(u32),
    WantsUniverse(u32),
}

/// The answer, with the type that it makes.
pub(crate) fn step(alloc: Global, codes: &mut Codes, draft: Draft) -> Result<Step, AllocError>
    requires coded { AreCoded codes.old }
    requires there { IsDraftBelow (count codes.old) draft }
    ensures grows { Grows codes.old codes.new }
    ensures step { IfOk result (λ s. course_of (code_core codes.new) s ≡ draft_of (code_core codes.old) draft) }
    ensures there { IfOk result (λ s. IsStepThere codes.new s) }
{
    match draft {
        Draft::Takes(code) => Ok(Step::Takes(code)),
        Draft::TakesConstant(builtin) => Ok(Step::Takes(constant(alloc, codes, builtin)?)),
        Draft::FormsApplied(builtin, code) => {
            Ok(Step::Forms(applied(alloc, codes, builtin, code)?))
        }
        Draft::Refuses(rule) => Ok(Step::Refuses(rule)),
        Draft::WantsNormal(part) => Ok(Step::WantsNormal(part)),
        Draft::WantsUniverse(part) => Ok(Step::WantsUniverse(part)),
    }
}
