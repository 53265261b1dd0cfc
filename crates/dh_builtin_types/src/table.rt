//! The table of the types of built-ins.

ghost use Rattle.std.specs.Prelude.{◌≡◌, ◌<◌, IfOk, IfSome};
ghost use Rattle.std.specs.Option.{option_map};
ghost use Rattle.dh_syntax.specs.Names.Nameless.{to_core};
ghost use Rattle.dh_syntax.specs.Typing.BuiltinTypes.{type_of};
ghost use Rattle.dh_store.specs.Cells.{code_core, AreCoded};
ghost use Rattle.dh_store.specs.Growth.{count};
ghost use Rattle.dh_types.specs.Closed.{IsClosed};
ghost use Rattle.dh_types.specs.Growing.{Grows};

use crate::pieces::between;
use crate::{functions, lists};
use dh_store::{CodeId, Codes};
use dh_syntax::Builtin;
use dh_types::constant;
use std::alloc::{AllocError, Global};

/// Adds the type of a built-in; none for `Sort`.
fn built(alloc: Global, codes: &mut Codes, builtin: Builtin) -> Result<Option<CodeId>, AllocError>
    requires coded { AreCoded codes.old }
    ensures grows { Grows codes.old codes.new }
    ensures core { IfOk result (λ t. option_map (code_core codes.new) t ≡ option_map to_core (type_of builtin)) }
    ensures there { IfOk result (λ t. IfSome t (λ c. c < count codes.new)) }
{
    let code = match builtin {
        Builtin::Sort => return Ok(None),
        Builtin::TypeConst => constant(alloc, codes, Builtin::Kind)?,
        Builtin::Kind => constant(alloc, codes, Builtin::Sort)?,
        Builtin::Bool => constant(alloc, codes, Builtin::TypeConst)?,
        Builtin::Natural => constant(alloc, codes, Builtin::TypeConst)?,
        Builtin::Integer => constant(alloc, codes, Builtin::TypeConst)?,
        Builtin::Text => constant(alloc, codes, Builtin::TypeConst)?,
        Builtin::List => between(alloc, codes, Builtin::TypeConst, Builtin::TypeConst)?,
        Builtin::Optional => between(alloc, codes, Builtin::TypeConst, Builtin::TypeConst)?,
        Builtin::None => functions::none(alloc, codes)?,
        Builtin::NaturalFold => functions::fold(alloc, codes)?,
        Builtin::NaturalBuild => functions::build(alloc, codes)?,
        Builtin::NaturalIsZero => between(alloc, codes, Builtin::Natural, Builtin::Bool)?,
        Builtin::NaturalEven => between(alloc, codes, Builtin::Natural, Builtin::Bool)?,
        Builtin::NaturalOdd => between(alloc, codes, Builtin::Natural, Builtin::Bool)?,
        Builtin::NaturalToInteger => between(alloc, codes, Builtin::Natural, Builtin::Integer)?,
        Builtin::NaturalShow => between(alloc, codes, Builtin::Natural, Builtin::Text)?,
        Builtin::NaturalSubtract => functions::subtract(alloc, codes)?,
        Builtin::IntegerShow => between(alloc, codes, Builtin::Integer, Builtin::Text)?,
        Builtin::IntegerNegate => between(alloc, codes, Builtin::Integer, Builtin::Integer)?,
        Builtin::IntegerClamp => between(alloc, codes, Builtin::Integer, Builtin::Natural)?,
        Builtin::ListBuild => lists::build(alloc, codes)?,
        Builtin::ListFold => lists::fold(alloc, codes)?,
        Builtin::ListLength => lists::length(alloc, codes)?,
        Builtin::ListHead => lists::part(alloc, codes, Builtin::Optional)?,
        Builtin::ListLast => lists::part(alloc, codes, Builtin::Optional)?,
        Builtin::ListIndexed => lists::indexed(alloc, codes)?,
        Builtin::ListReverse => lists::part(alloc, codes, Builtin::List)?,
        Builtin::TextShow => between(alloc, codes, Builtin::Text, Builtin::Text)?,
        Builtin::TextReplace => functions::replace(alloc, codes)?,
    };
    Ok(Some(code))
}

/// The type of a built-in; none for `Sort`.
pub fn type_of(
    alloc: Global,
    codes: &mut Codes,
    builtin: Builtin,
) -> Result<Option<CodeId>, AllocError>
    requires coded { AreCoded codes.old }
    ensures grows { Grows codes.old codes.new }
    ensures core { IfOk result (λ t. option_map (code_core codes.new) t ≡ option_map to_core (type_of builtin)) }
    ensures there { IfOk result (λ t. IfSome t (λ c. c < count codes.new)) }
    ensures closed { IfOk result (λ t. IfSome t (λ c. IsClosed (code_core codes.new c))) }
{
    built(alloc, codes, builtin)
}
