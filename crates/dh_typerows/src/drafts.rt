//! What a rule of this group answers, before the type that it makes is made.

ghost use Rattle.std.specs.Prelude.{◌≡◌, ◌<◌, IfOk};
ghost use Rattle.dh_syntax.specs.Typing.NamelessTyping.{core_scopes};
ghost use Rattle.dh_syntax.specs.Typing.TypeRulesUnions.{map_type};
ghost use Rattle.dh_store.specs.Cells.{code_core, AreCoded};
ghost use Rattle.dh_store.specs.Growth.{count};
ghost use Rattle.dh_types.specs.Following.{course_of};
ghost use Rattle.dh_types.specs.Growing.{Grows, Stands};
ghost use Rattle.dh_types.specs.There.{IsStepThere};
ghost use Rattle.dh_typerows.specs.Drafts.{draft_of, IsDraftBelow};
ghost use Rattle.dh_typerows.specs.Entries.{entry_labels, entry_type};

use dh_store::{CodeId, Codes};
use dh_syntax::{Builtin, Label, Labels, Many};
use dh_types::{Step, applied, constant, function_type, record_type_of};
use std::alloc::{AllocError, Global};

/// The answer of a rule.
#[derive(Drop)]
pub(crate) enum Draft {
    Takes(CodeId),
    /// The type is this built-in.
    TakesConstant(Builtin),
    /// The type is the normal form of the record type with these labels and types.
    FormsRecord(Labels, Many<CodeId>),
    /// The type is the normal form of a function type.
    FormsFunction(Label, CodeId, CodeId),
    /// The type is the normal form of `List { mapKey : Text, mapValue : v }`.
    FormsMap(CodeId),
    Refuses(u8),
    WantsNormal(u32),
    WantsUniverse(u32),
}

/// The labels of what `toMap` gives for a field.
fn entry_labels(alloc: Global) -> Result<Labels, AllocError>
    ensures { IfOk result (λ xs. xs ≡ entry_labels) }
{
    let mut labels = Many::new(alloc);
    labels.push(Label::new(alloc, "mapKey")?)?;
    labels.push(Label::new(alloc, "mapValue")?)?;
    Ok(labels)
}

/// `{ mapKey : Text, mapValue : v }`
fn entry_type(alloc: Global, codes: &mut Codes, value: CodeId) -> Result<CodeId, AllocError>
    requires coded { AreCoded codes.old }
    requires there { value < count codes.old }
    ensures grows { Grows codes.old codes.new }
    ensures made { IfOk result (λ c. Stands codes.new c (entry_type (code_core codes.old value))) }
{
    let labels = entry_labels(alloc)?;
    let key = constant(alloc, codes, Builtin::Text)?;
    record_type_of(alloc, codes, labels, &[key, value])
}

/// `List { mapKey : Text, mapValue : v }`
fn map_type(alloc: Global, codes: &mut Codes, value: CodeId) -> Result<CodeId, AllocError>
    requires coded { AreCoded codes.old }
    requires there { value < count codes.old }
    ensures grows { Grows codes.old codes.new }
    ensures made { IfOk result (λ c. Stands codes.new c (map_type core_scopes (code_core codes.old value))) }
{
    let entry = entry_type(alloc, codes, value)?;
    applied(alloc, codes, Builtin::List, entry)
}

/// The answer, with the type that it makes.
pub(crate) fn step(alloc: Global, codes: &mut Codes, draft: Draft) -> Result<Step, AllocError>
    requires coded { AreCoded codes.old }
    requires there { IsDraftBelow (count codes.old) draft }
    ensures grows { Grows codes.old codes.new }
    ensures step { IfOk result (λ s. course_of (code_core codes.new) s ≡ draft_of (code_core codes.old) draft) }
    ensures there { IfOk result (λ s. IsStepThere codes.new s) }
{
    match draft {
        Draft::Takes(code) => Ok(Step::Takes(code)),
        Draft::TakesConstant(builtin) => Ok(Step::Takes(constant(alloc, codes, builtin)?)),
        Draft::FormsRecord(labels, types) => {
            let code = record_type_of(alloc, codes, labels, types.as_slice())?;
            Ok(Step::Forms(code))
        }
        Draft::FormsFunction(label, domain, range) => {
            let code = function_type(alloc, codes, label, domain, range)?;
            Ok(Step::Forms(code))
        }
        Draft::FormsMap(value) => Ok(Step::Forms(map_type(alloc, codes, value)?)),
        Draft::Refuses(rule) => Ok(Step::Refuses(rule)),
        Draft::WantsNormal(part) => Ok(Step::WantsNormal(part)),
        Draft::WantsUniverse(part) => Ok(Step::WantsUniverse(part)),
    }
}
