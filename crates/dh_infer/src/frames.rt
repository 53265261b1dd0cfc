//! What waits for a type, and where the machine stands.

use crate::piles::Pile;
use dh_store::{CodeId, Codes};
use dh_syntax::{Builtin, Label};
use dh_types::Found;

/// What is known of the variable of a binder that stands above.
#[derive(Clone, Copy)]
pub(crate) struct Entry {
    /// What stands for it: a variable with a number, or the normal form of a value.
    pub(crate) value: CodeId,
    /// Its type, once it is known.
    pub(crate) typed: Option<CodeId>,
    /// Whether it is a variable with a number.
    pub(crate) opened: bool,
}

/// What waits for a type.
#[derive(Drop)]
pub(crate) enum Frame {
    /// It is that of the function that is applied to this argument.
    Function(CodeId),
    /// It is that of this argument, and the function has this type.
    Argument(CodeId, CodeId),
    /// It is that of the domain of a λ with this variable, domain and body.
    LambdaDomain(Label, CodeId, CodeId),
    /// It is that of the body of a λ with this variable and normal domain, and the variable has this number.
    LambdaBody(Label, CodeId, u32),
    /// It is that of the domain of a ∀ with this variable, domain and range.
    ForallDomain(Label, CodeId, CodeId),
    /// It is that of the range of a ∀ whose domain is in this universe.
    ForallRange(Builtin),
    /// It is that of this value of a `let`, with this body.
    Value(CodeId, CodeId),
    /// It is that of the annotation of a `let`, with this value and this body.
    LetAnnotation(CodeId, CodeId, CodeId),
    /// It is that of the value of a `let` with this annotation, value and body.
    LetValue(CodeId, CodeId, CodeId),
    /// It is that of the body of a `let`, the part with this number.
    LetBody(u32),
    /// It is that of the part with this number of a node, and the parts before it have these types.
    Part(CodeId, u32, Vec<CodeId>),
    /// It is that of the type of the part with this number of a node whose parts have these types, beside what was found; then so
    /// many units are left.
    Universe(CodeId, u32, Vec<CodeId>, Found, u64),
    /// It is that of the type of a completion with this type and this record.
    CompletedType(CodeId, CodeId),
    /// It is that of the record of a completion with this type and this record.
    CompletedRecord(CodeId, CodeId),
    /// It is that of the longer expression that a completion stands for.
    Completion,
    /// It is that of the value of the variable so many below the nearest binder.
    Used(u32),
}

/// A place in an expression that has no type, the innermost part first, and the number of the rule that fails there.
#[derive(Drop)]
pub(crate) struct Failure {
    pub(crate) path: Vec<u32>,
    pub(crate) rule: u8,
}

/// Where the machine stands.
#[derive(Drop)]
pub(crate) enum State {
    /// This code is to be typed.
    Type(CodeId),
    /// The parts of this node from a place on are to be typed; those before it have these types.
    Parts(CodeId, u32, Vec<CodeId>),
    /// The rule of this node is to be followed; its parts have these types, and this was found.
    Rule(CodeId, Vec<CodeId>, Found),
    /// The normal form of this value is to stand for the variable of this body, the part with this number of a `let`.
    Bind(CodeId, CodeId, u32),
    /// This type was found.
    Typed(CodeId),
    /// There is no type.
    Failed(Failure),
}

/// The codes, the binders that stand above with what is known of their variables, the types of those variables that have numbers,
/// and what waits.
#[derive(Drop)]
pub(crate) struct Typer {
    pub(crate) codes: Codes,
    pub(crate) scope: Pile<Entry>,
    pub(crate) levels: Pile<CodeId>,
    pub(crate) frames: Pile<Frame>,
}
