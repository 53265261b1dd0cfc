//! Expressions: variables, and nodes with their parts.

ghost use Rattle.std.specs.Prelude.{◌≡◌, IfOk};

use crate::copies::{copy, copy_alts, copy_labels, copy_name, copy_pieces};
use crate::lists::Many;
use crate::locations::BoxedImport;
use crate::operators::{BinOp, Builtin};
use crate::texts::{Label, Piece};
use std::alloc::{AllocError, Global};

/// The labels of a record, a record type, a projection or a `with` path.
pub type Labels = Many<Label>;

/// The text between the interpolations of a text literal, one more than there are interpolations.
pub type Pieces = Many<Piece>;

/// The alternatives of a union type, in the order of their labels.
pub type Alts = Many<Alt>;

/// The parts of a node, numbered from 0.
pub type Kids = Many<Kid>;

/// An expression: a variable with its index, or a node with its parts.
#[cycle(expression)]
#[derive(Debug, Drop)]
pub enum Expr {
    Var(Label, u32),
    Node(Op, Kids),
}

/// A part of a node, under the variable that the node binds in it, if it binds one.
#[cycle(expression)]
#[derive(Debug, Drop)]
pub struct Kid {
    pub binder: Option<Label>,
    pub body: Expr,
}

/// An alternative of a union type, with or without a type.
#[derive(Debug, Drop)]
pub struct Alt {
    pub label: Label,
    pub typed: bool,
}

/// What a node is. `arity_ok` says which parts each node has.
#[derive(Debug)]
pub enum Op {
    Builtin(Builtin),
    Bool(bool),
    Nat(u128),
    Int(i128),
    Text(Pieces),
    Import(BoxedImport),
    Lam,
    Pi,
    /// Whether the variable has a written type.
    Let(bool),
    App,
    If,
    Bin(BinOp),
    EmptyList,
    List,
    Some,
    /// Whether there is an annotation.
    Merge(bool),
    RecordType(Labels),
    Record(Labels),
    Field(Label),
    Project(Labels),
    ProjectType,
    Union(Alts),
    Assert,
    Annot,
    /// Whether there is an annotation.
    ToMap(bool),
    With(Labels),
}

impl Kid {
    /// An equal kid.
    #[cycle(copy)]
    pub fn copied(&self, alloc: Global) -> Result<Kid, AllocError>
        ensures { IfOk result (λ c. c ≡ self.now) }
    {
        let binder = copy_name(alloc, &self.binder)?;
        let body = copy(alloc, &self.body)?;
        Ok(Kid { binder, body })
    }
}

impl Alt {
    /// An equal alternative.
    pub fn copied(&self, alloc: Global) -> Result<Alt, AllocError>
        ensures { IfOk result (λ c. c ≡ self.now) }
    {
        let label = self.label.copied(alloc)?;
        Ok(Alt {
            label,
            typed: self.typed,
        })
    }
}

impl Op {
    /// An equal operator.
    pub fn copied(&self, alloc: Global) -> Result<Op, AllocError>
        ensures { IfOk result (λ c. c ≡ self.now) }
    {
        match self {
            Op::Builtin(builtin) => Ok(Op::Builtin(*builtin)),
            Op::Bool(value) => Ok(Op::Bool(*value)),
            Op::Nat(value) => Ok(Op::Nat(*value)),
            Op::Int(value) => Ok(Op::Int(*value)),
            Op::Text(pieces) => Ok(Op::Text(copy_pieces(alloc, pieces)?)),
            Op::Import(import) => Ok(Op::Import(import.copied(alloc)?)),
            Op::Lam => Ok(Op::Lam),
            Op::Pi => Ok(Op::Pi),
            Op::Let(typed) => Ok(Op::Let(*typed)),
            Op::App => Ok(Op::App),
            Op::If => Ok(Op::If),
            Op::Bin(operator) => Ok(Op::Bin(*operator)),
            Op::EmptyList => Ok(Op::EmptyList),
            Op::List => Ok(Op::List),
            Op::Some => Ok(Op::Some),
            Op::Merge(typed) => Ok(Op::Merge(*typed)),
            Op::RecordType(labels) => Ok(Op::RecordType(copy_labels(alloc, labels)?)),
            Op::Record(labels) => Ok(Op::Record(copy_labels(alloc, labels)?)),
            Op::Field(label) => Ok(Op::Field(label.copied(alloc)?)),
            Op::Project(labels) => Ok(Op::Project(copy_labels(alloc, labels)?)),
            Op::ProjectType => Ok(Op::ProjectType),
            Op::Union(alts) => Ok(Op::Union(copy_alts(alloc, alts)?)),
            Op::Assert => Ok(Op::Assert),
            Op::Annot => Ok(Op::Annot),
            Op::ToMap(typed) => Ok(Op::ToMap(*typed)),
            Op::With(labels) => Ok(Op::With(copy_labels(alloc, labels)?)),
        }
    }
}

// Drops are written by hand here: a derived one puts every arm inline wherever a value may die, and a check of a function
// where many values may die took minutes.
impl Drop for Op {
    fn drop(self) {
        match self {
            Op::Builtin(_) | Op::Bool(_) | Op::Nat(_) | Op::Int(_) | Op::Bin(_) => {}
            Op::Text(_) => {}
            Op::Import(_) => {}
            Op::RecordType(_) | Op::Record(_) | Op::Project(_) | Op::With(_) => {}
            Op::Field(_) => {}
            Op::Union(_) => {}
            Op::Let(_) | Op::Merge(_) | Op::ToMap(_) => {}
            Op::Lam | Op::Pi | Op::App | Op::If | Op::EmptyList | Op::List => {}
            Op::Some | Op::ProjectType | Op::Assert | Op::Annot => {}
        }
    }
}
