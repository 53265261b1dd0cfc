//! Nodes, made of the parts that were read. An operator is large, so the functions that make one are kept out of those that call
//! them at every head.
ghost use Rattle.std.specs.Prelude.{◌≡◌, IfOk, OnOk, None, [], ◌∷◌, ◌++◌, ◌+◌, ◌^◌, ◌<◌, map, max};
ghost use Rattle.dh_syntax.specs.Expressions.Bridge.{term};
ghost use Rattle.dh_binary.specs.Stubs as stubs;
ghost use Rattle.dh_binary.specs.Machine.{Making, app, empty_list};
ghost use Rattle.dh_decode.specs.Inside.Forms.{op_of};
ghost use Rattle.dh_decode.specs.Inside.Views.{part_of};

use crate::parts::Part;
use crate::places::Form;
use dh_syntax::{Builtin, Expr, Kid, Kids, Label, Labels, MOST_NESTING, Many, Op, Pieces};
use std::alloc::{AllocError, Global};

/// The part that an expression is, which nests so deep.
fn kept(alloc: Global, expression: Expr, nests: u32) -> Result<Part, AllocError>
    ensures { IfOk result (λ p. part_of p ≡ stubs.kept (term expression) nests) }
{
    if nests <= MOST_NESTING {
        Part::new(alloc, expression, nests)
    } else {
        stub(alloc)
    }
}

/// What stands in place of an expression that nests too deep.
#[inline(never)]
fn stub(alloc: Global) -> Result<Part, AllocError>
    ensures { IfOk result (λ p. part_of p ≡ stubs.stub) }
{
    Part::new(alloc, Expr::Node(Op::Bool(true), Kids::new(alloc)), 501)
}

/// A variable.
#[inline(never)]
pub fn variable(alloc: Global, name: &str, index: u32) -> Result<Part, AllocError>
    ensures { IfOk result (λ p. part_of p ≡ stubs.stubs.leaf (record { name = name.now; index = index })) }
{
    let label = Label::new(alloc, name)?;
    Part::new(alloc, Expr::Var(label, index), 0)
}

/// A node without parts.
pub fn bare(alloc: Global, op: Op) -> Result<Part, AllocError>
    ensures { IfOk result (λ p. part_of p ≡ stubs.stubs.node op []) }
{
    kept(alloc, Expr::Node(op, Kids::new(alloc)), 0)
}

/// Room for so many parts of a node.
fn room(alloc: Global, count: usize) -> Result<Kids, AllocError>
    ensures { IfOk result (λ ks. ks ≡ []) }
{
    Ok(Kids::of(Vec::with_capacity(alloc, count)?))
}

/// Adds a part of a node.
fn put(kids: &mut Kids, binder: Option<Label>, part: Part) -> Result<(), AllocError>
    ensures { OnOk result (kids.new ≡ kids.old ++ record { binder = binder; body = part.held.value.expression } ∷ []) }
{
    kids.push(Kid {
        binder,
        body: part.into_expression(),
    })
}

/// A node with one part.
pub fn one(alloc: Global, op: Op, part: Part) -> Result<Part, AllocError>
    ensures { IfOk result (λ p. part_of p ≡ stubs.stubs.node op (part_of part ∷ [])) }
{
    let nests = part.nests() + 1;
    let mut kids = room(alloc, 1)?;
    put(&mut kids, None, part)?;
    kept(alloc, Expr::Node(op, kids), nests)
}

/// A node with two parts.
pub fn two(alloc: Global, op: Op, left: Part, right: Part) -> Result<Part, AllocError>
    ensures { IfOk result (λ p. part_of p ≡ stubs.stubs.node op (part_of left ∷ part_of right ∷ [])) }
{
    let nests = left.nests().max(right.nests()) + 1;
    let mut kids = room(alloc, 2)?;
    put(&mut kids, None, left)?;
    put(&mut kids, None, right)?;
    kept(alloc, Expr::Node(op, kids), nests)
}

/// A node with one part, and one under a binder.
#[inline(never)]
pub fn binding(
    alloc: Global,
    op: Op,
    part: Part,
    name: &str,
    body: Part,
) -> Result<Part, AllocError>
    ensures { IfOk result (λ p. part_of p ≡ stubs.stubs.under op (part_of part ∷ []) name.now (part_of body)) }
{
    let label = Label::new(alloc, name)?;
    let nests = part.nests().max(body.nests()) + 1;
    let mut kids = room(alloc, 2)?;
    put(&mut kids, None, part)?;
    put(&mut kids, Some(label), body)?;
    kept(alloc, Expr::Node(op, kids), nests)
}

/// A node with two parts, and one under a binder.
#[inline(never)]
pub fn typed_binding(
    alloc: Global,
    op: Op,
    annotation: Part,
    value: Part,
    name: &str,
    body: Part,
) -> Result<Part, AllocError>
    ensures { IfOk result (λ p.
        part_of p ≡ stubs.stubs.under op (part_of annotation ∷ part_of value ∷ []) name.now (part_of body)) }
{
    let label = Label::new(alloc, name)?;
    let nests = annotation.nests().max(value.nests()).max(body.nests()) + 1;
    let mut kids = room(alloc, 3)?;
    put(&mut kids, None, annotation)?;
    put(&mut kids, None, value)?;
    put(&mut kids, Some(label), body)?;
    kept(alloc, Expr::Node(op, kids), nests)
}

/// How deep a node nests with one more part.
fn deeper(nests: u32, part: u32) -> u32
    requires { part < 2 ^ 16 }
    ensures { result ≡ max nests (part + 1) }
{
    if part < nests { nests } else { part + 1 }
}

/// A node with these parts.
pub fn all(alloc: Global, op: Op, parts: Many<Part>) -> Result<Part, AllocError>
    ensures { IfOk result (λ p. part_of p ≡ stubs.stubs.node op (map part_of parts)) }
{
    let mut kids = room(alloc, parts.len())?;
    let mut nests = 0;
    let mut rest = parts.into_vec().into_iter();
    while let Some(part) = rest.next() {
        nests = deeper(nests, part.nests());
        put(&mut kids, None, part)?;
    }
    kept(alloc, Expr::Node(op, kids), nests)
}

/// A function and an argument.
#[inline(never)]
pub fn applied(alloc: Global, function: Part, argument: Part) -> Result<Part, AllocError>
    ensures { IfOk result (λ p. part_of p ≡ app stubs.stubs (part_of function) (part_of argument)) }
{
    two(alloc, Op::App, function, argument)
}

/// `[] : List T` by its `T`.
#[inline(never)]
pub fn emptied(alloc: Global, item: Part) -> Result<Part, AllocError>
    ensures { IfOk result (λ p. part_of p ≡ empty_list stubs.stubs (part_of item)) }
{
    let list = builtin_part(alloc, Builtin::List)?;
    let applied = applied(alloc, list, item)?;
    one(alloc, Op::EmptyList, applied)
}

/// A natural number.
#[inline(never)]
pub fn natural_part(alloc: Global, n: u128) -> Result<Part, AllocError>
    ensures { IfOk result (λ p. part_of p ≡ stubs.stubs.node (Op.Nat n) []) }
{
    bare(alloc, Op::Nat(n))
}

/// An integer.
#[inline(never)]
pub fn integer_part(alloc: Global, z: i128) -> Result<Part, AllocError>
    ensures { IfOk result (λ p. part_of p ≡ stubs.stubs.node (Op.Int z) []) }
{
    bare(alloc, Op::Int(z))
}

/// `True` or `False`.
#[inline(never)]
pub fn bool_part(alloc: Global, value: bool) -> Result<Part, AllocError>
    ensures { IfOk result (λ p. part_of p ≡ stubs.stubs.node (Op.Bool value) []) }
{
    bare(alloc, Op::Bool(value))
}

/// A built-in.
#[inline(never)]
pub fn builtin_part(alloc: Global, builtin: Builtin) -> Result<Part, AllocError>
    ensures { IfOk result (λ p. part_of p ≡ stubs.stubs.node (Op.Builtin builtin) []) }
{
    bare(alloc, Op::Builtin(builtin))
}

/// A node of expressions only.
#[inline(never)]
pub fn operated(alloc: Global, form: Form, parts: Many<Part>) -> Result<Part, AllocError>
    ensures { IfOk result (λ p. part_of p ≡ stubs.stubs.node (op_of form) (map part_of parts)) }
{
    all(alloc, form.op(), parts)
}

/// A text literal.
#[inline(never)]
pub fn interpolated(alloc: Global, pieces: Pieces, parts: Many<Part>) -> Result<Part, AllocError>
    ensures { IfOk result (λ p. part_of p ≡ stubs.stubs.node (Op.Text pieces) (map part_of parts)) }
{
    all(alloc, Op::Text(pieces), parts)
}

/// A field of a record.
#[inline(never)]
pub fn field_of(alloc: Global, part: Part, name: &str) -> Result<Part, AllocError>
    ensures { IfOk result (λ p. part_of p ≡ stubs.stubs.node (Op.Field name.now) (part_of part ∷ [])) }
{
    let label = Label::new(alloc, name)?;
    one(alloc, Op::Field(label), part)
}

/// Some fields of a record.
#[inline(never)]
pub fn fields_of(alloc: Global, part: Part, labels: Labels) -> Result<Part, AllocError>
    ensures { IfOk result (λ p. part_of p ≡ stubs.stubs.node (Op.Project labels) (part_of part ∷ [])) }
{
    one(alloc, Op::Project(labels), part)
}

/// The fields of a record that a type has.
#[inline(never)]
pub fn typed_fields_of(alloc: Global, part: Part, typed: Part) -> Result<Part, AllocError>
    ensures { IfOk result (λ p. part_of p ≡ stubs.stubs.node Op.ProjectType (part_of part ∷ part_of typed ∷ [])) }
{
    two(alloc, Op::ProjectType, part, typed)
}

/// A record with one more value at a path.
#[inline(never)]
pub fn updated(alloc: Global, part: Part, labels: Labels, value: Part) -> Result<Part, AllocError>
    ensures { IfOk result (λ p. part_of p ≡ stubs.stubs.node (Op.With labels) (part_of part ∷ part_of value ∷ [])) }
{
    two(alloc, Op::With(labels), part, value)
}
