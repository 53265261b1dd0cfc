//! Chains of lets.
ghost use Rattle.std.specs.Prelude.{◌≡◌, IfOk, map};
ghost use Rattle.dh_binary.specs.Machine as machine;
ghost use Rattle.dh_binary.specs.Stubs.{stubs};
ghost use Rattle.dh_decode.specs.Inside.Views.{part_of, binding_of};

use crate::nodes::{binding, typed_binding};
use crate::parts::Part;
use crate::places::Binding;
use dh_syntax::{Many, Op};
use std::alloc::{AllocError, Global};

/// A let of one name.
fn let_made(alloc: Global, bound: Binding<'_>, body: Part) -> Result<Part, AllocError>
    ensures { IfOk result (λ p. part_of p ≡ machine.let_made stubs (binding_of bound.entry) (part_of body)) }
{
    let Binding {
        name,
        annotation,
        value,
    } = bound;
    match annotation {
        Some(annotation) => { typed_binding(alloc, Op::Let(true), annotation, value, name, body) }
        None => binding(alloc, Op::Let(false), value, name, body),
    }
}

/// The lets of these names, the first one outermost.
#[inline(never)]
pub fn lets_made(alloc: Global, bindings: Many<Binding<'_>>, body: Part) -> Result<Part, AllocError>
    ensures { IfOk result (λ p. part_of p ≡ machine.lets_made stubs (map binding_of bindings.entry) (part_of body)) }
{
    let mut rest = bindings.into_vec();
    let mut made = body;
    while let Some(bound) = rest.pop() {
        made = let_made(alloc, bound, made)?;
    }
    Ok(made)
}
