//! The binary form of one expression.

ghost use Rattle.std.specs.Prelude.{◌≡◌, ◌≤◌, ◌^◌, IfOk};
ghost use Rattle.dh_syntax.specs.Bytes.Binary.{enc};
ghost use Rattle.dh_syntax.specs.Expressions.Arity.{IsWellFormed};
ghost use Rattle.dh_syntax.specs.Expressions.Bridge.{term};
ghost use Rattle.dh_syntax.specs.Expressions.Nesting.{nesting};

use crate::writer::Writer;
use dh_syntax::{Bytes, Expr};
use std::alloc::{AllocError, Global};

/// The bytes of an expression (the standard's "Binary encoding").
pub fn encode(alloc: Global, e: &Expr) -> Result<Bytes, AllocError>
    requires formed { IsWellFormed (term e.now) }
    requires depth { nesting (term e.now) ≤ 2 ^ 20 }
    ensures { IfOk result (λ b. b ≡ enc (term e.now)) }
{
    let mut writer = Writer::new(alloc);
    writer.push_expression(e)?;
    Ok(Bytes::of(writer.into_bytes()))
}
