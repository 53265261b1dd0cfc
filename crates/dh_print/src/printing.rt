//! The printed text of a whole expression.

ghost use Rattle.std.specs.Prelude.{◌≡◌, IfOk};
ghost use Rattle.dh_syntax.specs.Expressions.Arity.{IsWellFormed};
ghost use Rattle.dh_syntax.specs.Expressions.Bridge.{term};
ghost use Rattle.dh_syntax.specs.Text.Printed.{text_of};

use crate::levels::ANY;
use crate::nodes::write_part;
use dh_syntax::{Expr, Piece};
use std::alloc::{AllocError, Global};

/// The printed text of an expression, which nests as deep as this call recurses (`dhall.abnf`).
pub fn print(alloc: Global, e: &Expr) -> Result<Piece, AllocError>
    requires { IsWellFormed (term e.now) }
    ensures { IfOk result (λ p. p ≡ text_of (term e.now)) }
{
    let mut text = String::new(alloc);
    write_part(&mut text, "", ANY, e)?;
    Ok(Piece::of(text))
}
