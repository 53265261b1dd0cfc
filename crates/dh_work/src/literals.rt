//! Text literals.

ghost use Rattle.std.specs.Prelude.{◌≡◌, IfOk};
ghost use Rattle.dh_syntax.specs.Expressions.Bridge.{term};
ghost use Rattle.dh_syntax.specs.Expressions.Forms as form;

use dh_syntax::{Expr, Many, Op, Piece};
use std::alloc::{AllocError, Global};

/// A text literal without interpolations.
pub(crate) fn plain_text(alloc: Global, text: &str) -> Result<Expr, AllocError>
    ensures { IfOk result (λ e. term e ≡ form.plain_text text.now) }
{
    let mut pieces = Many::new(alloc);
    pieces.push(Piece::new(alloc, text)?)?;
    Ok(Expr::Node(Op::Text(pieces), Many::new(alloc)))
}
