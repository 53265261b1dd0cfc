//! Parts of expressions.
ghost use Rattle.std.specs.Prelude.{◌≤◌};

use dh_syntax::Expr;

/// An expression, and how deep it nests. An expression that nests deeper than 500 is not kept: `True` stands in its
/// place, and `nests` is 501.
#[derive(Drop)]
pub struct Part {
    pub expression: Expr,
    pub nests: u32,
    ghost few: { nests ≤ 501 },
}
