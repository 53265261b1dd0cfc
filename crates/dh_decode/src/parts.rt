//! Expressions as they are made while bytes are read.
ghost use Rattle.std.specs.Prelude.{◌≡◌, ◌≤◌, IfOk};
ghost use Rattle.dh_syntax.specs.Expressions.Bridge.{term};

use dh_syntax::Expr;
use std::alloc::{AllocError, Global};

/// An expression and how deep it nests; a stub where that is more than 500.
#[derive(Drop)]
pub struct Held {
    pub expression: Expr,
    pub nests: u32,
    ghost few: { nests ≤ 501 },
}

/// An expression and how deep it nests, in a box of their own, so that the places that hold them are moved at little cost.
#[derive(Drop)]
pub struct Part {
    pub held: Box<Held>,
}

impl Part {
    ghost use Rattle.dh_decode.specs.Inside.Views.{part_of};

    /// The part that an expression is, which nests so deep.
    pub fn new(alloc: Global, expression: Expr, nests: u32) -> Result<Part, AllocError>
        requires { nests ≤ 501 }
        ensures { IfOk result (λ p. part_of p ≡ record { expression = term expression; nests = nests }) }
    {
        let held = Box::new(alloc, Held { expression, nests })?;
        Ok(Part { held })
    }

    /// How deep it nests.
    pub fn nests(&self) -> u32
        ensures { result ≡ self.now.held.value.nests }
    {
        self.held.nests
    }

    /// What it holds.
    pub fn into_held(self) -> Held
        ensures { result ≡ self.held.value }
    {
        let Part { held } = self;
        Box::into_inner(held)
    }

    /// Its expression.
    pub fn into_expression(self) -> Expr
        ensures { result ≡ self.held.value.expression }
    {
        let Held {
            expression,
            nests: _,
        } = self.into_held();
        expression
    }
}
