//! An expression with its imports.

use dh_syntax::{Expr, Many};

/// An import of a text.
#[derive(Clone, Copy, Debug)]
pub struct Edge {
    /// The number of its key.
    pub key: u32,
    /// Whether a text at its place may import it.
    pub sane: bool,
}

/// The imports of an expression, in the order of a walk.
pub type Edges = Many<Edge>;

/// An expression with its imports.
#[derive(Debug, Drop)]
pub struct Scan {
    pub expr: Expr,
    pub edges: Edges,
}
