//! What is noted of the nodes of an expression.

use std::alloc::{AllocError, Global};

/// What is noted of nodes by the numbers of their tokens: one function for each that the definition has.
pub trait Notes {
    ghost use Rattle.std.specs.Prelude.{◌≡◌, IfOk};
    ghost use Rattle.dh_syntax.specs.Text.Noting.{Noting};

    /// What is noted of some nodes in a row.
    type Row: Drop;

    ghost noting: { Noting };

    ghost view: { Self.Row → noting.row };

    /// Of no nodes. It takes no memory.
    fn none(alloc: Global) -> Self::Row
        ensures { view result ≡ noting.none };

    /// Of some nodes and then others.
    fn joined(left: Self::Row, right: Self::Row) -> Result<Self::Row, AllocError>
        ensures { IfOk result (λ made. view made ≡ noting.joined (view left) (view right)) };

    /// Of a node, by its first token, the one behind it, and what is noted of its parts.
    fn node(alloc: Global, first: u32, last: u32, parts: Self::Row) -> Result<Self::Row, AllocError>
        ensures { IfOk result (λ made. view made ≡ noting.node first last (view parts)) };

    /// Of an import, whose location is its first token.
    fn import_node(alloc: Global, first: u32, last: u32) -> Result<Self::Row, AllocError>
        ensures { IfOk result (λ made. view made ≡ noting.import_node first last) };

    /// Of the parts of a node.
    fn parts(alloc: Global, node: Self::Row) -> Self::Row
        ensures { view result ≡ noting.parts (view node) };
}
