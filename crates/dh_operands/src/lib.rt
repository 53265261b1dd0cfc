//! What a reader of tokens builds where it builds expressions: operands and their parts, as the machine of the grammar
//! makes them.
//!
//! `Expressions` is the builder (`Makes` of `dh_making`). Each of its functions makes what `stubs` of `dh_grammar` makes:
//! `Expressions::operation(alloc, at, BinOp::Plus, left, right)?` is seen as `stubs.operation Plus left right`. Lets, texts,
//! items, alternatives, fields and entries grow by one at a time, in memory and time near linear: rows stand in std's
//! ordered map by their labels, and expressions are moved.
//!
//! Expressions nest at most 500 deep. One that would nest deeper is `True` with `nests` 501, so that reading goes on.
#![tactic(auto)]

mod alternatives;
mod annotations;
mod bindings;
mod chunks;
mod expressions;
mod gathering;
mod items;
mod leaves;
mod nodes;
mod operands;
mod operations;
mod parts;
mod rows;
mod selections;
#[cfg(test)]
mod tests;

pub use alternatives::Alternatives;
pub use bindings::Lets;
pub use chunks::Chunks;
pub use expressions::Expressions;
pub use items::Items;
pub use operands::{Operand, left_level, level_of};
pub use parts::Part;
pub use rows::{Entries, Entry, Fields};
