//! Tokens where an operand begins, and behind one.

mod arguments;
mod beginning;
mod extending;
mod operators;

pub use beginning::begin;
pub use extending::extend;
