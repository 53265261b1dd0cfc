//! Expressions as text: the one spelling that is printed, on one line.
//!
//! Each part of an expression is needed at a level of the grammar, 0 where any expression may stand and 17 where only
//! a primitive may. A part of a lower level is written in brackets. The level of an expression is known from its
//! operator alone, so the text is written once, from left to right, at the end of one buffer.
//!
//! ```text
//! let text = print(alloc, &expression)?;
//! ```
#![tactic(auto)]

mod binders;
mod imports;
mod labels;
mod levels;
mod nodes;
mod printing;
mod words;

pub use printing::print;

#[cfg(test)]
mod tests;
