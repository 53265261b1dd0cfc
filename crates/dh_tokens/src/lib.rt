//! Text to tokens: at each place the longest form of `dhall.abnf` is read, from left to right.
//!
//! `tokens` reads a whole text in one loop without recursion, so that depth costs memory of the heap alone. Each token has its
//! kind with its value, the bytes that spell it, and whether white space stands before it; an end token is the last. The first
//! place at which no form fits, a number is too wide or a form is left out of the profile is the fault.
//!
//! ```text
//! let read = tokens(alloc, "x + 1")?;     // `x` at 0, `+` at 2, `1` at 4, the end at 5
//! ```
#![tactic(auto)]

mod characters;
mod classes;
mod components;
mod digests;
mod environments;
mod faults;
mod forms;
mod fronts;
mod gaps;
mod marks;
mod names;
mod numbers;
mod paths;
mod places;
mod reading;
mod small_forms;
mod states;
mod texts;
mod urls;

pub use faults::LexFault;
pub use reading::{Tokens, tokens};

#[cfg(test)]
mod tests;
