//! From text to expressions: the parser of the whole grammar (`dhall.abnf`).
//!
//! `parse` reads the tokens of a text one at a time and never looks ahead: `after` takes the reader (of `dh_reader`) over one
//! token, as the machine of the grammar does (`Machine` in `dh_grammar`).
//! The functions within do what the machine's functions do; the clauses of `parse` speak of the definition of spelling
//! alone. `parse_imports` and `parse_spans` answer the same expression or fault, with the places of its imports or of all
//! its nodes.
//!
//! ```text
//! match parse(alloc, b"1 + 2") {
//!     Ok(expression) => ..,                   // well formed, nests at most 500 deep
//!     Err(ParseFault::Syntax(at)) => ..,      // no expression goes on at this offset
//!     Err(fault) => ..,                       // `{fault}` writes its line
//! }
//! ```
#![tactic(auto)]

#[cfg(test)]
mod gap_tests;
mod placed;
mod reading;
#[cfg(test)]
mod tests;
mod texts;

pub use placed::{parse_imports, parse_spans};
pub use texts::parse;
