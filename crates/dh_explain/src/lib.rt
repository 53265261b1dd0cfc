//! What the rules of typing want, by the numbers that a type fault tells, and which words of a command line ask for that.
//!
//! ```text
//! explanation(14)      // "type rule 14: right side of an operator\n..": sentences, a text that fails and one that has a type
//! rule_list()          // "1: unbound variable\n2: ..": the number and the name of each rule
//! ```
//!
//! The texts stand in `specs/Explained` too, from which `docs/TYPE_RULES.md` is made.
#![tactic(auto)]

mod explanations;
mod lists;
mod words;

pub use explanations::explanation;
pub use lists::rule_list;
pub use words::{check_rule, told};

#[cfg(test)]
mod tests;
