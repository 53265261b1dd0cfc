//! Laws of scripts of edits and asks, and in `specs/` what a script writes.
//!
//! The line of an ask is told by a record of the contents as they then are. The laws say that a run over what is kept gives that line,
//! with the count that belongs to it, and that asks which were refused change no other line. Each law is the contract of a public function
//! with an empty body.
//!
//! ```text
//! dh_script_laws::asks::asks_are_answered();    // from here on the statements of `specs/Asks` are known
//! ```
#![tactic(auto)]

pub mod asks;
pub mod scripts;
