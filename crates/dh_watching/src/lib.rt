//! The program of a watcher: it reads a script of edits and asks, checks each of its lines, and then goes through them; the line of each
//! ask is written as soon as it is known.
//!
//! ```text
//! run_watch(alloc, &words, &mut watch, &mut input, &mut out, &mut err)
//! ```
#![tactic(auto)]

mod asking;
mod following;
pub mod laws;
mod places;
mod program;
mod runs;
mod watches;

pub use asking::{refusal_status, refusal_text, write_answer, write_refusal};
pub use following::first_fault;
pub use program::told_words;
pub use runs::{end_refused, run_watch};
pub use watches::{Line, WatchFault, Watches};

#[cfg(test)]
mod tests;
