//! The command: its words, its input, its answer and how that is written.
//!
//! `run_dhall` is a run of the command. It reads the words, then the input, resolves imports by desks, makes the answer, keeps
//! new entries of the cache, and only then writes: so a refusal of an earlier step comes before one of a later step. Each step
//! is a module with one exact clause. `run_program` is the whole program around it: the words behind its name, and its status.
//!
//! ```text
//! let status = run_dhall(rt, alloc, &words, &mut desks, &mut input, &mut out, &mut err, &OpenGate);
//! let ends = run_program(&rt, alloc, env::args(&rt), &mut desks, &OpenGate, &mut input, &mut out, &mut err);
//! ```
#![tactic(auto)]

mod batch;
mod blames;
mod decoding;
mod encoding;
mod faults;
mod files;
mod freezing;
mod generating;
mod json;
mod keeping;
pub mod laws;
mod program;
mod replies;
mod resolving;
mod runs;
mod steps;
mod telling;
mod typing;
mod words;

pub use program::{exit_code, lack_memory, run_program};
pub use runs::run_dhall;
pub use words::read_words;
