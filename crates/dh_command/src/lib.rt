//! What a command line asks for and how a run ends, and in `specs/` the definitions of the command: its words, what it tells
//! of itself, its lines, its statuses, and its answer for every list of words and every input.
//!
//! ```text
//! let command = Command { verb: Verb::Hash, workers: 4 };
//! command.verb.reads()          // true: `hash` reads its input
//! Status::Usage.code()          // 5
//! ```
#![tactic(auto)]

mod commands;
mod statuses;
mod verbs;

pub use commands::Command;
pub use statuses::Status;
pub use verbs::Verb;
