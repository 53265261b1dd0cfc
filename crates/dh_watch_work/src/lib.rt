//! The worker of a watcher: it parses the texts that are fetched, and makes the last steps of keys as the command does.
//!
//! ```text
//! let watcher = Watcher::new(alloc, files, CommandWorker);
//! ```
#![tactic(auto)]

mod workers;

pub use workers::CommandWorker;
