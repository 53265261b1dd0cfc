//! What a program does with its streams: it reads an input whole, in pieces, to its end or one byte past what a text may have;
//! it writes bytes whole, or a first part of them before a write fails; and it delivers an answer to two outputs. And the standard
//! streams as feeds and sinks.
//!
//! ```text
//! let bytes = read_input(alloc, &mut input)?;
//! let status = deliver(bytes.as_slice(), &[], Status::Ok, &mut out, &mut err);
//! ```
#![tactic(auto)]

mod delivery;
mod inputs;
mod streams;
mod writing;

pub use delivery::{deliver, lack_memory, tell_failure};
pub use inputs::{InputFault, MOST_READ, read_input};
pub use streams::{Source, Target};
pub use writing::{write_all, write_both};
