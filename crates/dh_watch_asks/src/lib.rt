//! What a script of edits and asks is followed over: files that are edited, with what is kept of them, and the line of each ask.
//!
//! [`Watch`] is the [`Watches`](dh_watching::Watches) of the program. An ask makes one sweep for the edits before it, resolves the
//! location over what is left, and tells to what it comes.
//!
//! ```text
//! let mut watch = Watch::new(alloc, files, worker);
//! run_watch(alloc, &words, &mut watch, &mut input, &mut out, &mut err)
//! ```
#![tactic(auto)]

mod asking;
mod watched;

pub use watched::Watch;
