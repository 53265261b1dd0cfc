//! Laws of watching: what may be kept of a run of the resolver when texts are edited, and what it is worth.
//!
//! Kept are the texts that were fetched and the outcomes that were found by them, each by the earlier ones; no lists of what depends on
//! what. An edit takes a text away. A sweep then goes through the outcomes, the oldest first, and leaves those whose last step is still
//! due; an ask is a depth-first run over what is left. Each law is the contract of a public function with an empty body.
//!
//! ```text
//! dh_watch_laws::passes::runs_are_resolved();    // from here on: a run over what is kept ends as the resolver does
//! ```
#![tactic(auto)]

pub mod counts;
pub mod edits;
pub mod outcomes;
pub mod passes;
