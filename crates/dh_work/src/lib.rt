//! What a worker does for a task of the table of imports: it fetches a text, looks up an entry of the cache, or makes the last
//! step of a key.
//!
//! A text that was fetched is parsed, and an entry is checked: by [`good_entry`] bytes are one exactly where they have its digest and are
//! an expression without imports and free variables. Faults of texts, types and devices are part of the news. The only error is out of
//! memory.
//!
//! ```text
//! match work {
//!     Work::Fetch(loc) => fetch_text(alloc, desk, loc)?,
//!     Work::Look(digest) => look_up(alloc, desk, visit, digest)?,
//!     Work::Finish(item) => News::Finished(work_item(alloc, item)?),
//! }
//! ```
#![tactic(auto)]

mod closed;
mod codes;
mod fetching;
mod last_steps;
mod literals;
mod locations;
mod looking;
mod outcomes;
mod texts;

pub use fetching::fetch_text;
pub use last_steps::work_item;
pub use looking::{good_entry, look_up};
