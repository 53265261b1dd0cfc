//! What a watcher keeps between asks, as rows: the keys with their outcomes, the texts, and the looks, all of them misses.
//!
//! The outcomes stand in the order in which they were found, each by the earlier ones, and contracts see them with the latest first, as
//! [`kept_of`] shows the rows. A text is recorded with numbers for the keys of its imports; a key whose last step is due gets its outcome.
//! How far the walk of a text comes is the caller's to keep, so that it is not begun again.
//!
//! ```text
//! let (reach, way) = rows.reach(n, Headway::Unknown);
//! match reach {
//!     Reach::Due(Kind::Fetch) => rows.record_text(loc, got, scan)?,
//!     Reach::Due(Kind::Look) => rows.record_miss(digest)?,
//!     Reach::Due(Kind::Finish) => rows.decide(n, done)?,
//!     Reach::Wait(other) => {}
//! }
//! ```
#![tactic(auto)]

mod deciding;
mod edits;
mod numbers;
mod reading;
mod recording;
mod rows;
mod sweeping;
mod visiting;

pub use rows::Rows;
