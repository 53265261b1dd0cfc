//! Depth-first runs over what is kept of the imports: from the key of a root down to what it waits for, with a trail of its own.
//!
//! [`Resolver`] is what a run works on: texts and outcomes of keys by their numbers, where a key is taken as far as it comes, and gets its
//! outcome. [`ask`] resolves a root over it, and fetches nothing but what the root asks and is not there.
//!
//! ```text
//! let resolution = ask(alloc, &mut watch, &mut trail, root)?;
//! match resolution.end {
//!     End::Decided => ..,         // the root has an outcome
//!     End::Loop(least) => ..,     // it comes to a loop
//! }
//! ```
#![tactic(auto)]

mod asking;
mod deciding;
mod resolving;
mod trails;

pub use asking::{Resolution, ask};
pub use deciding::{End, MOST_KEYS, Stop, decide};
pub use resolving::{Progress, Refusal, Resolver};
pub use trails::Trail;
