//! What is kept of files that are edited, and how they are asked.
//!
//! [`Watcher`] puts texts into files and takes them out, and resolves a root over what is kept from one ask to the next: an edit takes the
//! text away that was kept, and one pass before the next ask forgets what stood on such texts, however many they are.
//!
//! [`Source`] takes a key as far as it comes: its text is fetched from the files where it is not kept, a look into the cache is a miss, and
//! a key whose last step is due gets its outcome. The walk of a text goes on where it stopped. Texts are parsed
//! and last steps are made by a [`Worker`].
//!
//! ```text
//! watcher.change(&loc, Some(bytes))?;
//! watcher.refresh();
//! let resolved = watcher.resolve(alloc, key)?;
//! ```
#![tactic(auto)]

mod sources;
mod steps;
mod watchers;
mod ways;
mod workers;

pub use sources::Source;
pub use watchers::{Resolved, Watcher};
pub use workers::Worker;
