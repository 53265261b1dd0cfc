//! The line of an ask, over what is kept: what `dhall hash` writes of an import of the location, and how such a run ends.
//!
//! ```text
//! let resolved = watcher.resolve(alloc, key)?;
//! let told = root_line(alloc, watcher.rows(), resolved.root, resolved.end)?;
//! ```
#![tactic(auto)]

mod blames;
mod faults;
mod lines;
mod roots;
mod values;

pub use lines::Told;
pub use roots::root_line;
