//! The cache in memory that the runs of one command share: good entries by their digest, in slots that are set once and take no lock.
//!
//! Each caller has a visit of the shelf, with a pass that remembers what it has seen. What a visit has found or put it finds again,
//! whoever else puts entries there; and two passes never find different entries under one digest.
//!
//! ```text
//! let shelf = Shelf::new(alloc)?;
//! let mut visit = Visit::new(alloc, &shelf)?;    // one for each thread
//! match visit.get(&digest) {
//!     Some(entry) => ..,
//!     None => ..,    // look elsewhere, and put what is found
//! }
//! ```
#![tactic(auto)]

mod held;
mod passes;
mod shelves;
mod slots;
mod visits;

pub use passes::Pass;
pub use shelves::{MOST_SHELVED_BYTES, Put, Shelf};
pub use visits::Visit;
