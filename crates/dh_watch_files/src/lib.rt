//! Files that are edited between asks: contents of locations, which are put and taken out, and read at most to the length that a text may
//! have.
//!
//! ```text
//! let mut files = MemFiles::new(alloc, CallList::new(alloc));
//! files.put(&loc, Some(bytes))?;
//! let got = files.fetch(alloc, &loc)?;
//! ```
#![tactic(auto)]

mod files;
mod mem_files;
mod ordered_locs;

pub use files::Files;
pub use mem_files::MemFiles;
pub use ordered_locs::OrderedLoc;
