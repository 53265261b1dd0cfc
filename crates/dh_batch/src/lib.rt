//! Files served by desks in threads over one shelf: of n desks, the i-th serves the files i, i + n and so on, each in a session of its
//! own, and the replies come in the order of the files.
//!
//! ```text
//! let shelf = Shelf::new(alloc)?;
//! let replies = serve_files(rt, alloc, &session, &mut desks, workers, &shelf, &files)?;
//! ```
#![tactic(auto)]

mod batches;
mod queues;
mod serving;
mod sessions;
mod stands;

pub use batches::serve_files;
pub use sessions::Session;
