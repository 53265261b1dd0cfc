//! Watching files that others edit: what an ask fetches is noted, and is looked at again and again; where it is another, its location is
//! forgotten, and the locations are asked anew. The line of each is written where it changed.
//!
//! ```text
//! let sightings = Sightings::new(alloc);
//! let mut watch = Watch::new(alloc, DeskFiles::new(desk, &sightings), CommandWorker);
//! watch_files(alloc, &words, &mut watch, &sightings, &mut other_desk, &mut pauses, &mut out, &mut err)
//! ```
#![tactic(auto)]

mod asking;
mod desk_files;
mod following;
mod looking;
mod sightings;
mod told;
mod words;

pub use desk_files::DeskFiles;
pub use following::{Pauses, watch_files};
pub use sightings::Sightings;
