//! The table that workers share: what a run has found, what came of each key, the tasks in flight, and every step so far.
//!
//! A worker claims a task, works on it, and delivers what it found or what came of it. The table says which task is open: that of
//! a key that the walk of the root wants and that waits for no other key. Each call is one step of the machine of the
//! definitions, and the table's type keeps that its history leads to its state. Claims and deliveries require room for their steps.
//!
//! ```text
//! let mut table = Table::<Silent>::open(alloc, root)?;
//! table.reserve(4)?;                                       // room for steps
//! if let Claimed::Task(ticket) = table.claim(0) {
//!     match table.work(alloc, &ticket)? {
//!         Work::Fetch(loc) => ..,                          // then table.fetched(ticket, news)
//!         Work::Look(digest) => ..,                        // then table.looked(ticket, news)
//!         Work::Finish(item) => ..,                        // then table.finished(ticket, news)
//!     }
//! }
//! ```
#![tactic(auto)]

mod answers;
mod search;
mod steps;
mod tables;

pub use answers::{Ended, Work};
pub use dh_record::{Body, Done, Entry, Item, Kind, News, Noted, Parsed, Seen};
pub use steps::{Claimed, OpenFault, Step, Taken};
pub use tables::{Table, Ticket};
