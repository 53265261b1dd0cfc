//! What a run sees of the outside, as traits: a [`Feed`] gives bytes, a [`Sink`] takes them, a [`Desk`] has imported texts and entries of
//! the cache, and a [`Gate`] is passed before each fetch. A [`World`] is what contracts may know of what a desk finds.
//!
//! A feed and a sink may tell what they have left or have taken, so that contracts can speak of it. They count their failed calls: a call
//! that fails changes nothing else. [`MemFeed`], [`MemSink`] and [`MemDesk`] are in memory and fail at the calls that they are told to,
//! for tests of what a run does when a device fails. A narrow feed or sink moves one byte a call.
//!
//! ```text
//! let mut feed = MemFeed::new(alloc, bytes, failing_calls);
//! let count = feed.read(&mut buffer)?;            // 0 at the end alone, where the buffer has room
//! match desk.fetch(alloc, &loc) {
//!     Ok(Got::Found(found)) => ..,                // found.bytes, at most 1,048,577 of them
//!     Ok(Got::Absent | Got::Broken(_)) => ..,     // nothing is there; an HTTP status that is no answer
//!     Err(DeskError::Failed) => ..,               // the device failed
//!     Err(DeskError::Memory) => ..,
//! }
//! ```
#![tactic(auto)]

mod calls;
mod desks;
mod feeds;
mod gates;
mod list_worlds;
mod mem_desks;
mod mem_feeds;
mod mem_sinks;
mod moves;
mod sinks;
mod worlds;

pub use calls::CallList;
pub use desks::{Desk, DeskError};
pub use feeds::{Feed, ReadError};
pub use gates::{Gate, HoldGate, OpenGate};
pub use list_worlds::{ListWorld, Listed};
pub use mem_desks::{Cache, CacheEntry, Content, Contents, DeskFails, MemDesk, are_short};
pub use mem_feeds::MemFeed;
pub use mem_sinks::MemSink;
pub use sinks::{Sink, WriteError};
pub use worlds::{Found, Got, Silent, World};
