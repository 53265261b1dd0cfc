//! One GET over an open link (RFC 9112): the request of a URL, and what the bytes that come back answer.
//!
//! A [`Link`] takes bytes and gives bytes. Each may tell what was sent and what is left to receive, so that contracts can
//! speak of it. [`MemLink`] is the one in memory, some of whose calls fail.
//!
//! ```text
//! let got = get(alloc, &mut link, &url)?;
//! ```
#![tactic(auto)]

mod bodies;
mod fields;
mod framings;
mod gets;
mod heads;
mod inboxes;
pub mod laws;
mod lines;
mod links;
mod mem_links;
mod requests;
mod scans;
mod sending;

pub use framings::Framing;
pub use gets::get;
pub use links::{GetError, Link, LinkError};
pub use mem_links::MemLink;
pub use requests::request_of;
pub use sending::send_all;

#[cfg(test)]
mod tests;
