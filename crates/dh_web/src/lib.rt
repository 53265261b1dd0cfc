//! Texts over plain HTTP: a link over a TCP stream, and one request over a connection of its own.
//!
//! A host is looked up by the system, and its addresses are tried in turn. A peer that stays silent for
//! [`PATIENCE_SECONDS`] ends as a failed device. Nothing is sent but the one request, and a connection is closed when its
//! text is read.
//!
//! ```text
//! let got = web_text(&rt, alloc, &url)?;
//! ```
#![tactic(auto)]

mod addresses;
mod connections;
mod streams;
mod texts;

pub use connections::PATIENCE_SECONDS;
pub use texts::{web_text, web_text_within};

#[cfg(test)]
mod tests;
