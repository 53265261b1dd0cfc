//! The heads of CBOR items (RFC 7049 §2.1), read from bytes in every length that CBOR gives them.
//!
//! A head is the major type of an item and its number. `head_at` reads a head alone, `mark_at` a head together with
//! the bytes of its string. Neither takes memory: a string is a slice of the bytes that were read.
//!
//! ```text
//! mark_at(&[0x61, 0x78], 0)      // Ok: the text `x`, and the next head would stand at 2
//! ```
#![tactic(auto)]

mod faults;
mod heads;
mod marks;

pub use faults::CborFault;
pub use heads::{Head, head_at};
pub use marks::{Atom, Mark, Marked, mark_at};

#[cfg(test)]
mod tests;
