//! Integrity digests of expressions (the standard's "Integrity checks"), and their text.
//!
//! ```text
//! digest(alloc, &e)?                 // the SHA-256 digest of the binary form of the α-normal form of `e`
//! digest_text(alloc, &d)?.as_str()   // its 64 digits, as behind `sha256:`
//! ```
#![tactic(auto)]

mod digests;

pub use digests::{digest, digest_text};

#[cfg(test)]
mod tests;
