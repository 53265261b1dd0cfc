//! Digests inserted behind the imports of a text (the command `freeze`).
//!
//! ```text
//! let (root, offsets) = parse_imports(alloc, text)?;
//! frozen_text(alloc, text, offsets.as_slice(), digests)?     // ` sha256:` and 64 digits behind each import that has a digest
//! ```
//!
//! The offsets stand in the order of the nodes, which is not that of the text where a record's fields are not in the order of
//! their labels; so the places are sorted. No two imports of a text stand at one offset.
#![tactic(auto)]

mod freezing;
mod places;

pub use freezing::{freeze, frozen_text};
pub use places::{DigestAt, Places, places_behind};

#[cfg(test)]
mod tests;
