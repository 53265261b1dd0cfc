//! What a reader of tokens builds, as a trait, with the words that it is given: names, keys, what an import asks for.
//!
//! The machine of the grammar (`dh_grammar`) is generic in what it makes of its parts, and so is the reader that mirrors it.
//! A builder says by `Makes` which making of the machine it is: expressions, or the places of their nodes.
//!
//! ```text
//! let sum = M::operation(alloc, at, BinOp::Plus, left, right)?;      // (M.makes at).operation Plus left right
//! ```
#![tactic(auto)]

mod keys;
mod labels;
mod making;
mod projections;
mod sources;
mod words;

pub use keys::Keys;
pub use labels::ByLabel;
pub use making::Makes;
pub use projections::Projection;
pub use sources::Source;
pub use words::{EntryKey, Word};
