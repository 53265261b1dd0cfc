//! What became of an import, and in `specs/` the definitions of imports: the walk of a text, the resolver, the record of what
//! was found, the machine over a table that several workers share, freezing, and the cache.
//!
//! ```text
//! match &outcome {
//!     Outcome::Good { value, origin } => ..,    // the value of the key, and where it came from
//!     Outcome::Bad(blame) => ..,                // which item is at fault, and why
//! }
//! ```
#![tactic(auto)]

mod outcomes;

pub use outcomes::{Blame, Origin, Outcome, Why};
