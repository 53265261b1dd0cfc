//! Where the nodes of an expression stand in its text, or only its imports, noted while its tokens are read.
//!
//! The machine of the grammar (`dh_grammar`) has one making that notes places (`placing`), generic in what is noted. [`Places`] is
//! that making as a builder (`Makes` of `dh_making`), generic in [`Notes`]: [`Locations`] notes the numbers of the tokens that are
//! locations of imports, [`Stretches`] the tree of the stretches of all nodes. Two rows of notes are joined by moving the shorter
//! to the longer, so long chains of lets, items or operators cost no more than near linear time.
//!
//! ```text
//! let sum = Places::<Stretches>::operation(alloc, at, BinOp::Plus, left, right)?;
//! let spans = in_text(alloc, &tokens, sum.nodes)?;
//! ```
#![tactic(auto)]

mod annotations;
mod bindings;
mod deques;
mod entries;
mod leaves;
mod locations;
mod nodes;
mod notes;
mod parts;
mod places;
mod rows;
mod spans;
mod stretches;
#[cfg(test)]
mod tests;
mod tokens;

pub use locations::{Locations, offsets_after};
pub use notes::Notes;
pub use parts::{Entries, Entry, Lets, Pending, Placed, Row, Rows, Stand};
pub use places::Places;
pub use spans::Span;
pub use stretches::{Stretches, in_text};
