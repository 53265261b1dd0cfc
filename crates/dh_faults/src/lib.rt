//! The lines that tell what went wrong: where a type fault is in a text, and why an import has no value.
//!
//! [`place_of`] gives the line and the column, from 1 and in characters, of the node to which a path leads; [`Placed`] writes the line of a
//! type fault with them. [`why_text`] says in one line why an item has no value, [`in_item`] adds the import in which the fault is, and
//! [`why_status`] is the exit status of a run that this decides. The only error is out of memory.
//!
//! ```text
//! let (e, spans) = parse_spans(alloc, text)?;
//! let place = place_of(text, &spans, ill.path.as_slice());
//! let line = Placed { ill: &ill, place };                   // `{line}`: type rule 14 at 1, line 2, column 5
//! let reason = why_text(alloc, &blame.why)?;
//! ```
#![tactic(auto)]

mod imports;
mod lines;
mod places;

pub use imports::{in_item, why_status, why_text};
pub use lines::Placed;
pub use places::{Position, place_of};

#[cfg(test)]
mod tests;
