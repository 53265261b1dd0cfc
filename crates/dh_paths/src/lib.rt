//! Locations of imports: made canonical, chained, tested and written as text (the standard's "Import resolution").
//!
//! A text at one location imports another one by the location that `chain` gives. A canonical location stays as it is, and a
//! chained one is canonical and can be spelled where both can (`laws`). `sane` and `cors` say whether a text from the web may
//! import what it names.
//!
//! ```text
//! let at = chain(alloc, Some(&parent), &child)?;      // `./a/b` and `../c` give `./c`
//! let text = loc_text(alloc, &at)?;
//! ```
#![tactic(auto)]

mod canonical;
mod chains;
mod checks;
mod escapes;
pub mod laws;
mod texts;

pub use canonical::canon;
pub use chains::chain;
pub use checks::{cors, sane};
pub use texts::loc_text;

#[cfg(test)]
mod tests;
