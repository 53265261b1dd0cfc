//! A world of generated texts, whose imports make a large graph: text K imports the texts K/2 and K/3.
//!
//! ```text
//! text_of(alloc, 4)      // "./g2 + ./g1 + 4", at ./g4
//! list_text(alloc, 2)    // "[./g0, ./g1, ./g2]"
//! ```
//!
//! A [`GenDesk`] stores no text: it makes the one that it is asked for. That it tells what the world [`Gen`] tells is the clause of each
//! desk, and none of its calls fails on a device.
#![tactic(auto)]

mod desks;
pub mod laws;
mod numbers;
mod texts;
mod words;
mod worlds;

pub use desks::{GenDesk, made};
pub use numbers::MOST_NUMBER;
pub use texts::{list_text, text_of};
pub use words::{check_number, number_named};
pub use worlds::Gen;

#[cfg(test)]
mod tests;
