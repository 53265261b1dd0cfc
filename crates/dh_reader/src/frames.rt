//! Productions that have begun, on a stack.

mod depths;
mod gaps;
mod joining;
mod piles;
mod productions;
mod stack;

pub use gaps::gap_at;
pub use productions::{Frame, Open, Shut};
pub use stack::Frames;
