//! Tokens that end the place of a frame, or the text.

mod closings;
mod entries;
mod marks;
mod words;

pub use closings::{Closing, close};
