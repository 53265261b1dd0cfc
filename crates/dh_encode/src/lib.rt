//! The binary form of expressions (the standard's "Binary encoding"): CBOR with shortest heads and definite lengths.
//!
//! An expression is written in one pass into one buffer: the length of each array and map is known before its items
//! are written. An application is written as one array with all of its arguments, and so are lets that follow one
//! another.
//!
//! ```text
//! encode(alloc, &e)?.as_slice()      // for `λ(x : Bool) → x`: 84 01 61 78 64 42 6F 6F 6C 82 61 78 00
//! ```
#![tactic(auto)]

mod collections;
mod expressions;
mod functions;
mod imports;
mod names;
mod parts;
mod whole;
mod writer;

pub use whole::encode;

#[cfg(test)]
mod tests;
