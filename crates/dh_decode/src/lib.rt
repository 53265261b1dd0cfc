//! Reading an expression from its binary form (the standard's "Binary encoding", in CBOR, RFC 7049).
//!
//! `decode` looks at each head once, and keeps a stack of the arrays and maps that stand open, each with what was made of
//! its items so far. It takes no memory for lengths that bytes only promise. Where an expression would nest deeper than
//! 500, a stub takes its place and the reading goes on, since a fault behind it is told first. The machine that it runs,
//! and the laws of that machine, are those of `dh_binary`.
//!
//! ```text
//! decode(alloc, &[0x84, 0x03, 0x04, 0x82, 0x0F, 0x01, 0x82, 0x0F, 0x02])      // Ok: 1 + 2
//! ```
#![tactic(auto)]

mod decoding;
mod ending;
mod entries;
mod filling;
mod imports;
mod lets;
mod nodes;
mod numbers;
mod parts;
mod piles;
mod places;
mod reading;
mod rows;
mod spelling;
mod stops;
mod taking;
mod texts;
mod wants;

pub use decoding::decode;

#[cfg(test)]
mod tests;
