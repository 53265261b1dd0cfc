//! Round trips: what is printed is read as what it was, and so is what was read and is printed or encoded.
//!
//! The laws join those of the grammar with those of printed texts and of the binary form. They ask that the expression can be
//! spelled, that its numbers are in range and, for printed texts, that its texts hold no non-character; every expression that
//! was parsed is of this kind.
//!
//! ```text
//! printed_again();       // printing what was parsed and parsing it again changes nothing
//! ```
#![tactic(auto)]

pub mod laws;
