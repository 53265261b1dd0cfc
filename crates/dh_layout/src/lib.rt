//! What reading a printed text answers.
//!
//! A printed text is read back as its expression, unless it is larger than a text may be or opens more than 500
//! expressions; `specs/` has the count of those, `proofs/` the tokens of each layout and their derivation.
//!
//! ```text
//! printed_parses();      // ParsesTo (text_of e) (answer e), for every e that can be spelled
//! ```
#![tactic(auto)]

pub mod laws;
