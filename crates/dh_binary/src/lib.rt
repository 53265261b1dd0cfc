//! Reading the binary form of expressions (RFC 7049, the standard's "Binary encoding") head by head: the machine that a
//! decoder runs, and its laws.
//!
//! The definitions of `dh_syntax` say what bytes mean by whole items, and what is at fault by whether anything could
//! follow. The machine of `specs/Machine.antt` decides both with one look at each head: a stack of the arrays and maps
//! that stand open, each with what was made of its items so far. `specs/Stubs.antt` runs it on expressions that are cut
//! where they nest deeper than 500.
//! A caller who has shown that some bytes are answered `decoded bytes` calls `decodes()`, and knows that the answer is
//! the one that the definitions say.
#![tactic(auto)]

pub mod coding;
