//! A reader of the tokens of Dhall texts: one token at a time, on a stack of the productions that have begun.
//!
//! ```text
//! let mut reader = Reader::<Expressions>::new(alloc);
//! reader.after(TokenKind::Natural(1))?;                     // reader.top is Top::Have: an operand has been read
//! reader.at = 1;                                            // the number of the next token
//! reader.after(TokenKind::End)?;                            // reader.top is Top::Done: what the builder made of `1`
//! ```
//!
//! Frames and top together are a state of the machine of the grammar (`Machine` in `dh_grammar`), and each function does what
//! the machine's function of its name does, over what a builder `M: Makes` builds: `Follows` in the clauses.
#![tactic(auto)]

mod closing;
mod frames;
mod levels;
mod operands;
mod reader;
mod stops;
mod tops;
mod waiting;

pub use frames::{Frame, Frames, Open, Shut, gap_at};
pub use reader::Reader;
pub use stops::Stop;
pub use tops::{Front, Held, Imported, Top, Wait};
