//! Literals: numbers and texts as they are written, read and printed (`dhall.abnf`, "natural-literal" to
//! "single-quote-literal").
//!
//! Reading is given one whole literal, as the tokens of a text have it, and answers `None` or `BadEscape` exactly where it is
//! out of range or no literal. Printing gives the one text that the program prints, and what is printed is read back
//! (`laws`).
//!
//! ```text
//! let n = read_natural("0xFF");           // Some(255)
//! let text = write_integer(alloc, 7)?;    // `+7`
//! ```
#![tactic(auto)]

mod escapes;
mod escaping;
mod faults;
mod indentation;
pub mod laws;
mod numbers;

pub use escapes::{read_escape, unescape};
pub use escaping::{escape, push_escaped, push_escaped_str};
pub use faults::LitFault;
pub use indentation::unindent;
pub use numbers::{
    push_integer, push_natural, read_integer, read_natural, write_integer, write_natural,
};
