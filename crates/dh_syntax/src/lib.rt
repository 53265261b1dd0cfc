//! The types that all crates of the command share, and in `specs/` the definitions of the language.
//!
//! An expression is an [`Expr`]: a variable with its index, or a node, whose [`Op`] says what it is, with its parts in order,
//! each under at most one binder. Contracts see it as its plain tree, `term`, of which the definitions speak; labels, pieces of
//! text and lists are seen as their bytes and their elements. What takes memory is given the allocator, and answers
//! `AllocError` or the fault `Memory` where it is wanting.
//!
//! ```text
//! let copied = copy(alloc, &e)?;          // equal to `e`
//! let depth = nest(&copied);              // 0 for a variable, 1 for `[ x ]`
//! ```
#![tactic(auto)]

mod copies;
mod expressions;
mod fault_lines;
mod faults;
mod label_order;
mod limits;
mod lists;
mod locations;
mod operators;
mod purses;
mod shapes;
mod texts;
mod tokens;
mod values;

pub use copies::{copy, copy_alts, copy_kids, copy_labels, copy_name, copy_path, copy_pieces};
pub use expressions::{Alt, Alts, Expr, Kid, Kids, Labels, Op, Pieces};
pub use faults::{DecodeFault, Ill, NormFault, ParseFault, Path, TypeFault};
pub use limits::{
    DEFAULT_WORKERS, MOST_BYTES, MOST_ELEMENTS, MOST_ENTRY_BYTES, MOST_HEIGHT, MOST_INDEX,
    MOST_KEYS, MOST_NESTING, MOST_OPEN, MOST_OPEN_ITEMS, MOST_PLAIN_HEIGHT, MOST_REACHED,
    MOST_TEXT_BYTES, MOST_WORKERS, WHOLE_PURSE, limits_agree,
};
pub use lists::Many;
pub use locations::{BoxedImport, Comps, Digest, Import, Key, Loc, Mode, Url};
pub use operators::{BinOp, Builtin};
pub use purses::Purse;
pub use shapes::{arity_ok, is_well_formed, nest, nest_of_kids};
pub use texts::{Bytes, Label, Piece};
pub use tokens::{Keyword, Mark, TextForm, Token, TokenKind};
pub use values::assure_values;
