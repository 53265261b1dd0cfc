//! Type inference: the type of an expression in the empty context, or the first place that has none and the number of the rule that
//! fails there.
//!
//! A machine with stacks on the heap goes through the codes of the expression. The type is in normal form, and what is normalized for it
//! takes units of the purse. A limit is answered only where the definition licenses it; no clause says when memory is out.
//!
//! ```text
//! let mut purse = Purse { left: WHOLE_PURSE };
//! match infer(alloc, &e, &mut purse) {
//!     Ok(typed) => ..,                    // the type, in normal form
//!     Err(TypeFault::Ill(ill)) => ..,     // ill.path leads to the place; ill.rule is the number
//!     Err(fault) => ..,                   // a limit, or out of memory
//! }
//! ```
#![tactic(auto)]

mod asking;
mod beginnings;
mod binders;
mod completions;
mod facts;
mod failing;
mod forms;
mod founds;
mod frames;
mod functions;
mod inference;
mod known;
mod lets;
mod loads;
mod normals;
mod own_forms;
mod parts;
mod piles;
mod sharing;
mod sorts;
mod steps;
mod unloads;

pub use inference::infer;
