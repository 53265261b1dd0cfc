//! Shifting, substitution, free variables, α-normal forms and sameness of expressions.
//!
//! Each call is its definition (`dh_syntax/specs/Names`) on every expression, in one pass over it. Indices have 32 bits: a call
//! that could make a greater one has a condition, and `fits_shift`, `fits_subst` and `fits_alpha` test it. What a call
//! recurses on is the expression alone, so its depth is that of the expression.
//!
//! ```text
//! if fits_subst(0, &value, &body) {
//!     let body = subst(alloc, &x, 0, &value, &body)?;     // `body` with `value` for `x`
//! }
//! ```
#![tactic(auto)]

mod alpha_forms;
mod binders;
mod conditions;
mod cores;
mod equality;
mod free_variables;
pub mod laws;
mod nameless;
mod sameness;
mod shifting;
mod substitution;
mod weakening;

pub use alpha_forms::alpha;
pub use binders::is_same_label;
pub use conditions::{fits_alpha, fits_shift, fits_subst};
pub use cores::{Core, CoreKid, CoreKids};
pub use equality::{is_same_key, is_same_loc, is_same_op};
pub use free_variables::free;
pub use nameless::{from_core, to_core};
pub use sameness::{is_same_binder, is_same_expr, same};
pub use shifting::shift;
pub use substitution::subst;

#[cfg(test)]
mod tests;
