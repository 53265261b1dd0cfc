//! The type of each built-in, as a code: of `Natural/fold`, `List`, `Optional` and the others (the standard's "Type inference", each
//! type under its form).
//!
//! The code mentions no variable of a binder outside, and the codes that were there before are unchanged. Each call adds the codes of the
//! type again. The only error is out of memory.
//!
//! ```text
//! match type_of(alloc, &mut codes, Builtin::NaturalShow)? {
//!     Some(code) => ..,       // `Natural → Text`
//!     None => ..,             // `Sort` alone has no type
//! }
//! ```
#![tactic(auto)]

mod functions;
mod lists;
mod naturals;
mod pieces;
mod table;

pub use table::type_of;
