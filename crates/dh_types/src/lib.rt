//! Types as codes: whether a normal type has a form, with which parts, and the forms that the rules of typing make.
//!
//! A type is a code, whose parts are older codes, so what two types share stands once, and nothing is copied where a rule takes
//! a part of a type. Each view is its definition over what the code stands for.
//!
//! ```text
//! if let Some((domain, x, body)) = forall(&codes, ty) {}      // the parts of `∀(x : domain) → body`
//! if same(alloc, &codes, found, wanted)? {}                   // but for the names of binders
//! ```
#![tactic(auto)]

mod binders;
mod binding;
mod building;
mod changes;
mod heads;
mod kinds;
mod memos;
mod nodes;
mod rows;
pub mod rules;
mod sameness;
mod steps;

pub use binders::seen_outside;
pub use binding::{bound_in, opened};
pub use building::{applied, bound, constant, function_type, node, plain_node, record_type_of};
pub use heads::{builtin_of, is_constant, universe_of};
pub use kinds::{application, argument_of, equivalence, forall, record_type, union_type};
pub use memos::Memo;
pub use nodes::shown;
pub use sameness::same;
pub use steps::{Found, Step, is_type};
