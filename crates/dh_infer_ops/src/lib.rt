//! The rules of typing for `if`, the operators on Bool, Natural, Text and List, lists, `Some`, texts, assertions, equivalences
//! and annotations (the standard's "Type inference", the sections named for these forms).
//!
//! A rule sees the types of a node's parts, as codes. It answers with a type, with the number of the rule that fails, or with
//! what it wants to know of a part; the caller finds that out, and asks again.
//!
//! ```text
//! match operator_step(alloc, &mut codes, &found, op, &types)? {
//!     Some(Step::Takes(code)) => ..,          // the type
//!     Some(Step::Refuses(rule)) => ..,        // the number of the rule that fails
//!     Some(Step::WantsNormal(part)) => ..,    // find that, put it into `found`, ask again
//!     Some(step) => ..,
//!     None => ..,                             // a form of another group
//! }
//! ```
#![tactic(auto)]

mod drafts;
mod equalities;
mod groups;
mod lists;
mod operators;

pub use groups::operator_step;

#[cfg(test)]
mod tests;
