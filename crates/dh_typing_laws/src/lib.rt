//! Laws of typing, for the crates that rest on them: each is the contract of a function that does nothing.
//!
//! Names do not matter (`typing_of_nameless`), nor do more units, heights and depth once they are enough
//! (`judged_with_more_units`, `judged_with_more_heights`, `judged_with_more_depth`); an expression has one type (`one_type`);
//! and typing goes through one more binder (`weakening`) and through the value of a `let` (`substitution`), so that a type
//! can be kept (`kept_typing`). A proof that needs a law calls its function:
//!
//! ```text
//! weakening(); // then the facts of its contract are known
//! ```
#![tactic(auto)]

mod judgments;
mod kept_types;
mod nameless_typing;

pub use judgments::{
    judged_with_more_depth, judged_with_more_heights, judged_with_more_units, one_judgment,
    one_type,
};
pub use kept_types::{kept_longer, kept_typing, substitution};
pub use nameless_typing::{typing_of_nameless, weakening};
