//! Laws of runs with a cache that was honestly written: it changes nothing except names of bound variables.
//!
//! Nothing here runs: each law is a function with an empty body whose contract is the statement. [`warm_roots`], [`warm_digests`] and
//! [`warm_answers`] compare runs with such a cache to runs without good entries, [`honest_entries`] says what honest entries are.
//! [`one_world`] is of two runs that found the same texts and no entry, [`typing_of_same`] of expressions that differ in names of binders
//! alone.
//!
//! ```text
//! dh_cache_laws::warm_answers();    // from here on the statement `WarmAnswers` is known
//! ```
#![tactic(auto)]

mod one_worlds;
mod same_typing;
mod warm_cache;

pub use one_worlds::one_world;
pub use same_typing::typing_of_same;
pub use warm_cache::{honest_entries, warm_answers, warm_digests, warm_roots};
