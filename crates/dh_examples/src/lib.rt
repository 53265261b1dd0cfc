//! Worked examples of the definitions: each is an equation that the checker computes.
//!
//! They stand in `specs/`, in the folders of the definitions; `specs/Vocabulary` has the terms of which they speak. An
//! example looks like this, and is checked by computing both sides:
//!
//! ```text
//! cost : HasCost names sum 2      -- `1 + 2` takes two units
//! cost = refl
//! ```
//!
//! No other crate stands on this one, so a new example checks nothing else again.
#![tactic(auto)]
