//! The rules of typing for records, record types, unions, selection, projection, `⫽`, `∧`, `⩓`, `merge`, `toMap` and `with` (the
//! standard's "Type inference", the sections named for these forms).
//!
//! A rule sees the types of a node's parts, as codes. It answers with a type, with the number of the rule that fails, or with
//! what it wants to know of a part; the caller finds that out, and asks again.
#![tactic(auto)]

mod combining;
mod drafts;
mod fields;
mod groups;
mod joins;
mod labels;
mod maps;
mod merges;
mod preferring;
mod records;
mod unions;
mod universes;
mod updates;

pub use groups::row_step;
