//! The grammar of the language (`dhall.abnf`) as a machine with a stack that reads one token a step and never looks ahead, and
//! its laws: each is the contract of a function that does nothing, as `parses()`, by which every text has the answer of the
//! function `parsed` of `specs/Parsed`.
//!
//! `derivations` ties the machine to the grammar, `texts` to what bytes spell, `depths` and `places` say what a reader keeps
//! beside expressions, and `readings` has the equations of its loop. A reader mirrors `specs/Machine` over what `specs/Stubs`
//! makes, and over what `specs/Placing` makes where offsets are wanted.
#![tactic(auto)]

mod depths;
mod derivations;
mod places;
mod readings;
mod texts;

pub use depths::{deep_exactly, keeps_within, stubs_spread, tests_depth};
pub use derivations::{
    accepts, derivation_is_unique, first_fault, knows_depths, knows_nesting, no_dead_states,
};
pub use places::{
    has_offsets, has_stretches, offsets_are_unique, places_stubs, reads_offsets, reads_stretches,
    stretches_are_unique,
};
pub use readings::{cannot_stand, goes_on, lacks_gap, opens_too_many};
pub use texts::{parsed_is_spellable, parses, parses_once, spelling_is_unique, spells_in_range};
