//! Laws of imports: of the one depth-first resolver over a record, and of the table that workers share, which after every
//! history gives what that resolver gives.
//!
//! Each law is the contract of a public function with an empty body. A crate that rests on one calls nothing: it cites the
//! lemma behind it, or the function where a clause has to speak of it:
//!
//! ```text
//! dh_import_laws::outcomes_are_resolved();    // from here on the facts of its contract are known
//! ```
#![tactic(auto)]

mod resolver;
mod table;

pub use resolver::{
    code_comes_of, more_recorded, more_to_spend, no_want_of_memory, one_list_of_keeps, one_outcome,
    one_path, paths_by_location,
};
pub use table::{
    claimed_again, claims_go_on, failures_are_recorded, faults_stand_in_texts, in_flight_once,
    only_wanted, outcomes_are_resolved, recorded_once, records_are_true, steps_lose_nothing,
};
