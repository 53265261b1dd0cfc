//! Laws of the definitions, for the crates that rest on them: each is the contract of a function that does nothing.
//!
//! The statements stand in `specs/`, a file for each module here, as definitions by name, so that a law is read there and
//! cited from here. A call of the function brings the law into a proof. Lemmas that no other crate cites stay in `proofs/`.
//!
//! ```text
//! label_order_is_total();                 // `before` is irreflexive, transitive and total
//! ```
#![tactic(auto)]

mod alpha;
mod builtins;
mod decoding;
mod indices;
mod kept_heads;
mod keys;
mod labels;
mod nameless;
mod nameless_runs;
mod runs;
mod same_runs;
mod shifting;
mod steps;
mod substituting;

pub use alpha::{
    alpha_equations, alpha_nesting, alpha_of_shift_down, alpha_of_shift_up, alpha_of_subst,
    alpha_once, free_after_alpha, same_decides, same_is_an_equivalence,
};
pub use builtins::builtin_names_tell;
pub use decoding::{one_decoding, one_expression};
pub use indices::{
    indices_and_binders, indices_below_more, indices_of_alpha, indices_of_put, indices_of_shift_up,
    indices_of_subst, indices_put_under,
};
pub use kept_heads::{heads_found_again, keeping_answers, table_of_sub};
pub use keys::key_order_is_total;
pub use labels::label_order_is_total;
pub use nameless::{
    alpha_reads_bare, core_of_put, core_of_shift_up, core_of_subst, forget_of_sub, reading_back,
    ren_is_sub, ren_of_first, ren_of_ren, ren_of_sub, same_is_bare, sub_of_first, sub_of_ren,
    sub_of_sub, sub_of_variables,
};
pub use nameless_runs::{endless_runs_of_nameless, runs_of_nameless, test_of_nameless};
pub use runs::{
    cost_of_run, more_heights, more_units, more_units_plain, one_answer, one_cost, one_normal_form,
    over_below_cost, without_nesting,
};
pub use same_runs::{costs_of_same, normal_forms_of_same, runs_of_same};
pub use shifting::{
    down_undoes_up, free_after_up, not_free_after_up, shift_down_nesting, shift_up_nesting,
    shifts_exchange, up_undoes_down,
};
pub use steps::normal_forms_are_reached;
pub use substituting::{
    not_free_after_subst, shift_up_of_put, shift_up_of_subst, subst_nesting, subst_not_free,
    subst_of_put, subst_of_subst, subst_variable_nesting,
};
