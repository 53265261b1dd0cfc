//! Laws of steps: in the fragment of the language their order does not matter.
//!
//! A step contracts one part of an expression. In the fragment (variables, literals of Bool, Natural and Integer, constants,
//! functions and their types, applications, `let`, annotations, lists, `Some`, records, their types and selections) it is
//! `step_at` of a place. Wherever two lists of steps lead, further steps bring their ends together. So all that end where no step
//! leads on end in one expression, which is the normal form if there is one. `dh_steps` makes the steps, and rests on these laws.
//!
//! The definitions and the statements stand in `specs/`; each law is the contract of a function that does nothing.
//!
//! ```text
//! one_end();          // where steps end, and no step leads on, they end in one expression
//! ```
#![tactic(auto)]

mod order;

pub use order::{
    confluence, fragment_kept, fragment_steps, normal_form_settled, one_end, settled_decides,
};
