//! What a claim on a shared table answers.

use dh_table::{Ticket, Work};

/// What a claim on a shared table answers.
#[derive(Debug, Drop)]
pub enum Turn {
    /// The task of a ticket, and what it needs.
    Work(Ticket, Work),
    /// Nothing is to be done now: wait, and claim again. (No clause says what the table was then.)
    Idle,
    /// The root is decided.
    Over,
    /// Memory is wanting; a ticket that was drawn is given back.
    Memory,
}
