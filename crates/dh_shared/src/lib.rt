//! The table of imports under one lock, and what its workers count.
//!
//! Workers claim tasks, deliver what they found and release what they cannot finish; each call is one step of the table under the
//! lock. No clause can say what the table was when a call took the lock. So each worker counts its steps in ledgers, and once all
//! seats are back the counts are those of the history.
//!
//! ```text
//! match shared.claim(rt, &mut seat) {
//!     Turn::Work(ticket, work) => ..,
//!     Turn::Idle => shared.wait(rt, &seat),
//!     Turn::Over | Turn::Memory => ..,
//! }
//! ```
#![tactic(auto)]

mod books;
mod calls;
mod ledgers;
mod locks;
mod runs;
mod shared_tables;
mod turns;

pub use books::{Seat, Shares};
pub use ledgers::Blanks;
pub use runs::{Counted, Rooted};
pub use shared_tables::SharedTable;
pub use turns::Turn;
