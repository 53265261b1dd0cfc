//! What is recorded of imports: the keys with their outcomes, the texts that were found, and the looks into the cache.
//!
//! Keys, texts and looks have numbers, in the order in which they came, and each is found in few steps. By what is recorded,
//! [`look_ahead`] says what is left to do for a key: a task is due, or it waits for another key. [`look_on`] says this where the walk of
//! the key's text is known to come so far, and does not begin it again. [`due_item`] makes the item of a key whose last step is due, and
//! [`is_own_item`] tells it. [`mark_visited`] marks the keys that a ready root visits. There is no history here, no task in flight and no
//! lock: a table adds these.
//!
//! ```text
//! let texts = Texts::of(rows.as_slice(), &order);
//! match look_ahead(&keys, &texts, &looks, n) {
//!     Reach::Due(Kind::Finish) => { let item = due_item(alloc, &keys, &texts, &looks, n)?; }
//!     Reach::Due(kind) => {}                          // a text, or a look, is to be fetched
//!     Reach::Wait(other) => {}                        // for the key of this number
//! }
//! ```
#![tactic(auto)]

mod entries;
mod items;
mod keeps;
mod kinds;
mod news;
mod rows;
mod stage;

pub use entries::{Entry, Seen};
pub use items::{Body, Done, Item};
pub use keeps::{digests_of, entries_of, least_fresh, mark_visited};
pub use kinds::Kind;
pub use news::{News, Noted, Parsed, imports_of, read_of};
pub use rows::{
    DigestProbe, Entrant, Entrants, KeyProbe, LocProbe, Look, LookProbe, Looks, Order, Probe, Text,
    Texts, enter_all, enter_few, is_at_most, is_bytes_before, is_digest_before, is_key_before,
    is_loc_before, look_at, next_number, place_in, put, text_at,
};
pub use stage::{
    Due, OwnFault, Plan, Reach, Reason, Stage, blame_at, due_item, is_own_item, look_ahead,
    look_on, plan_of, reach_of,
};
