//! The rows of a record: keys, texts and looks, by their numbers, and in the order in which they are found.

mod entering;
mod entrants;
mod index;
mod key_order;
mod lookups;
mod probes;
mod recorded;
mod room;

pub use entering::{enter_all, enter_few};
pub use entrants::Entrants;
pub use index::{Order, Probe, place_in};
pub use key_order::{is_at_most, is_bytes_before, is_digest_before, is_key_before, is_loc_before};
pub use lookups::{Looks, Texts, look_at, text_at};
pub use probes::{DigestProbe, KeyProbe, LocProbe, LookProbe};
pub use recorded::{Entrant, Look, Text};
pub use room::{next_number, put};
