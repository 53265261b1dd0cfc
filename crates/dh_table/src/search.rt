//! The search for a task that is open: the walk of the root over piles of wanted keys.

mod explored;
mod leads;
mod loops;
mod piles;
mod scratch;
mod searches;

pub(crate) use explored::{Explored, HELD, READY, mark_all, waiters};
pub(crate) use leads::{lead, put_wanted};
pub(crate) use loops::least_of_loop;
pub(crate) use piles::{Piles, pour};
pub(crate) use scratch::Scratch;
pub(crate) use searches::find_open;
