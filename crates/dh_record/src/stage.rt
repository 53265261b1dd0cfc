//! What is left to do for a key, and the item of its last step.

mod blames;
mod due_items;
mod dues;
mod equality;
mod own_items;
mod plans;
mod reaches;
mod stages;
mod ways;

pub use blames::blame_at;
pub use due_items::due_item;
pub use dues::{Due, OwnFault, Reason};
pub use own_items::is_own_item;
pub use plans::{Plan, plan_of};
pub use reaches::{Reach, look_ahead, reach_of};
pub use stages::{Stage, reason_at, stage_at, stage_of};
pub use ways::look_on;
