//! What a table answers, and changes nothing: the work of a ticket, the end of the root, and what the run keeps.

mod keeps;
mod queries;
mod readings;
mod roots;
mod works;

pub use roots::Ended;
pub use works::Work;
