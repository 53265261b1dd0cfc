//! What a ready root visits, and the entries that its run keeps.

mod digests;
mod fresh;
mod kept;
mod visited;

pub use digests::digests_of;
pub use fresh::least_fresh;
pub use kept::entries_of;
pub use visited::mark_visited;
