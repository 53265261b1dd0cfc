//! One run of the import resolver: workers over one table of imports, each with a desk of its own, resolve all imports of an expression.
//!
//! [`resolve_all`] runs the workers in threads, [`resolve_one`] runs one in the thread of its caller, and [`worker`] is what each of them
//! does until the run is over. The root ends as one depth-first resolver has it over what was found, or by more than 4,096 keys. The desks
//! keep nothing: the entries to keep are part of the answer. Nothing is proved of the waiting.
//!
//! ```text
//! let shelf = Shelf::new(alloc)?;
//! let answered = resolve_all(rt, alloc, &mut desks, workers, &shelf, root, &OpenGate)?;
//! match answered.ended {
//!     Ended::Ready(expr) => ..,    // the root with a value for each import
//!     Ended::Bad(blame) => ..,     // which import is at fault, and why
//! }
//! ```
#![tactic(auto)]

mod answers;
mod places;
mod runs;
mod single;
mod workers;

pub use answers::{Answered, SessionFault};
pub use runs::resolve_all;
pub use single::resolve_one;
pub use workers::worker;
