//! Cases of runs of the command, as a person writes them, and what came of a run beside what is wanted: `docs/CASES.md` has the format.
//!
//! ```text
//! let cases = read_cases(alloc, text)?;      // `line 12: not in hexadecimal`
//! for case in &cases {
//!     for row in &case.rows { /* a run for each of `case.commands` */ }   // `report_of` says what it did otherwise
//! }
//! ```
#![tactic(auto)]

mod answers;
mod cases;
mod comparing;
mod drafts;
mod errors;
mod escapes;
mod fields;
mod reading;
mod reports;
mod rows;
mod values;

pub use answers::{CannotRun, Ran};
pub use cases::{Case, Entry, Failing, File, Found, Narrow, Row};
pub use comparing::agrees;
pub use errors::{CaseError, Fault};
pub use reading::read_cases;
pub use reports::{Report, Tally, report_of};
