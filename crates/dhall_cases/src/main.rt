//! Runs cases of the command, which stand in the files that its words name, over desks and streams in memory; `docs/CASES.md` has
//! their format. It prints a paragraph for each run that differs from what is wanted, and a count for each file.
//!
//! ```text
//! dhall_cases types.cases imports.cases
//! ```
#![tactic(auto)]

mod desks;
mod files;
mod runs;

use crate::files::run_files;
use std::process::ExitCode;

fn main(rt: HostRuntime) -> ExitCode {
    match run_files(&rt) {
        Ok(tally) if tally.is_good() => ExitCode::SUCCESS,
        Ok(_) => ExitCode::from(1),
        Err(_) => ExitCode::from(2),
    }
}
