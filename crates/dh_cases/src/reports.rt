//! Counts of runs, and the paragraph of a run that differs.

ghost use Rattle.std.specs.Prelude.{◌≡◌, ◌↔◌, ◌<◌, IsTrue, IfOk, MatchResult};
ghost use Rattle.dh_cases.specs.Agreeing.{Agrees};
ghost use Rattle.dh_cases.specs.Tallies.{good, different, broken};

use crate::answers::{CannotRun, Ran};
use crate::cases::{Case, Row};
use crate::comparing::{agrees, differences};
use std::alloc::{AllocError, Global};

/// How many runs there were, how many of them differ from what is wanted, and how many files and cases could not be read or run. Each
/// stands still at `u64::MAX`.
#[derive(Clone, Copy, Debug, PartialEq, Eq)]
pub struct Tally {
    pub runs: u64,
    pub differ: u64,
    pub broken: u64,
}

impl Tally {
    /// Nothing was run.
    pub const NONE: Tally = Tally {
        runs: 0,
        differ: 0,
        broken: 0,
    };

    /// One run, as wanted.
    const GOOD: Tally = Tally {
        runs: 1,
        differ: 0,
        broken: 0,
    };

    /// One run that differs.
    const DIFFERENT: Tally = Tally {
        runs: 1,
        differ: 1,
        broken: 0,
    };

    /// A file that cannot be read, or a case that cannot be run.
    pub const BROKEN: Tally = Tally {
        runs: 0,
        differ: 0,
        broken: 1,
    };

    /// Whether something was run, and all as wanted.
    pub fn is_good(&self) -> bool
        ensures { IsTrue result ↔ ((0 < self.now.runs) × (self.now.differ ≡ 0) × (self.now.broken ≡ 0)) }
    {
        self.runs > 0 && self.differ == 0 && self.broken == 0
    }

    /// Both tallies together. A sum that does not fit stands still at the last value.
    pub fn plus(&self, other: &Tally) -> Tally
        ensures runs { (result.runs ≡ 0) ↔ ((self.now.runs ≡ 0) × (other.now.runs ≡ 0)) }
        ensures differ { (result.differ ≡ 0) ↔ ((self.now.differ ≡ 0) × (other.now.differ ≡ 0)) }
        ensures broken { (result.broken ≡ 0) ↔ ((self.now.broken ≡ 0) × (other.now.broken ≡ 0)) }
    {
        Tally {
            runs: self.runs.saturating_add(other.runs),
            differ: self.differ.saturating_add(other.differ),
            broken: self.broken.saturating_add(other.broken),
        }
    }
}

/// What one run comes to: its counts, and a paragraph where something is not as wanted.
#[derive(Debug, Drop)]
pub struct Report {
    pub tally: Tally,
    pub text: String,
}

/// The words of a command, with a blank before each.
fn joined(alloc: Global, words: &[String]) -> Result<String, AllocError> {
    let mut line = String::new(alloc);
    for word in words {
        line.push_str(" ")?;
        line.push_str(word.as_str())?;
    }
    Ok(line)
}

/// The paragraph of a run that differs: where its row stands, its case and its words, and what it did otherwise.
fn paragraph(
    alloc: Global,
    place: &str,
    case: &Case,
    row: &Row,
    words: &[String],
    ran: &Ran,
) -> Result<String, AllocError> {
    let (line, name) = (row.line, case.name.as_str());
    let words = joined(alloc, words)?;
    let lines = differences(alloc, case, row, ran)?;
    format!(in alloc; "{place}:{line}: {name}:{words}\n{lines}")
}

/// The report of a run of a case of the file of this name.
pub fn report_of(
    alloc: Global,
    place: &str,
    case: &Case,
    row: &Row,
    words: &[String],
    ran: &Result<Ran, CannotRun>,
) -> Result<Report, AllocError>
    ensures { IfOk result (λ report. MatchResult ran.now (λ ran. (Agrees case.now row.now ran → report.tally ≡ good) × (¬ Agrees case.now row.now ran → report.tally ≡ different)) (λ fault. report.tally ≡ broken)) }
{
    let (tally, text) = match ran {
        Err(fault) => {
            let (line, name) = (row.line, case.name.as_str());
            let text = format!(in alloc; "{place}:{line}: {name}: {fault}\n")?;
            (Tally::BROKEN, text)
        }
        Ok(ran) if agrees(case, row, ran) => (Tally::GOOD, String::new(alloc)),
        Ok(ran) => {
            let text = paragraph(alloc, place, case, row, words, ran)?;
            (Tally::DIFFERENT, text)
        }
    };
    Ok(Report { tally, text })
}
