//! Laws of runs.

ghost use Rattle.dh_watching.specs.QuietRuns.{QuietRuns};

/// A run without words in which no device fails writes what its script writes.
pub fn quiet_runs()
    ensures { QuietRuns }
{}
