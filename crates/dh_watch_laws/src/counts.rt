//! Laws of how many keys are visited.
ghost use Rattle.dh_watch_laws.specs.VisitCounts.{CountsAreAsked, CountsAreKept, CountsOverflow, OneCounts, PassesCount, RunsClose};

/// Where the latest key of a run waits for one of it, its keys close a loop.
pub fn runs_close()
    ensures { RunsClose }
{}

/// Where what is kept decides a root, so many keys are visited from it, of those that have outcomes or are of the loop's chain.
pub fn counts_are_kept()
    ensures one { OneCounts }
    ensures kept { CountsAreKept }
{}

/// Where they are more than are allowed, the resolver visits too many over the contents.
pub fn counts_overflow()
    ensures { CountsOverflow }
{}

/// Where they are no more, the resolver visits no more for an ask that is not refused.
pub fn counts_are_asked()
    ensures { CountsAreAsked }
{}

/// One pass over what is kept, the latest outcome first, counts them.
pub fn passes_count()
    ensures { PassesCount }
{}
