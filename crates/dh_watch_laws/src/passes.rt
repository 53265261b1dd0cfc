//! Laws of depth-first runs over what is kept.
ghost use Rattle.dh_watch_laws.specs.Asking.{AsksDecide};
ghost use Rattle.dh_watch_laws.specs.Counting.{ManyAreNoMore, ManyAreVisited, OneCount, RunsCount, TextsGrow};
ghost use Rattle.dh_watch_laws.specs.Overflowing.{ManyOverflow};
ghost use Rattle.dh_watch_laws.specs.Running.{LoopsClose, RunsAdd, RunsDecide, RunsLoop};

/// A run keeps what is kept sound, fetches and finds nothing but what is visited, and ends as the resolver does.
pub fn runs_are_resolved()
    ensures add { RunsAdd }
    ensures decide { RunsDecide }
    ensures loops { RunsLoop }
    ensures close { LoopsClose }
{}

/// A run fetches each location whose text is asked and was not kept, once, and no other.
pub fn runs_count()
    ensures count { RunsCount }
    ensures one { OneCount }
    ensures grow { TextsGrow }
{}

/// The keys of the trail of a run and those that it found are so many different keys that are visited.
pub fn many_are_visited()
    ensures visited { ManyAreVisited }
    ensures most { ManyAreNoMore }
{}

/// Where a run visits so many different keys, the resolver visits too many.
pub fn many_overflow()
    ensures { ManyOverflow }
{}

/// An ask that is not refused decides its root, and what it asks is there.
pub fn asks_decide()
    ensures { AsksDecide }
{}
