//! Laws of outcomes that are kept.
ghost use Rattle.dh_watch_laws.specs.Depending.{DependsOnAsked};
ghost use Rattle.dh_watch_laws.specs.Kept.{FaultsOfKeptStand, TextKept, LookKept, OutcomeKept, KeptAreResolved};
ghost use Rattle.dh_watch_laws.specs.Visiting.{VisitsKept, VisitsLoop, WaitsAreVisited};

/// An outcome depends on nothing but the keys that its resolution asks.
pub fn depends_on_asked()
    ensures { DependsOnAsked }
{}

/// What an ask adds keeps what is kept sound.
pub fn kept_sound()
    ensures text { TextKept }
    ensures look { LookKept }
    ensures outcome { OutcomeKept }
{}

/// Each outcome that is kept is the resolver's.
pub fn kept_are_resolved()
    ensures { KeptAreResolved }
{}

/// A place without a type that decides a key stands in the text of a key, by the outcomes that are kept.
pub fn faults_of_kept_stand()
    ensures { FaultsOfKeptStand }
{}

/// From a key that has an outcome the resolver visits the keys that are asked by the outcomes that are kept.
pub fn visits_kept()
    ensures { VisitsKept }
{}

/// The key for which another one waits is visited from that on.
pub fn waits_are_visited()
    ensures { WaitsAreVisited }
{}

/// Where a chain meets itself, each of its keys comes to the loop that is so closed, and the resolver visits the keys that are asked by
/// that.
pub fn visits_loop()
    ensures { VisitsLoop }
{}
