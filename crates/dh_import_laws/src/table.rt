//! Laws of the table that workers share.
ghost use Rattle.dh_import_laws.specs.Blames.{FaultsStand, RootFaultsStand};
ghost use Rattle.dh_import_laws.specs.Claims.{ReleasedBetween, FetchesByReleases};
ghost use Rattle.dh_import_laws.specs.Failures.{FailuresAreRecorded, RootFailuresAreRecorded};
ghost use Rattle.dh_import_laws.specs.ImportLaws.{OutcomesAreResolved, RootIsResolved, VisitsAreResolved, GoesOn, FetchesAreWanted, FrozenLeadAfterLooks, InFlightOnce, InFlightUnrecorded, InFlightDue, OutcomesStay, RootStays, TooManyStay, TextsAreParsed, EntriesAreGood, LimitsAreLicensed};
ghost use Rattle.dh_import_laws.specs.Recorded.{TextsAreRecordedOnce, LooksAreRecordedOnce};

/// After every history each outcome, and the end of the root, is the resolver's over the record; at a ready root so are
/// the visited keys.
pub fn outcomes_are_resolved()
    ensures outcomes { OutcomesAreResolved }
    ensures root { RootIsResolved }
    ensures visits { VisitsAreResolved }
{}

/// With nothing in flight, no task open and the root undecided, a loop can be marked, and then the root is decided or a
/// task is open.
pub fn claims_go_on()
    ensures { GoesOn }
{}

/// Only what is wanted is fetched, and through a frozen key only after its look.
pub fn only_wanted()
    ensures fetches { FetchesAreWanted }
    ensures frozen { FrozenLeadAfterLooks }
{}

/// A task is in flight under one serial at most, what is in flight is not recorded, and a finish that is in flight is due.
pub fn in_flight_once()
    ensures once { InFlightOnce }
    ensures unrecorded { InFlightUnrecorded }
    ensures due { InFlightDue }
{}

/// Between two claims of one task stands a release of the first. So the claims of fetches of one location are at most one more
/// than the releases.
pub fn claimed_again()
    ensures released { ReleasedBetween }
    ensures fetches { FetchesByReleases }
{}

/// A step changes no outcome and no end of the root, and keys that are too many stay so.
pub fn steps_lose_nothing()
    ensures outcomes { OutcomesStay }
    ensures root { RootStays }
    ensures too_many { TooManyStay }
{}

/// What a text is recorded to parse to is what it parses to, recorded entries are good, and recorded limits are licensed.
pub fn records_are_true()
    ensures texts { TextsAreParsed }
    ensures entries { EntriesAreGood }
    ensures limits { LimitsAreLicensed }
{}

/// A fault of typing that decides stands in the text of a key of which each import has a value: that of a key, and that of the root.
pub fn faults_stand_in_texts()
    ensures keys { FaultsStand }
    ensures root { RootFaultsStand }
{}

/// Where a failed device decides a key or the root, a failure is recorded at some location.
pub fn failures_are_recorded()
    ensures keys { FailuresAreRecorded }
    ensures root { RootFailuresAreRecorded }
{}

/// No location and no digest is recorded twice.
pub fn recorded_once()
    ensures texts { TextsAreRecordedOnce }
    ensures looks { LooksAreRecordedOnce }
{}
