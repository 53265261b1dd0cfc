//! Laws of the resolver of imports.
ghost use Rattle.dh_import_laws.specs.ImportLaws.{OneOutcome, MoreToSpend, MoreRecorded, CodeComesOf, CodeComes, OneOutcomeOfCode, OneListOfKeeps};
ghost use Rattle.dh_import_laws.specs.Paths.{ValuesByLocation, PathsByLocation, OnePath};
ghost use Rattle.dh_import_laws.specs.WithoutMemory.{KeysNeedNone, RootsNeedNone};

/// The resolver gives a key one outcome.
pub fn one_outcome()
    ensures { OneOutcome }
{}

/// More to spend on typing and normalising changes no outcome.
pub fn more_to_spend()
    ensures { MoreToSpend }
{}

/// More texts and looks change no outcome.
pub fn more_recorded()
    ensures { MoreRecorded }
{}

/// The last step of code is by the rules of typing and normalising: it gives what they give, that is one outcome, and gives
/// it with enough to spend.
pub fn code_comes_of()
    ensures gives { CodeComesOf }
    ensures given { CodeComes }
    ensures one { OneOutcomeOfCode }
{}

/// A run whose root is ready keeps one list of cache entries.
pub fn one_list_of_keeps()
    ensures { OneListOfKeeps }
{}

/// The value of a text and the ways back into the text are the same under each key of its location.
pub fn paths_by_location()
    ensures values { ValuesByLocation }
    ensures paths { PathsByLocation }
{}

/// By whichever of the resolver's outcomes a text has a value, it has the same value, and the ways back into it are the same.
pub fn one_path()
    ensures { OnePath }
{}

/// Where no limit on record is want of memory, no fault that decides a key or the root is.
pub fn no_want_of_memory()
    ensures keys { KeysNeedNone }
    ensures root { RootsNeedNone }
{}
