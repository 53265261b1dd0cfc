//! Laws of locations, for the crates that rest on them: each is the contract of a function that does nothing.
ghost use Rattle.dh_paths.specs.LocationLaws.{CanonicalTwice, ChainedIsCanonical, ChainedHasComponents, ChainedIsSpellable};

/// To make a location canonical a second time changes nothing.
pub fn canonical_twice()
    ensures { CanonicalTwice }
{}

/// A chained location is canonical.
pub fn chained_is_canonical()
    ensures { ChainedIsCanonical }
{}

/// A chained location has a component where the child's has.
pub fn chained_has_components()
    ensures { ChainedHasComponents }
{}

/// Two locations that can be spelled are chained to one that can be spelled.
pub fn chained_is_spellable()
    ensures { ChainedIsSpellable }
{}
