//! The law of two runs in one world.
ghost use Rattle.dh_cache_laws.specs.OneWorld.{OneWorld};

/// Where two runs found the same texts, no entry of a cache, and an answer each, a command writes the same of a text over both, but for
/// the names of binders.
pub fn one_world()
    ensures { OneWorld }
{}
