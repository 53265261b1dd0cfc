//! Laws of scripts.
ghost use Rattle.dh_script_laws.specs.Scripts.{TriedIsWatched};

/// Where no ask is refused, what is written is what the script writes.
pub fn tried_is_watched()
    ensures { TriedIsWatched }
{}
