//! Laws of asks.
ghost use Rattle.dh_script_laws.specs.Asks.{AsksAreAnswered, KeptAreAnswered, LoopsAreAnswered, RootsAreKeys};

/// Where a run of the root ends, the ask is answered by what is kept.
pub fn asks_are_answered()
    ensures asks { AsksAreAnswered }
    ensures loops { LoopsAreAnswered }
    ensures kept { KeptAreAnswered }
    ensures roots { RootsAreKeys }
{}
