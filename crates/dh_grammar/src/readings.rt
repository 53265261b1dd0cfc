//! The equations of a reader's loop: one for each way that a token can come out.
ghost use Rattle.dh_grammar.specs.Laws.Readings.{LacksGap, CannotStand, OpensTooMany, GoesOn, LacksGapAt, CannotStandAt, OpensTooManyAt, GoesOnAt};
ghost use Rattle.dh_grammar.specs.Placing.{placing};
ghost use Rattle.dh_grammar.specs.Stubs.{stubs};
ghost use Rattle.dh_syntax.specs.Text.Offsets.{locating};
ghost use Rattle.dh_syntax.specs.Text.Spans.{stretching};

/// A token that lacks the white space before it is refused.
pub fn lacks_gap()
    ensures expressions { LacksGap stubs }
    ensures offsets { LacksGapAt (placing locating) }
    ensures stretches { LacksGapAt (placing stretching) }
{}

/// A token at which the machine stops is refused.
pub fn cannot_stand()
    ensures expressions { CannotStand stubs }
    ensures offsets { CannotStandAt (placing locating) }
    ensures stretches { CannotStandAt (placing stretching) }
{}

/// A token that can stand there and opens too many expressions ends the reading.
pub fn opens_too_many()
    ensures expressions { OpensTooMany stubs }
    ensures offsets { OpensTooManyAt (placing locating) }
    ensures stretches { OpensTooManyAt (placing stretching) }
{}

/// Any other token is read, and the rest from there; the limit is kept.
pub fn goes_on()
    ensures expressions { GoesOn stubs }
    ensures offsets { GoesOnAt (placing locating) }
    ensures stretches { GoesOnAt (placing stretching) }
{}
