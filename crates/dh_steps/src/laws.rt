//! Laws of steps and of what is told of them: each is the contract of a function that does nothing.
ghost use Rattle.dh_steps.specs.StepLaws.{OneEndPrinted, OneReply, SpellableHasRoom};

/// Two lists of places at whose ends no step leads on give one printed text.
pub fn one_end_printed()
    ensures { OneEndPrinted }
{}

/// One thing is told of a list of places and an input.
pub fn one_reply()
    ensures { OneReply }
{}

/// What a text spells has room for steps.
pub fn spellable_has_room()
    ensures { SpellableHasRoom }
{}
