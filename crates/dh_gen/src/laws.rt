//! The law of the world of the generated texts.

ghost use Rattle.dh_gen.specs.GeneratedLaws.{TellsTexts, TellsNothingElse};

/// At `./gK`, with K up to the greatest number in decimal, the world tells the text of K; at every other location it tells that nothing
/// is there.
pub fn texts_are_told()
    ensures texts { TellsTexts }
    ensures others { TellsNothingElse }
{}
