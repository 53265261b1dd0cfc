//! Laws of edits.
ghost use Rattle.dh_watch_laws.specs.Editing.{AgreesLaterThenSwept, EditsAgree, EditsAgreeLater, RefusedAgree};
ghost use Rattle.dh_watch_laws.specs.Sweeping.{SweptHolds, SweptInPlace, SweptOnly};

/// What is left after texts were taken away is sound, and each outcome that is left is as it was.
pub fn swept_holds()
    ensures { SweptHolds }
{}

/// A sweep leaves the same outcomes where the later ones still stand while the earlier ones are looked at.
pub fn swept_in_place()
    ensures { SweptInPlace }
{}

/// Nothing is forgotten but what asked a text that was taken away.
pub fn swept_only()
    ensures { SweptOnly }
{}

/// After an edit what is left agrees with the contents as they then are.
pub fn edits_agree()
    ensures { EditsAgree }
{}

/// After many edits, with one sweep for all of them, what is left agrees with the contents as they then are.
pub fn edits_agree_later()
    ensures edits { EditsAgreeLater }
    ensures swept { AgreesLaterThenSwept }
{}

/// What an ask that is refused leaves agrees with the contents, too.
pub fn refused_agree()
    ensures { RefusedAgree }
{}
