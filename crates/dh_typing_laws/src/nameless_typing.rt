//! Laws of typing of nameless forms, and weakening.
ghost use Rattle.dh_syntax.specs.Normalising.NamelessRuns.{cores, bares};
ghost use Rattle.dh_syntax.specs.Typing.NamelessTyping.{core_scopes, bare_scopes};
ghost use Rattle.dh_typing_laws.specs.NamelessTyping.{NamelessJudged, NamelessLicences, Weakening, NamelessWeakening};

/// The nameless form comes to what the expression comes to, with the nameless form of its type; and what is licensed for it is
/// licensed for the expression.
pub fn typing_of_nameless()
    ensures judged { NamelessJudged }
    ensures licensed { NamelessLicences }
{}

/// Weakening: below one more binder the shifted expression has the shifted type, for as many units, or fails at the same place
/// by the same rule.
pub fn weakening()
    ensures named { Weakening }
    ensures with_names { NamelessWeakening core_scopes cores }
    ensures without_names { NamelessWeakening bare_scopes bares }
{}
