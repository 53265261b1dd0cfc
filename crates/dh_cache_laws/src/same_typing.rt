//! The law of typing of expressions that differ only in the names of their binders.
ghost use Rattle.dh_cache_laws.specs.SameTyping.{BareJudged, SameJudged, SameLicences};

/// Expressions that differ only in the names of their binders have types that differ only so, found with as many units, or fail at
/// one place by one rule, or meet the same limits.
pub fn typing_of_same()
    ensures bare { BareJudged }
    ensures same { SameJudged }
    ensures limits { SameLicences }
{}
