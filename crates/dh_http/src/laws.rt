//! Laws of replies, for the crates that rest on them: each is the contract of a function that does nothing.

ghost use Rattle.dh_http.specs.Laws.{OneReply};

/// A stream answers one thing.
pub fn one_reply()
    ensures { OneReply }
{}
