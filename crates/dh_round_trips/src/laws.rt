//! Laws of round trips: each is the contract of a function that does nothing.
ghost use Rattle.dh_round_trips.specs.RoundTrips.{ParsedEncoded, ParsedPrinted, PrintedAgain};

/// What the parser answers to a printed text: the expression, unless the text is too large or opens too many expressions.
pub fn parsed_printed()
    ensures { ParsedPrinted }
{}

/// What was parsed, printed and parsed again is what was parsed, unless the printed text is too large or opens too many
/// expressions.
pub fn printed_again()
    ensures { PrintedAgain }
{}

/// What was parsed and encoded is decoded to what was parsed.
pub fn parsed_encoded()
    ensures { ParsedEncoded }
{}
