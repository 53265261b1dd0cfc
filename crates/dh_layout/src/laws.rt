//! Laws of printed texts: each is the contract of a function that does nothing.
ghost use Rattle.dh_layout.specs.Laws.{PrintedParses, OpenedNesting, PrintedIsText};

/// Let an expression be one that a text can spell, whose values are in range (`HasValues`) and whose texts hold no non-character. Its
/// printed text is read as that expression, unless it has more than 1,048,576 bytes or opens more than 500 expressions.
pub fn printed_parses()
    ensures { PrintedParses }
{}

/// The printed text of such an expression opens, below its own, no more expressions than the expression nests.
pub fn opened_nesting()
    ensures { OpenedNesting }
{}

/// The printed text of an expression with names that can be spelled, such values and such texts is UTF-8.
pub fn printed_is_text()
    ensures { PrintedIsText }
{}
