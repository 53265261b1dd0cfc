//! Every text has exactly one answer.
ghost use Rattle.dh_grammar.specs.Laws.Texts.{Parses, ParsesOnce, SpellingIsUnique, ParsedIsSpellable, SpellsInRange};

/// Every text has the answer of the function `parsed`.
pub fn parses()
    ensures { Parses }
{}

/// No text has two answers.
pub fn parses_once()
    ensures { ParsesOnce }
{}

/// No text spells two expressions.
pub fn spelling_is_unique()
    ensures { SpellingIsUnique }
{}

/// What is read of a text is well formed, nests at most 500 deep, and can be spelled.
pub fn parsed_is_spellable()
    ensures { ParsedIsSpellable }
{}

/// What a text spells has its numbers and digests in range.
pub fn spells_in_range()
    ensures { SpellsInRange }
{}
