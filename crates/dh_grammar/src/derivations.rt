//! The machine reads exactly what the grammar derives.
ghost use Rattle.dh_grammar.specs.Laws.Derivations.{Accepts, DerivationIsUnique, NoDeadStates, KnowsDepths, KnowsNesting, FirstFault};

/// The machine accepts exactly the tokens that the grammar derives (`dhall.abnf`), with their tree.
pub fn accepts()
    ensures { Accepts }
{}

/// Trees that derive the same tokens are the same tree.
pub fn derivation_is_unique()
    ensures { DerivationIsUnique }
{}

/// The machine runs exactly on what begins a derived list of tokens.
pub fn no_dead_states()
    ensures { NoDeadStates }
{}

/// The gap that the machine asks for at a token, and the number of expressions that it counts as open there, are those of
/// the token in its tree.
pub fn knows_depths()
    ensures { KnowsDepths }
{}

/// Tokens open too many expressions in some tree that begins with them exactly where the machine counts so.
pub fn knows_nesting()
    ensures { KnowsNesting }
{}

/// The outcome of a reading is that of the first token that cannot stand there or at which too many expressions stand open.
pub fn first_fault()
    ensures { FirstFault }
{}
