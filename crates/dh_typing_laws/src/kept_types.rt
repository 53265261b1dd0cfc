//! Laws of typing that keeps the types of values.
ghost use Rattle.dh_typing_laws.specs.KeptTypes.{Substitution, KeptTyping, KeptBelow, KeptDeeper};

/// Substitution: the body of a `let` is typed with what is kept of the value at each use of the variable. Each answer may be given for
/// the body with the value put for the variable: a type, for no more units, a refusal, or a limit. The normaliser takes no more than
/// the plain count, and what is kept is right. With too little depth nothing is said.
pub fn substitution()
    ensures { Substitution }
{}

/// A typing uses what is kept of values, which is right, over a normaliser that takes no more than the plain count. It answers only
/// what may be answered for the expression, for at most its units. With too little depth nothing is said.
pub fn kept_typing()
    ensures { KeptTyping }
{}

/// What is kept of a value is kept, shifted, below one more binder, and with more depth.
pub fn kept_longer()
    ensures below { KeptBelow }
    ensures deeper { KeptDeeper }
{}
