//! Laws of how far indices reach.
ghost use Rattle.dh_laws.specs.Indices.{IndicesAtFirst, IndicesAtLast, IndicesBelowMore, IndicesPutUnder, IndicesOfShiftUp, IndicesOfSubst, IndicesOfPut, IndicesOfAlpha};

/// Indices that are below a limit are below it and the number of binders together, and the other way round these are below the limit and the nesting together.
pub fn indices_and_binders()
    ensures at_first { IndicesAtFirst }
    ensures at_last { IndicesAtLast }
{}

/// Indices that are below a limit are below a greater one.
pub fn indices_below_more()
    ensures { IndicesBelowMore }
{}

/// Putting an expression below one more binder keeps the limit.
pub fn indices_put_under()
    ensures { IndicesPutUnder }
{}

/// Any other shift up raises the limit by at most one.
pub fn indices_of_shift_up()
    ensures { IndicesOfShiftUp }
{}

/// Substitution keeps the limit.
pub fn indices_of_subst()
    ensures { IndicesOfSubst }
{}

/// Putting an argument for the variable of a binder keeps the limit.
pub fn indices_of_put()
    ensures { IndicesOfPut }
{}

/// The α-normal form keeps the limit.
pub fn indices_of_alpha()
    ensures { IndicesOfAlpha }
{}
