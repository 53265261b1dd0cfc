//! Laws of substitution.
ghost use Rattle.dh_laws.specs.Substituting.{SubstNotFree, NotFreeAfterSubst, SubstNesting, SubstVariableNesting, SubstOfSubst, ShiftUpOfSubst, ShiftUpOfPut, SubstOfPut};

/// Substitution for a variable that is not free changes nothing.
pub fn subst_not_free()
    ensures { SubstNotFree }
{}

/// A variable for which was substituted is not free, unless it is free in what was put for it.
pub fn not_free_after_subst()
    ensures { NotFreeAfterSubst }
{}

/// What is put for a variable adds at most its own nesting.
pub fn subst_nesting()
    ensures { SubstNesting }
{}

/// Putting a variable for a variable changes no nesting.
pub fn subst_variable_nesting()
    ensures { SubstVariableNesting }
{}

/// Substitutions for two variables can be exchanged, where the second variable is not free in what is put for the first.
pub fn subst_of_subst()
    ensures { SubstOfSubst }
{}

/// Shifting up what was substituted into is substitution into what was shifted up.
pub fn shift_up_of_subst()
    ensures { ShiftUpOfSubst }
{}

/// Shifting up and putting an argument for the variable of a binder can be exchanged.
pub fn shift_up_of_put()
    ensures { ShiftUpOfPut }
{}

/// Substitution and putting an argument for the variable of a binder can be exchanged.
pub fn subst_of_put()
    ensures { SubstOfPut }
{}
