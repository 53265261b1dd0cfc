//! Laws of runs of expressions that differ only in the names of their binders.
ghost use Rattle.dh_laws.specs.SameRuns.{SameRuns, SameEndlessRuns, SamePlainAnswers, SameNormalForms, SameIsEquivalent, SameWholeCost, SameCost};

/// Expressions that differ only in the names of their binders have the same kind of answer, the same units left and the
/// same result but for the names of binders.
pub fn runs_of_same()
    ensures with_nesting { SameRuns }
    ensures without_nesting { SameEndlessRuns }
    ensures plain { SamePlainAnswers }
{}

/// Expressions that differ only in the names of their binders have the same normal form but for such names, and are equivalent where
/// they have one.
pub fn normal_forms_of_same()
    ensures normal_form { SameNormalForms }
    ensures equivalent { SameIsEquivalent }
{}

/// Expressions that differ only in the names of their binders have the same costs.
pub fn costs_of_same()
    ensures whole { SameWholeCost }
    ensures plain { SameCost }
{}
