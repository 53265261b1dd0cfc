//! Laws of α-normal forms.
ghost use Rattle.dh_laws.specs.Alpha.{AlphaVariable, AlphaNode, AlphaNesting, AlphaOnce, AlphaOfShiftUp, AlphaOfShiftDown, AlphaOfSubst, FreeAfterAlpha, SameReflexive, SameSymmetric, SameTransitive, SameDecides};

/// The α-normal form of a variable, and that of a node by those of its parts.
pub fn alpha_equations()
    ensures variable { AlphaVariable }
    ensures node { AlphaNode }
{}

/// The α-normal form nests as the expression does.
pub fn alpha_nesting()
    ensures { AlphaNesting }
{}

/// An α-normal form is its own α-normal form.
pub fn alpha_once()
    ensures { AlphaOnce }
{}

/// The α-normal form of what was shifted up is the α-normal form, shifted up.
pub fn alpha_of_shift_up()
    ensures { AlphaOfShiftUp }
{}

/// The α-normal form of what was shifted down is the α-normal form, shifted down, where the variable that would be lost is not free.
pub fn alpha_of_shift_down()
    ensures { AlphaOfShiftDown }
{}

/// The α-normal form of what was substituted into is substitution into the α-normal form. So substitution of same for same gives same.
pub fn alpha_of_subst()
    ensures { AlphaOfSubst }
{}

/// The α-normal form has the free variables of the expression.
pub fn free_after_alpha()
    ensures { FreeAfterAlpha }
{}

/// Sameness is an equivalence.
pub fn same_is_an_equivalence()
    ensures reflexive { SameReflexive }
    ensures symmetric { SameSymmetric }
    ensures transitive { SameTransitive }
{}

/// The test of sameness is true exactly where two expressions are the same.
pub fn same_decides()
    ensures { SameDecides }
{}
