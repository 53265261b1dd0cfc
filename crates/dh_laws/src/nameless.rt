//! Laws of nameless forms.
ghost use Rattle.dh_laws.specs.Nameless.{ReadingBack, ReadingBackBelow, SameIsBare, AlphaReadsBare, CoreOfShiftUp, CoreOfSubst, CoreOfPut, RenOfRen, SubOfRen, RenOfSub, SubOfSub, SubOfVariables, RenIsSub, SubOfFirst, RenOfFirst, ForgetOfSub};
ghost use Rattle.dh_syntax.specs.Expressions.Tree.{Name};

/// Reading names back undoes going nameless.
pub fn reading_back()
    ensures whole { ReadingBack }
    ensures below { ReadingBackBelow }
{}

/// Two expressions are the same exactly where they have one nameless form without names.
pub fn same_is_bare()
    ensures { SameIsBare }
{}

/// The α-normal form is the nameless form without names, read back with the name `_` for each binder.
pub fn alpha_reads_bare()
    ensures { AlphaReadsBare }
{}

/// Shifting up at the name of one more binder is, in nameless terms, going below that binder.
pub fn core_of_shift_up()
    ensures { CoreOfShiftUp }
{}

/// Substitution for the variable of a binder above is, in nameless terms, substitution for its number.
pub fn core_of_subst()
    ensures { CoreOfSubst }
{}

/// Putting an argument for the variable of a binder is, in nameless terms, substitution for the nearest binder.
pub fn core_of_put()
    ensures { CoreOfPut }
{}

/// Two renamings are one.
pub fn ren_of_ren()
    ensures with_names { RenOfRen Name }
    ensures without_names { RenOfRen (Unit {0}) }
{}

/// Renaming and then substitution is one substitution.
pub fn sub_of_ren()
    ensures with_names { SubOfRen Name }
    ensures without_names { SubOfRen (Unit {0}) }
{}

/// Substitution and then renaming is one substitution.
pub fn ren_of_sub()
    ensures with_names { RenOfSub Name }
    ensures without_names { RenOfSub (Unit {0}) }
{}

/// Two substitutions are one.
pub fn sub_of_sub()
    ensures with_names { SubOfSub Name }
    ensures without_names { SubOfSub (Unit {0}) }
{}

/// Putting each variable for itself changes nothing.
pub fn sub_of_variables()
    ensures with_names { SubOfVariables Name }
    ensures without_names { SubOfVariables (Unit {0}) }
{}

/// Renaming is substitution of variables.
pub fn ren_is_sub()
    ensures with_names { RenIsSub Name }
    ensures without_names { RenIsSub (Unit {0}) }
{}

/// Substitution and putting something for the nearest binder can be exchanged.
pub fn sub_of_first()
    ensures with_names { SubOfFirst Name }
    ensures without_names { SubOfFirst (Unit {0}) }
{}

/// Renaming and putting something for the nearest binder can be exchanged.
pub fn ren_of_first()
    ensures with_names { RenOfFirst Name }
    ensures without_names { RenOfFirst (Unit {0}) }
{}

/// Forgetting the names of binders and substitution can be exchanged.
pub fn forget_of_sub()
    ensures { ForgetOfSub }
{}
