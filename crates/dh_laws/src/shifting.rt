//! Laws of shifting.
ghost use Rattle.dh_laws.specs.Shifting.{ShiftUpNesting, ShiftDownNesting, DownUndoesUp, UpUndoesDown, NotFreeAfterUp, FreeAfterUp, ShiftsExchange};

/// Shifting up changes no nesting.
pub fn shift_up_nesting()
    ensures { ShiftUpNesting }
{}

/// Shifting down changes no nesting.
pub fn shift_down_nesting()
    ensures { ShiftDownNesting }
{}

/// Shifting down undoes shifting up.
pub fn down_undoes_up()
    ensures { DownUndoesUp }
{}

/// Shifting up undoes shifting down, where the variable that would be lost is not free.
pub fn up_undoes_down()
    ensures { UpUndoesDown }
{}

/// After shifting up at x from m, the variable `x@m` is not free.
pub fn not_free_after_up()
    ensures { NotFreeAfterUp }
{}

/// A shifted variable is free in the shifted expression exactly where the variable is free in the expression.
pub fn free_after_up()
    ensures { FreeAfterUp }
{}

/// Two shifts up can be exchanged. Where they are at one name, the shift from the greater number is from one more after the other.
pub fn shifts_exchange()
    ensures { ShiftsExchange }
{}
