//! Laws of runs: what more units and more heights change, and that normal forms and costs are one. They hold for every
//! language over the expressions that are named.
ghost use Rattle.dh_laws.specs.Runs.{MoreUnits, MoreUnitsPlain, MoreHeights, WithoutNesting, OneAnswer, OneNormalForm, EquivalentByNormalForms, OneWholeCost, OneCost, CostOfRun, OverBelowCost, WholeCostOfRun, OverBelowWholeCost};
ghost use Rattle.dh_syntax.specs.Names.Nameless.{Core, Bare};
ghost use Rattle.dh_syntax.specs.Expressions.Tree.{Term};

/// More units change no answer but that the units were too few.
pub fn more_units()
    ensures named { MoreUnits Term }
    ensures with_names { MoreUnits Core }
    ensures without_names { MoreUnits Bare }
{}

/// A greater purse changes no answer of the plain normaliser but that the units were too few.
pub fn more_units_plain()
    ensures { MoreUnitsPlain Term }
{}

/// More heights change no answer but that the heights were too few, or that an expression nests too deep.
pub fn more_heights()
    ensures named { MoreHeights Term }
    ensures with_names { MoreHeights Core }
    ensures without_names { MoreHeights Bare }
{}

/// Without an end by nesting no answer changes but that the heights were too few, or that an expression nests too deep.
pub fn without_nesting()
    ensures named { WithoutNesting Term }
    ensures with_names { WithoutNesting Core }
    ensures without_names { WithoutNesting Bare }
{}

/// With so many units, heights that are enough give one answer.
pub fn one_answer()
    ensures { OneAnswer Term }
{}

/// An expression has at most one normal form, and so equivalence is sameness of normal forms.
pub fn one_normal_form()
    ensures one { OneNormalForm Term }
    ensures equivalent { EquivalentByNormalForms Term }
{}

/// A normal form costs one number of units, and so does the run of an expression up to its end.
pub fn one_cost()
    ensures whole { OneWholeCost Term }
    ensures plain { OneCost Term }
{}

/// What a run takes to its end is what is not left then.
pub fn cost_of_run()
    ensures plain { CostOfRun Term }
    ensures whole { WholeCostOfRun Term }
{}

/// With fewer units than its cost, and only then, a run runs out of them.
pub fn over_below_cost()
    ensures plain { OverBelowCost Term }
    ensures whole { OverBelowWholeCost Term }
{}
