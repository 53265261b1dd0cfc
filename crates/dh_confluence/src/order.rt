//! Laws of the order of steps.
ghost use Rattle.dh_confluence.specs.OrderLaws.{FragmentSteps, FragmentKept, SettledDecides, Confluence, OneEnd, NormalFormSettled, EndIsNormal};

/// The steps of an expression of the fragment are those of its four rows.
pub fn fragment_steps()
    ensures { FragmentSteps }
{}

/// A step leads from the fragment into the fragment.
pub fn fragment_kept()
    ensures { FragmentKept }
{}

/// No step leads on exactly where the test says so.
pub fn settled_decides()
    ensures { SettledDecides }
{}

/// Wherever two lists of steps lead from an expression, further steps lead from both ends to one expression.
pub fn confluence()
    ensures { Confluence }
{}

/// All lists of steps that end where no step leads on end in one expression.
pub fn one_end()
    ensures { OneEnd }
{}

/// No step leads on from a normal form, so where steps end is the normal form, if there is one.
pub fn normal_form_settled()
    ensures settled { NormalFormSettled }
    ensures end_is_normal { EndIsNormal }
{}
