//! Laws of steps: contractions at places, one after another.
ghost use Rattle.dh_laws.specs.StepLaws.{NamedReach, CoreReach, BareReach};

/// Contractions at places lead from an expression to its normal form.
pub fn normal_forms_are_reached()
    ensures named { NamedReach }
    ensures with_names { CoreReach }
    ensures without_names { BareReach }
{}
