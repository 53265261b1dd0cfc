//! Laws of heads that are kept: what the contraction table looks at, that a head is found again, and what a run that takes
//! kept heads may answer.
ghost use Rattle.dh_laws.specs.Grafts.{TableOfSub, PlaceOfSub, MostOfSub};
ghost use Rattle.dh_laws.specs.KeptHeads.{HeadsFoundAgain};
ghost use Rattle.dh_laws.specs.KeptRuns.{KeepingAnswers};
ghost use Rattle.dh_syntax.specs.Expressions.Tree.{Name};
ghost use Rattle.dh_syntax.specs.Normalising.NamelessRuns.{cores, bares};

/// The contraction table, and the choice of the part that is headed next, look at nothing but the root and what is shown at
/// the places that are headed: a substitution that puts nothing there changes no answer but in its expressions.
pub fn table_of_sub()
    ensures table_with_names { TableOfSub Name }
    ensures table_without_names { TableOfSub (Unit {0}) }
    ensures place_with_names { PlaceOfSub Name }
    ensures place_without_names { PlaceOfSub (Unit {0}) }
    ensures most_with_names { MostOfSub Name }
    ensures most_without_names { MostOfSub (Unit {0}) }
{}

/// What a run of nameless forms finds as a head is found again, as its own head, for no more units and no more heights.
pub fn heads_found_again()
    ensures with_names { HeadsFoundAgain cores }
    ensures without_names { HeadsFoundAgain bares }
{}

/// A run that keeps heads with a stack of its own, whatever its store is, stops with the normal form, names of binders
/// included, for at most its cost, or with a limit that is licensed.
pub fn keeping_answers<Store>()
    ensures { KeepingAnswers Store }
{}
