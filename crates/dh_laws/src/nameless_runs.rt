//! Laws of runs of nameless forms.
ghost use Rattle.dh_laws.specs.NamelessAnswers.{CoreTest, BareTest, CoreRuns, BareRuns, CoreEndlessRuns, BareEndlessRuns};

/// The run of a nameless form gives the nameless form of what the run of the expression gives, with the same units left.
pub fn runs_of_nameless()
    ensures with_names { CoreRuns }
    ensures without_names { BareRuns }
{}

/// The run of a nameless form that does not end by nesting gives the nameless form of what that run of the expression gives.
pub fn endless_runs_of_nameless()
    ensures with_names { CoreEndlessRuns }
    ensures without_names { BareEndlessRuns }
{}

/// The test of nameless forms tells whether they are equal but for the names of binders.
pub fn test_of_nameless()
    ensures with_names { CoreTest }
    ensures without_names { BareTest }
{}
