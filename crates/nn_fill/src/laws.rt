// What follows from the definitions of a run whose commands are answered together: no call does anything here.
ghost use Rattle.nn_fill.specs.Tallying.{TallyingFirst, StepKeepsBooks, TallyingNext, TallyIsSaid, TallyIsClosed, EarlyTallyIsKept, TallyLeaves};
ghost use Rattle.nn_fill.specs.Filled.{GeneratedAreChanges};

/// Each line of a generated script asks for a change of the namespace.
pub fn generated_lines_are_changes()
    ensures { GeneratedAreChanges }
{}

/// A run that has said its opening has kept each moment, whatever its lines are.
pub fn the_opening_comes_before_the_tally()
    ensures { TallyingFirst }
{}

/// A line that is done and not answered keeps the Books before and after it.
pub fn an_unanswered_step_keeps_its_books()
    ensures { StepKeepsBooks }
{}

/// While Books of the run are kept and nothing is said, it is kept.
pub fn a_silent_step_is_kept()
    ensures { TallyingNext }
{}

/// It is kept while its last segment is ended and it is said how many commands there were.
pub fn a_tally_is_kept()
    ensures { TallyIsSaid }
{}

/// It is kept while its last line is said.
pub fn a_tallied_run_that_is_closed_is_kept()
    ensures { TallyIsClosed }
{}

/// So is one that ends before it has started.
pub fn a_tallied_run_that_never_started_is_kept()
    ensures { EarlyTallyIsKept }
{}

/// What each moment of it keeps is what a stop leaves of it.
pub fn a_tallied_run_leaves_so()
    ensures { TallyLeaves }
{}
