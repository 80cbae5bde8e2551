// What follows from the definitions of a run alone, for the calls that make a whole one: no call does anything here.
ghost use Rattle.nn_whole.specs.Opened.{SharedAtFirst, StartIsOfRun, OpeningIsSaid};
ghost use Rattle.nn_whole.specs.Leaving.{AreTheLines, MoreIsSaid, EndingIsKept};
ghost use Rattle.nn_whole.specs.Closed.{ClosingAnswersNone, EarlyAnswersNone, ClosedIsKept, EarlyIsKept};
ghost use Rattle.nn_whole.specs.Ended.{EndedOpens};
ghost use Rattle.nn_whole.specs.Stopped.{EntryIsLeft, RunKeptLeaves};
ghost use Rattle.nn_whole.specs.Served.{FirstIsSaid, NextIsSaid, SilentIsSaid, ServingFirst, ServingNext, ServingSilent, ServingOut};
ghost use Rattle.nn_whole.specs.Counted.{FirstIsSeen, NextIsCounted, OutIsCounted, NextIsSeen, FewLines};

/// Sound directories share something with which a run can begin, so no claim of a run needs one of the caller's.
pub fn sound_directories_share()
    ensures { SharedAtFirst }
{}

/// Each moment of a start that says nothing is one of the run that begins with it.
pub fn a_start_is_of_its_run()
    ensures { StartIsOfRun }
{}

/// While it is said that a run has started each moment is kept, where all directories are live.
pub fn an_opening_is_said()
    ensures { OpeningIsSaid }
{}

/// No last line of a run that has started has an answer to a line in it.
pub fn a_closing_line_answers_nothing()
    ensures { ClosingAnswersNone }
{}

/// No last line of a run that has not started says that it has.
pub fn an_early_line_answers_nothing()
    ensures { EarlyAnswersNone }
{}

/// A run that was kept until its last line is kept while that is said.
pub fn a_run_that_is_closed_is_kept()
    ensures { ClosedIsKept }
{}

/// So is one that ends before it has started.
pub fn a_run_that_never_started_is_kept()
    ensures { EarlyIsKept }
{}

/// Once all lines are answered, every choice of what reads with a directory of the run opens to the Book after them.
pub fn done_work_opens()
    ensures { EndedOpens }
{}

/// A stop before the first change leaves what a stop at entry could leave.
pub fn a_stop_at_entry_is_told()
    ensures { EntryIsLeft }
{}

/// What each moment of a run keeps is what a stop leaves of it.
pub fn a_kept_run_leaves_so()
    ensures { RunKeptLeaves }
{}

/// A run that has said its opening has said nothing else.
pub fn the_opening_is_what_was_said()
    ensures { FirstIsSaid }
{}

/// With one line more that is answered, it has said the answers to that too, and seen the directories as they were.
pub fn the_next_line_is_said()
    ensures { NextIsSaid }
{}

/// A run that has started and said so has kept each moment, whatever lines come.
pub fn the_first_moment_is_served()
    ensures { ServingFirst }
{}

/// Each moment of a line that was not answered is kept too.
pub fn an_unanswered_line_is_kept()
    ensures { ServingOut }
{}

/// So it has behind the next line that is answered.
pub fn the_next_line_is_served()
    ensures { ServingNext }
{}

/// Lines that were not reached are lines of the script with any sight.
pub fn unreached_lines_are_the_lines()
    ensures { AreTheLines }
{}

/// What was seen at answered lines was seen truly, whatever else is said behind their answers.
pub fn what_was_seen_stays_so()
    ensures { MoreIsSaid }
{}

/// While its last segment is ended a run is kept.
pub fn a_run_that_is_ended_is_kept()
    ensures { EndingIsKept }
{}

/// A line without an answer changes nothing of what was said and seen.
pub fn a_silent_line_says_nothing()
    ensures { SilentIsSaid }
{}

/// Nor of what the loop carries.
pub fn a_silent_line_is_served()
    ensures { ServingSilent }
{}

/// Where no count has risen yet all directories are live.
pub fn at_first_all_are_seen()
    ensures { FirstIsSeen }
{}

/// The step of a line that was not answered can make the one live that was to be taken back.
pub fn the_unanswered_line_is_counted()
    ensures { OutIsCounted }
{}

/// A step of no line drops those that failed in it.
pub fn the_next_step_is_counted()
    ensures { NextIsCounted }
{}

/// At a line that was answered live are seen just those that have not failed since the run began.
pub fn the_next_line_is_seen()
    ensures { NextIsSeen }
{}

/// A script has few lines.
pub fn a_script_has_few_lines()
    ensures { FewLines }
{}
