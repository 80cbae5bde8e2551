// What follows from the definitions of a run alone, for the calls that make one: no call does anything here.
ghost use Rattle.nn_run.specs.Window.{WindowIsBehind, StepIsInWindow, AfterIsInWindow, CommandsAppend, LastIsReached, CommandsHaveText, BaseIsBehind};
ghost use Rattle.nn_run.specs.Course.{RunKeptStops};
ghost use Rattle.nn_run.specs.Steps.{BetweenIsKept};
ghost use Rattle.nn_run.specs.Flights.{SayingIsKept, SyncingIsKept};
ghost use Rattle.nn_run.specs.Restoring.{EmptyingIsKept, RestoringIsKept};
ghost use Rattle.nn_run.specs.Loop.{StepGoesOn, NextIsKept, OpeningIsOfRun};

/// The window over some commands, once all of the first are said, is that over the others.
pub fn the_window_is_behind_what_was_said()
    ensures { WindowIsBehind }
{}

/// The window of one command is part of that of a run which goes on.
pub fn a_step_is_in_the_window_of_its_run()
    ensures { StepIsInWindow }
{}

/// The Book after a command is in its window at each moment of its answer.
pub fn the_book_after_a_command_is_in_its_window()
    ensures { AfterIsInWindow }
{}

/// The commands of some lines and then others are those of both.
pub fn commands_append()
    ensures { CommandsAppend }
{}

/// The Book that lines come to is the last of their commands.
pub fn the_last_book_is_reached()
    ensures { LastIsReached }
{}

/// Each command has an answer.
pub fn each_command_has_an_answer()
    ensures { CommandsHaveText }
{}

/// The counts from which on directories are of a run are the same behind lines and behind their commands.
pub fn the_counts_are_behind_the_commands()
    ensures { BaseIsBehind }
{}

/// Between two lines each directory is kept, and the live ones are of the run.
pub fn between_two_lines_all_are_kept()
    ensures { BetweenIsKept }
{}

/// A line that changes no Book is kept while it is answered, and so is what was kept before it.
pub fn a_line_that_changes_nothing_is_kept()
    ensures { SayingIsKept }
{}

/// A line whose records are synced in the live directories and that is answered then is kept at each moment, where nothing is
/// saved; and what is to hold between two lines holds behind it, with the Book after it.
pub fn a_line_that_is_synced_is_kept()
    ensures { SyncingIsKept }
{}

/// A line by which a dropped directory is emptied, and no more, is kept while that is done and answered, and so is what was kept
/// before it.
pub fn a_directory_that_is_emptied_is_kept()
    ensures { EmptyingIsKept }
{}

/// A line by which a dropped directory is taken back, or would be but for a failed call, is kept at each moment, where nothing is
/// saved; and what is to hold between two lines holds behind it, once a segment was begun.
pub fn a_line_that_restores_is_kept()
    ensures { RestoringIsKept }
{}

/// Each moment of an opening that says nothing is one of the run that begins with it.
pub fn an_opening_is_of_its_run()
    ensures { OpeningIsOfRun }
{}

/// A step carries on a run: each of its moments is one of the run's.
pub fn a_step_goes_on()
    ensures { StepGoesOn }
{}

/// A run that was kept so far, whatever will be seen at the lines to come, is so when one line more is answered.
pub fn the_next_line_is_kept()
    ensures { NextIsKept }
{}

/// What holds at each moment of a run is what a stop finds.
pub fn a_kept_run_stops_so()
    ensures { RunKeptStops }
{}
