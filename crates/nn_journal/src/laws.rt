// What follows from the contracts of a journal's calls, for those who log records through it: no call does anything here.
ghost use Rattle.nn_journal.specs.Logging.{LoggingGoesOn, LongerListKeeps};

/// Once `log` was called, what the journal has in mind is so of a list that is one record longer.
pub fn a_logged_record_goes_on_in_a_longer_list()
    ensures { LoggingGoesOn }
{}

/// Directories that stand somewhere by a list do so by each longer one.
pub fn a_longer_list_keeps_what_directories_have()
    ensures { LongerListKeeps }
{}
