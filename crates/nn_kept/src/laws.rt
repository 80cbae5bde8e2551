// What follows from the definitions alone, for the proofs of the crates above: no call does anything here.
ghost use Rattle.nn_kept.specs.Laws.{KeptOpen, ChosenAreHigh, KeptStops, KeptRuns};
ghost use Rattle.nn_kept.specs.Onward.{CutIsKept, OutrankedIsKept, HigherFloorOutranks, SameSeatIsKept};
ghost use Rattle.nn_kept.specs.Ends.{SameSeatEnds, OfRunEnds, HeldImageEnds, BetweenIsKept, BetweenIsOutranked, LeftBehindIsKept};
ghost use Rattle.nn_kept.specs.First.{SettledIsKept, SoundIsKept, SoundRollsBack};

/// Where each directory is kept, every choice of them that has a directory of the run is sound for a start and opens to a
/// Book of the run's window; where it has a leader, with the saved part kept.
pub fn kept_directories_open()
    ensures { KeptOpen }
{}

/// A fair stop at a moment at which each directory is kept leaves directories of which every choice with one of the run is
/// sound for a start and opens into the window; where it has a leader, with the saved part kept.
pub fn kept_stops()
    ensures { KeptStops }
{}

/// So does a fair stop at any moment since a run of calls began, if at each of them each directory is kept, by the directories
/// that count as of the run at that moment.
pub fn kept_runs()
    ensures { KeptRuns }
{}

/// A kept directory that the floor has left behind is kept, whatever has become of the window.
pub fn directories_left_behind_are_kept()
    ensures { OutrankedIsKept }
{}

/// A directory that ranked at most so high is left behind where the floor is higher.
pub fn a_higher_floor_leaves_behind()
    ensures { HigherFloorOutranks }
{}

/// What keeps the folders that serve in a directory, as a recovery does, keeps the directory.
pub fn a_seat_that_stays_is_kept()
    ensures { SameSeatIsKept }
{}

/// A disk is kept of which each fair stop leaves a directory whose chain ends at one of the ids that records in flight may
/// reach, where the shared list and the window have these ends.
pub fn a_disk_in_flight_is_kept()
    ensures { BetweenIsKept }
{}

/// It is left behind once the floor is above these ids.
pub fn a_disk_in_flight_is_left_behind()
    ensures { BetweenIsOutranked }
{}

/// A disk that was kept and is left behind stays kept, and no longer counts as of the run.
pub fn a_disk_left_behind_is_kept()
    ensures { LeftBehindIsKept }
{}

/// Sound directories are kept, with the rank of those chosen for the floor; so a run can begin with them.
pub fn sound_directories_are_kept()
    ensures { SoundIsKept }
{}

/// Sound directories open for a rollback too where their Book has a saved namespace, and are refused where it has none.
pub fn sound_directories_roll_back()
    ensures { SoundRollsBack }
{}

/// Of kept directories with one of the run, none is chosen that the floor has left behind.
pub fn chosen_directories_are_high()
    ensures { ChosenAreHigh }
{}

/// A directory that holds one image and no record ends at it, with nothing saved.
pub fn a_held_image_ends()
    ensures { HeldImageEnds }
{}

/// The disk of a kept directory that was settled is kept.
pub fn a_settled_directory_is_kept()
    ensures { SettledIsKept }
{}

/// A kept directory of the run has all that is asked of one that stands, but for the window.
pub fn a_directory_of_the_run_ends()
    ensures { OfRunEnds }
{}

/// What keeps the folders that serve keeps where a directory ends.
pub fn a_seat_that_stays_ends()
    ensures { SameSeatEnds }
{}

/// A directory that is left behind stays kept while its records and images, or all of it, are removed.
pub fn a_directory_cut_down_is_kept()
    ensures { CutIsKept }
{}
