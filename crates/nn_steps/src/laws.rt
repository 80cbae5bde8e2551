// What follows from the contracts of the steps on one directory, for the calls that compose them: no call does anything here.
ghost use Rattle.nn_steps.specs.NotRaised.{ToppingUpIsNotRaised};
ghost use Rattle.nn_steps.specs.Steps.{FreshIsKept, MakingKeeps, MadeEnds, SettledEnds, SettledStaysBehind, RecoveredIsSure, RecoveringKeeps, RecoveringLeavesBehind, RecoveringEnds, ClearingKeeps, GivingUpKeeps, ToppingUpKeeps, ToppedUpEnds, GivingUpEnds, TidyingEnds, TidiedIsSure, TidiedRests, LoggingEnds, PublishingEnds, PublishedIsIntact, PublishedIsSure};

/// A directory that isn't formatted is kept.
pub fn a_directory_not_formatted_is_kept()
    ensures { FreshIsKept }
{}

/// A directory is kept at each moment of its making.
pub fn a_directory_in_the_making_is_kept()
    ensures { MakingKeeps }
{}

/// A directory that was made ends at its image, with nothing saved.
pub fn a_made_directory_ends()
    ensures { MadeEnds }
{}

/// A directory that ends somewhere as it reads ends there once it was settled.
pub fn a_settled_directory_ends()
    ensures { SettledEnds }
{}

/// A directory that is left behind as it reads is so once it was settled.
pub fn a_settled_directory_stays_behind()
    ensures { SettledStaysBehind }
{}

/// What is certain in the folder that serves is certain in `current` once the directory was recovered.
pub fn a_recovered_directory_is_certain()
    ensures { RecoveredIsSure }
{}

/// A kept directory is kept at each moment of a recovery, as one of the run and as a leader if it was one.
pub fn a_directory_in_recovery_is_kept()
    ensures { RecoveringKeeps }
{}

/// A directory that the floor has left behind stays behind at each moment of a recovery.
pub fn a_directory_in_recovery_stays_behind()
    ensures { RecoveringLeavesBehind }
{}

/// A directory ends where it ended at each moment of a recovery.
pub fn a_directory_in_recovery_ends()
    ensures { RecoveringEnds }
{}

/// A kept directory is kept at each moment of its clearing, if the floor has left it behind or it has nothing saved.
pub fn a_directory_in_clearing_is_kept()
    ensures { ClearingKeeps }
{}

/// A directory that the floor has left behind stays kept and behind at each moment at which its previous is given up.
pub fn a_directory_given_up_stays_behind()
    ensures { GivingUpKeeps }
{}

/// A directory ends where it ended at each moment at which its previous is given up, with it or without.
pub fn a_directory_given_up_ends()
    ensures { GivingUpEnds }
{}

/// A directory that the floor has left behind stays kept and behind at each moment of its topping up, or ends at the floor,
/// and has the saved state that it had, if that is to stay.
pub fn a_directory_in_topping_up_stays_behind_or_ends()
    ensures { ToppingUpKeeps }
{}

/// A directory that was topped up ends at the floor, beside an intact image, if its files were certain, and has the saved
/// state that it had exactly if that is to stay.
pub fn a_topped_up_directory_ends()
    ensures { ToppedUpEnds }
{}

/// The rank of a directory isn't raised at any moment of its topping up, but to the one to which it is brought.
pub fn a_directory_in_topping_up_is_not_raised()
    ensures { ToppingUpIsNotRaised }
{}

/// A directory ends where it ended at each moment of the publishing of the image at which its chain ends.
pub fn a_directory_published_into_ends()
    ensures { PublishingEnds }
{}

/// A directory ends where it ended, beside the image there, at each moment of its tidying.
pub fn a_directory_in_tidying_ends()
    ensures { TidyingEnds }
{}

/// What is certain in `current` stays so where files are tidied away.
pub fn a_tidied_directory_is_certain()
    ensures { TidiedIsSure }
{}

/// A directory that was tidied rests at the image: no segment begins later, and none has a later record.
pub fn a_tidied_directory_rests()
    ensures { TidiedRests }
{}

/// A directory ends at one of the ids in flight at each moment at which its segments are written to.
pub fn a_directory_written_to_ends()
    ensures { LoggingEnds }
{}

/// An image that was published into a `current` that is certain is intact after every fair stop.
pub fn a_published_image_is_intact()
    ensures { PublishedIsIntact }
{}

/// What is certain in `current` stays so where an image is published into it.
pub fn a_directory_published_into_is_certain()
    ensures { PublishedIsSure }
{}
