// What follows from the contracts of the steps on one directory, for a checkpoint of several: no call does anything here.
ghost use Rattle.nn_ckpt.specs.Laws.{PublishedStands, LoggingKeepsImage, LoggingKeepsTwo, LoggingKeepsPruned, ImagesAreBefore, PurgingEnds, PurgingStands, PurgingKeepsTwo, PurgedIsPruned, TwoAreCheckpointed};

/// A directory rests at its image once that was published, and has the one before it too.
pub fn a_directory_published_into_rests()
    ensures { PublishedStands }
{}

/// The last image stays while segments are written to.
pub fn the_last_image_stays_while_a_log_is_written()
    ensures { LoggingKeepsImage }
{}

/// So does the one before it, with its records.
pub fn two_images_stay_while_a_log_is_written()
    ensures { LoggingKeepsTwo }
{}

/// What was pruned stays so while segments behind it are written to.
pub fn a_directory_stays_pruned_while_a_log_is_written()
    ensures { LoggingKeepsPruned }
{}

/// A segment in progress begins behind the last image.
pub fn images_are_before_a_segment_in_progress()
    ensures { ImagesAreBefore }
{}

/// A directory ends where it ended at each moment of its purging, with its last image.
pub fn a_directory_in_purging_ends()
    ensures { PurgingEnds }
{}

/// A directory stands where it stood at each moment of its purging.
pub fn a_directory_in_purging_stands()
    ensures { PurgingStands }
{}

/// Two images, and the records between them, stay at each moment of a purging.
pub fn two_images_stay_in_purging()
    ensures { PurgingKeepsTwo }
{}

/// A directory that was purged is pruned whatever a stop leaves.
pub fn a_purged_directory_is_pruned()
    ensures { PurgedIsPruned }
{}

/// A pruned directory with two images is checkpointed.
pub fn two_images_are_a_checkpoint()
    ensures { TwoAreCheckpointed }
{}
