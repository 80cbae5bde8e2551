// The subfolders of a name directory.

/// A subfolder of a name directory. The names are those of Hadoop's `Storage.StorageDirectory` and `NNUpgradeUtil`.
#[derive(Clone, Copy, Debug, PartialEq, Eq)]
pub enum Sub {
    /// `current`: the state in force
    Current,
    /// `previous`: the state that an upgrade saved
    Previous,
    /// `previous.tmp`: an upgrade is on its way
    PreviousTmp,
    /// `removed.tmp`: a rollback is on its way
    RemovedTmp,
    /// `finalized.tmp`: a saved state is being given up
    FinalizedTmp,
    /// `lastcheckpoint.tmp`: left by an older release that was interrupted while it saved a checkpoint in place. No
    /// operation here makes it; it is only recovered
    LastCheckpointTmp,
    /// `previous.checkpoint`: the state that such a checkpoint replaced
    PreviousCheckpoint,
}
