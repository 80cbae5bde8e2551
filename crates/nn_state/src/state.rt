// The seven truth values of a name directory, and the names that the table gives to them.
use std::fmt;

/// Which folders and files of a name directory are there: all that its storage state depends on.
#[derive(Clone, Copy, Debug, PartialEq, Eq)]
pub struct Seven {
    /// The directory itself is there and is a folder.
    pub root: bool,
    /// `current/VERSION` is there.
    pub current: bool,
    /// `previous` is there.
    pub previous: bool,
    /// `previous.tmp` is there.
    pub previous_tmp: bool,
    /// `removed.tmp` is there.
    pub removed_tmp: bool,
    /// `finalized.tmp` is there.
    pub finalized_tmp: bool,
    /// `lastcheckpoint.tmp` is there.
    pub last_checkpoint_tmp: bool,
}

/// What a name directory is in the middle of, by the names of Hadoop's `Storage.StorageState`.
#[derive(Clone, Copy, Debug, PartialEq, Eq)]
pub enum StorageState {
    /// It isn't there, or is no folder.
    NonExistent,
    /// It holds no state: nothing was formatted here.
    NotFormatted,
    /// Nothing is under way.
    Normal,
    /// An upgrade wrote its new state: its last rename is to be done.
    CompleteUpgrade,
    /// An upgrade didn't write its new state: the old one is to be put back.
    RecoverUpgrade,
    /// A saved state was given up: the rest of it is to be removed.
    CompleteFinalize,
    /// A rollback put the saved state back: what it replaced is to be removed.
    CompleteRollback,
    /// A rollback didn't put the saved state back: what was to be replaced is to be put back.
    RecoverRollback,
    /// A checkpoint saved in place was written: what it replaced is to be kept as `previous.checkpoint`.
    CompleteCheckpoint,
    /// A checkpoint saved in place was not written: what it was to replace is to be put back.
    RecoverCheckpoint,
}

/// Why no state fits the folders: no operation is meant to leave them so.
#[derive(Clone, Copy, Debug, PartialEq, Eq)]
pub enum Why {
    /// `previous` without a `current/VERSION`.
    PreviousAlone,
    /// More than one temporary folder.
    SeveralTmp,
    /// `finalized.tmp` beside `previous`.
    FinalizedAndPrevious,
    /// `previous.tmp` beside `previous`.
    UpgradeAndPrevious,
    /// `removed.tmp` beside both `current/VERSION` and `previous`.
    RollbackBoth,
    /// `removed.tmp` beside neither.
    RollbackNeither,
}

impl fmt::Display for StorageState {
    ghost use Rattle.std.specs.Prelude.{Some};
    ghost use Rattle.nn_state.specs.Words.{state_word};

    ghost output = { λ state. Some (state_word state) };

    fn fmt<W: fmt::Write>(&self, f: &mut fmt::Formatter<W>) -> fmt::Result {
        f.write_str(match self {
            StorageState::NonExistent => "NON_EXISTENT",
            StorageState::NotFormatted => "NOT_FORMATTED",
            StorageState::Normal => "NORMAL",
            StorageState::CompleteUpgrade => "COMPLETE_UPGRADE",
            StorageState::RecoverUpgrade => "RECOVER_UPGRADE",
            StorageState::CompleteFinalize => "COMPLETE_FINALIZE",
            StorageState::CompleteRollback => "COMPLETE_ROLLBACK",
            StorageState::RecoverRollback => "RECOVER_ROLLBACK",
            StorageState::CompleteCheckpoint => "COMPLETE_CHECKPOINT",
            StorageState::RecoverCheckpoint => "RECOVER_CHECKPOINT",
        })
    }
}

impl fmt::Display for Why {
    ghost use Rattle.std.specs.Prelude.{Some};
    ghost use Rattle.nn_state.specs.Words.{why_word};

    ghost output = { λ why. Some (why_word why) };

    fn fmt<W: fmt::Write>(&self, f: &mut fmt::Formatter<W>) -> fmt::Result {
        f.write_str(match self {
            Why::PreviousAlone => "previous-alone",
            Why::SeveralTmp => "several-tmp",
            Why::FinalizedAndPrevious => "finalized-and-previous",
            Why::UpgradeAndPrevious => "upgrade-and-previous",
            Why::RollbackBoth => "rollback-both",
            Why::RollbackNeither => "rollback-neither",
        })
    }
}
