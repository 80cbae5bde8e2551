// A name directory in each of its states, as a type of its own.
ghost use Rattle.std.specs.Prelude.{◌≡◌};
ghost use Rattle.nn_state.specs.Typed.{state_of, dir_of};

use crate::StorageState;
use nn_base::DirNo;

/// A directory that isn't there, or is no folder.
#[derive(Debug, PartialEq, Eq, Drop)]
pub struct NonExistent {
    pub dir: DirNo,
}

/// A directory where nothing was formatted.
#[derive(Debug, PartialEq, Eq, Drop)]
pub struct NotFormatted {
    pub dir: DirNo,
}

/// A directory in which nothing is under way.
#[derive(Debug, PartialEq, Eq, Drop)]
pub struct Normal {
    pub dir: DirNo,
}

/// A directory whose upgrade lacks its last rename.
#[derive(Debug, PartialEq, Eq, Drop)]
pub struct CompleteUpgrade {
    pub dir: DirNo,
}

/// A directory whose upgrade is to be taken back.
#[derive(Debug, PartialEq, Eq, Drop)]
pub struct RecoverUpgrade {
    pub dir: DirNo,
}

/// A directory with the rest of a saved state that was given up.
#[derive(Debug, PartialEq, Eq, Drop)]
pub struct CompleteFinalize {
    pub dir: DirNo,
}

/// A directory with the rest of what a rollback replaced.
#[derive(Debug, PartialEq, Eq, Drop)]
pub struct CompleteRollback {
    pub dir: DirNo,
}

/// A directory whose rollback is to be taken back.
#[derive(Debug, PartialEq, Eq, Drop)]
pub struct RecoverRollback {
    pub dir: DirNo,
}

/// A directory whose checkpoint replaced what is to be kept as `previous.checkpoint`.
#[derive(Debug, PartialEq, Eq, Drop)]
pub struct CompleteCheckpoint {
    pub dir: DirNo,
}

/// A directory whose checkpoint is to be taken back.
#[derive(Debug, PartialEq, Eq, Drop)]
pub struct RecoverCheckpoint {
    pub dir: DirNo,
}

/// A directory that is ready to be made: nothing is formatted here, and nothing is under way.
#[derive(Debug, PartialEq, Eq, Drop)]
pub struct Fresh {
    pub dir: DirNo,
}

/// A directory that serves: nothing is under way, and nothing is saved.
#[derive(Debug, PartialEq, Eq, Drop)]
pub struct Ready {
    pub dir: DirNo,
}

/// A directory that serves and has a saved state: nothing is under way.
#[derive(Debug, PartialEq, Eq, Drop)]
pub struct ReadyWithPrevious {
    pub dir: DirNo,
}

/// A directory in which nothing is under way, by what there is in it.
#[derive(Debug, PartialEq, Eq, Drop)]
pub enum Settled {
    /// It serves, and has no saved state.
    Ready(Ready),
    /// It serves, and has a saved state.
    ReadyWithPrevious(ReadyWithPrevious),
    /// Nothing is formatted here.
    Fresh(Fresh),
}

/// A directory as it was found, by the state that the table gives it. What is done with it takes it, so that nothing is
/// done to a state that is over.
#[derive(Debug, PartialEq, Eq, Drop)]
pub enum Found {
    NonExistent(NonExistent),
    NotFormatted(NotFormatted),
    Normal(Normal),
    CompleteUpgrade(CompleteUpgrade),
    RecoverUpgrade(RecoverUpgrade),
    CompleteFinalize(CompleteFinalize),
    CompleteRollback(CompleteRollback),
    RecoverRollback(RecoverRollback),
    CompleteCheckpoint(CompleteCheckpoint),
    RecoverCheckpoint(RecoverCheckpoint),
}

impl NotFormatted {
    /// Nothing needs to be recovered here, so this makes no call.
    pub fn fresh(self) -> Fresh
        ensures { result.dir ≡ self.dir }
    {
        Fresh { dir: self.dir }
    }
}

/// The directory in this state.
pub fn in_state(dir: DirNo, state: StorageState) -> Found
    ensures state { state_of result ≡ state }
    ensures dir { dir_of result ≡ dir }
{
    match state {
        StorageState::NonExistent => Found::NonExistent(NonExistent { dir }),
        StorageState::NotFormatted => Found::NotFormatted(NotFormatted { dir }),
        StorageState::Normal => Found::Normal(Normal { dir }),
        StorageState::CompleteUpgrade => Found::CompleteUpgrade(CompleteUpgrade { dir }),
        StorageState::RecoverUpgrade => Found::RecoverUpgrade(RecoverUpgrade { dir }),
        StorageState::CompleteFinalize => Found::CompleteFinalize(CompleteFinalize { dir }),
        StorageState::CompleteRollback => Found::CompleteRollback(CompleteRollback { dir }),
        StorageState::RecoverRollback => Found::RecoverRollback(RecoverRollback { dir }),
        StorageState::CompleteCheckpoint => Found::CompleteCheckpoint(CompleteCheckpoint { dir }),
        StorageState::RecoverCheckpoint => Found::RecoverCheckpoint(RecoverCheckpoint { dir }),
    }
}
