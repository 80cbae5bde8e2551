// The recovery of each state.
ghost use Rattle.std.specs.Prelude.{◌≡◌, ◌<◌, true, OnOk, IfOk, MatchResult};
ghost use Rattle.nn_host.specs.Moments.{disk_at};
ghost use Rattle.nn_host.specs.Calls.{IsCounted};
ghost use Rattle.nn_host.specs.Runs.{OnlyAt};
ghost use Rattle.nn_state.specs.declared.state.StorageState.TheVariants as state;
ghost use Rattle.nn_state.specs.Typed.{IsIn, FitsReady, FitsWithPrevious, FitsSettled, dir_in};
ghost use Rattle.nn_state.specs.Recovery.{HasServingVersion, KeepsSeat, WasRecovered};

use crate::renaming::put_under;
use crate::settling::{Stuck, by_previous, by_version};
use crate::{
    CompleteCheckpoint, CompleteFinalize, CompleteRollback, CompleteUpgrade, Ready,
    ReadyWithPrevious, RecoverCheckpoint, RecoverRollback, RecoverUpgrade, Settled,
};
use nn_base::Sub;
use nn_host::{Failed, Host};

impl CompleteUpgrade {
    /// Gives `previous.tmp` the name `previous`, as `NNUpgradeUtil.renameTmp` was about to.
    pub fn recover<H: Host>(self, host: &mut H) -> Result<ReadyWithPrevious, Stuck>
        requires below { self.dir.0 < (H.state host.old).count }
        requires fits { H.told → IsIn state.CompleteUpgrade (disk_at (H.state host.old) self.dir.0) }
        ensures ok { H.told → OnOk result (WasRecovered self.dir.0 (H.state host.old) (H.state host.new)) }
        ensures fits { H.told → HasServingVersion (disk_at (H.state host.old) self.dir.0) → OnOk result (FitsWithPrevious (disk_at (H.state host.new) self.dir.0)) }
        ensures any_moment { OnlyAt H.told self.dir.0 (H.state host.old) (H.state host.new) (KeepsSeat (disk_at (H.state host.old) self.dir.0)) }
        ensures dir { MatchResult result (λ it. it.dir ≡ self.dir) (λ stuck. stuck.0 ≡ self.dir) }
        ensures cause { IsCounted self.dir.0 (H.state host.old) (H.state host.new) result }
    {
        let dir = self.dir;
        match host.rename_sub(dir, Sub::PreviousTmp, Sub::Previous) {
            Ok(()) => Ok(ReadyWithPrevious { dir }),
            Err(Failed) => Err(Stuck(dir)),
        }
    }
}

impl RecoverUpgrade {
    /// Removes `current` and gives `previous.tmp` this name, so that the upgrade was not begun.
    pub fn recover<H: Host>(self, host: &mut H) -> Result<Ready, Stuck>
        requires below { self.dir.0 < (H.state host.old).count }
        requires fits { H.told → IsIn state.RecoverUpgrade (disk_at (H.state host.old) self.dir.0) }
        ensures ok { H.told → OnOk result (WasRecovered self.dir.0 (H.state host.old) (H.state host.new)) }
        ensures fits { H.told → HasServingVersion (disk_at (H.state host.old) self.dir.0) → OnOk result (FitsReady (disk_at (H.state host.new) self.dir.0)) }
        ensures any_moment { OnlyAt H.told self.dir.0 (H.state host.old) (H.state host.new) (KeepsSeat (disk_at (H.state host.old) self.dir.0)) }
        ensures dir { MatchResult result (λ it. it.dir ≡ self.dir) (λ stuck. stuck.0 ≡ self.dir) }
        ensures cause { IsCounted self.dir.0 (H.state host.old) (H.state host.new) result }
    {
        let dir = self.dir;
        match put_under(host, dir, Sub::PreviousTmp, Sub::Current) {
            Ok(()) => Ok(Ready { dir }),
            Err(Failed) => Err(Stuck(dir)),
        }
    }
}

impl CompleteRollback {
    /// Removes `removed.tmp`: the saved state is back.
    pub fn recover<H: Host>(self, host: &mut H) -> Result<Ready, Stuck>
        requires below { self.dir.0 < (H.state host.old).count }
        requires fits { H.told → IsIn state.CompleteRollback (disk_at (H.state host.old) self.dir.0) }
        ensures ok { H.told → OnOk result (WasRecovered self.dir.0 (H.state host.old) (H.state host.new)) }
        ensures fits { H.told → HasServingVersion (disk_at (H.state host.old) self.dir.0) → OnOk result (FitsReady (disk_at (H.state host.new) self.dir.0)) }
        ensures any_moment { OnlyAt H.told self.dir.0 (H.state host.old) (H.state host.new) (KeepsSeat (disk_at (H.state host.old) self.dir.0)) }
        ensures dir { MatchResult result (λ it. it.dir ≡ self.dir) (λ stuck. stuck.0 ≡ self.dir) }
        ensures cause { IsCounted self.dir.0 (H.state host.old) (H.state host.new) result }
    {
        let dir = self.dir;
        match host.remove_sub(dir, Sub::RemovedTmp) {
            Ok(()) => Ok(Ready { dir }),
            Err(Failed) => Err(Stuck(dir)),
        }
    }
}

impl RecoverRollback {
    /// Removes `current` and gives `removed.tmp` this name, so that the rollback was not begun.
    #[tactic(auto, using(crate::proofs::BackLemmas::returned_there))]
    pub fn recover<H: Host>(self, host: &mut H) -> Result<ReadyWithPrevious, Stuck>
        requires below { self.dir.0 < (H.state host.old).count }
        requires fits { H.told → IsIn state.RecoverRollback (disk_at (H.state host.old) self.dir.0) }
        ensures ok { H.told → OnOk result (WasRecovered self.dir.0 (H.state host.old) (H.state host.new)) }
        ensures fits { H.told → HasServingVersion (disk_at (H.state host.old) self.dir.0) → OnOk result (FitsWithPrevious (disk_at (H.state host.new) self.dir.0)) }
        ensures any_moment { OnlyAt H.told self.dir.0 (H.state host.old) (H.state host.new) (KeepsSeat (disk_at (H.state host.old) self.dir.0)) }
        ensures dir { MatchResult result (λ it. it.dir ≡ self.dir) (λ stuck. stuck.0 ≡ self.dir) }
        ensures cause { IsCounted self.dir.0 (H.state host.old) (H.state host.new) result }
    {
        let dir = self.dir;
        match put_under(host, dir, Sub::RemovedTmp, Sub::Current) {
            Ok(()) => Ok(ReadyWithPrevious { dir }),
            Err(Failed) => Err(Stuck(dir)),
        }
    }
}

impl CompleteFinalize {
    /// Removes `finalized.tmp`, the rest of the saved state, and looks whether anything is formatted here.
    pub fn recover<H: Host>(self, host: &mut H) -> Result<Settled, Stuck>
        requires below { self.dir.0 < (H.state host.old).count }
        requires fits { H.told → IsIn state.CompleteFinalize (disk_at (H.state host.old) self.dir.0) }
        ensures ok { H.told → OnOk result (WasRecovered self.dir.0 (H.state host.old) (H.state host.new)) }
        ensures fits { H.told → HasServingVersion (disk_at (H.state host.old) self.dir.0) → IfOk result (λ it. FitsSettled it (disk_at (H.state host.new) self.dir.0)) }
        ensures any_moment { OnlyAt H.told self.dir.0 (H.state host.old) (H.state host.new) (KeepsSeat (disk_at (H.state host.old) self.dir.0)) }
        ensures dir { MatchResult result (λ it. dir_in it ≡ self.dir) (λ stuck. stuck.0 ≡ self.dir) }
        ensures cause { IsCounted self.dir.0 (H.state host.old) (H.state host.new) result }
    {
        let dir = self.dir;
        match host.remove_sub(dir, Sub::FinalizedTmp) {
            Ok(()) => by_version(host, dir),
            Err(Failed) => Err(Stuck(dir)),
        }
    }
}

impl CompleteCheckpoint {
    /// Keeps what the checkpoint replaced as `previous.checkpoint`, in place of what has this name, and looks whether there is a
    /// saved state.
    pub fn recover<H: Host>(self, host: &mut H) -> Result<Settled, Stuck>
        requires below { self.dir.0 < (H.state host.old).count }
        requires fits { H.told → IsIn state.CompleteCheckpoint (disk_at (H.state host.old) self.dir.0) }
        ensures ok { H.told → OnOk result (WasRecovered self.dir.0 (H.state host.old) (H.state host.new)) }
        ensures fits { H.told → HasServingVersion (disk_at (H.state host.old) self.dir.0) → IfOk result (λ it. FitsSettled it (disk_at (H.state host.new) self.dir.0)) }
        ensures any_moment { OnlyAt H.told self.dir.0 (H.state host.old) (H.state host.new) (KeepsSeat (disk_at (H.state host.old) self.dir.0)) }
        ensures dir { MatchResult result (λ it. dir_in it ≡ self.dir) (λ stuck. stuck.0 ≡ self.dir) }
        ensures cause { IsCounted self.dir.0 (H.state host.old) (H.state host.new) result }
    {
        let dir = self.dir;
        match put_under(host, dir, Sub::LastCheckpointTmp, Sub::PreviousCheckpoint) {
            Ok(()) => by_previous(host, dir),
            Err(Failed) => Err(Stuck(dir)),
        }
    }
}

impl RecoverCheckpoint {
    /// Removes `current` and gives `lastcheckpoint.tmp` this name, so that the checkpoint was not begun, and looks whether there
    /// is a saved state.
    pub fn recover<H: Host>(self, host: &mut H) -> Result<Settled, Stuck>
        requires below { self.dir.0 < (H.state host.old).count }
        requires fits { H.told → IsIn state.RecoverCheckpoint (disk_at (H.state host.old) self.dir.0) }
        ensures ok { H.told → OnOk result (WasRecovered self.dir.0 (H.state host.old) (H.state host.new)) }
        ensures fits { H.told → HasServingVersion (disk_at (H.state host.old) self.dir.0) → IfOk result (λ it. FitsSettled it (disk_at (H.state host.new) self.dir.0)) }
        ensures any_moment { OnlyAt H.told self.dir.0 (H.state host.old) (H.state host.new) (KeepsSeat (disk_at (H.state host.old) self.dir.0)) }
        ensures dir { MatchResult result (λ it. dir_in it ≡ self.dir) (λ stuck. stuck.0 ≡ self.dir) }
        ensures cause { IsCounted self.dir.0 (H.state host.old) (H.state host.new) result }
    {
        let dir = self.dir;
        match put_under(host, dir, Sub::LastCheckpointTmp, Sub::Current) {
            Ok(()) => by_previous(host, dir),
            Err(Failed) => Err(Stuck(dir)),
        }
    }
}
