// All directories, each in its state.
ghost use Rattle.std.specs.Prelude.{◌≡◌, ◌≢◌, ◌<◌, OnOk, IfOk, IfErr, MatchResult};
ghost use Rattle.nn_host.specs.Moments.{disk_at};
ghost use Rattle.nn_host.specs.Calls.{IsCounted};
ghost use Rattle.nn_host.specs.Runs.{OnlyAt, Unspoken};
ghost use Rattle.nn_state.specs.declared.state.StorageState.TheVariants as state;
ghost use Rattle.nn_state.specs.Typed.{state_of, dir_of, FitsFound, FitsSettled, dir_in};
ghost use Rattle.nn_state.specs.Recovery.{HasServingVersion, KeepsSeat, WasRecovered};
ghost use Rattle.nn_state.specs.Bays.{AreFound, FitAll, AreSettled, SettledFit, AllRecovered, HasStopped, EachKeepsSeat, IsCountedBy};

use crate::{Found, Settled, Stuck};
use nn_base::DirNo;
use nn_host::Host;
use std::alloc::Global;

/// Why not all directories were recovered.
#[derive(Clone, Copy, Debug, PartialEq, Eq)]
pub enum BayFault {
    /// A call on this directory failed. Those before it are recovered, and those behind it are as they were.
    Failed(DirNo),
    /// There was no memory for the states. Nothing was changed.
    Memory,
}

/// One state for each directory, in order: in none of them is anything under way.
#[derive(Debug, PartialEq, Eq, Drop)]
pub struct Bay {
    pub at: Vec<Settled>,
}

impl Bay {
    /// Recovers each directory, in order. The memory for the states is reserved first.
    pub fn recover_all<H: Host>(
        alloc: Global,
        host: &mut H,
        found: Vec<Found>,
    ) -> Result<Bay, BayFault>
        requires found { AreFound (H.state host.old).count found.items }
        requires fits { H.told → FitAll found.items (H.state host.old) }
        ensures ok { H.told → OnOk result (AllRecovered (H.state host.old) (H.state host.new)) }
        ensures settled { IfOk result (λ bay. AreSettled (H.state host.old).count bay.at.items) }
        ensures fits { H.told → IfOk result (λ bay. SettledFit bay.at.items (H.state host.old) (H.state host.new)) }
        ensures err { IfErr result (λ fault. HasStopped H.told fault (H.state host.old) (H.state host.new)) }
        ensures any_moment { EachKeepsSeat H.told (H.state host.old) (H.state host.new) }
        ensures quiet { Unspoken H.told (H.state host.old) (H.state host.new) }
        ensures cause { IsCountedBy (H.state host.old) (H.state host.new) result }
    {
        let Ok(mut at) = Vec::with_capacity(alloc, found.len()) else {
            return Err(BayFault::Memory);
        };
        'found: for it in found {
            match recover_found(host, it) {
                Ok(settled) => at.push_reserved(settled),
                Err(Stuck(i)) => return Err(BayFault::Failed(i)),
            }
        }
        Ok(Bay { at })
    }
}

/// Recovers one directory in the state that was found, which is its own: after this nothing is under way in it. What serves has its
/// VERSION unless it lacked it before; where it lacks it, the answer may not fit.
pub fn recover_found<H: Host>(host: &mut H, it: Found) -> Result<Settled, Stuck>
    requires below { (dir_of it).0 < (H.state host.old).count }
    requires there { state_of it ≢ state.NonExistent }
    requires fits { H.told → FitsFound it (disk_at (H.state host.old) (dir_of it).0) }
    ensures ok { H.told → OnOk result (WasRecovered (dir_of it).0 (H.state host.old) (H.state host.new)) }
    ensures fits { H.told → HasServingVersion (disk_at (H.state host.old) (dir_of it).0) → IfOk result (λ settled. FitsSettled settled (disk_at (H.state host.new) (dir_of it).0)) }
    ensures any_moment { OnlyAt H.told (dir_of it).0 (H.state host.old) (H.state host.new) (KeepsSeat (disk_at (H.state host.old) (dir_of it).0)) }
    ensures dir { MatchResult result (λ settled. dir_in settled ≡ dir_of it) (λ stuck. stuck.0 ≡ dir_of it) }
    ensures cause { IsCounted (dir_of it).0 (H.state host.old) (H.state host.new) result }
{
    match it {
        Found::NonExistent(_) => unreachable!(),
        Found::NotFormatted(it) => Ok(Settled::Fresh(it.fresh())),
        Found::Normal(it) => it.settled(host),
        Found::CompleteUpgrade(it) => Ok(Settled::ReadyWithPrevious(it.recover(host)?)),
        Found::RecoverUpgrade(it) => Ok(Settled::Ready(it.recover(host)?)),
        Found::CompleteFinalize(it) => it.recover(host),
        Found::CompleteRollback(it) => Ok(Settled::Ready(it.recover(host)?)),
        Found::RecoverRollback(it) => Ok(Settled::ReadyWithPrevious(it.recover(host)?)),
        Found::CompleteCheckpoint(it) => it.recover(host),
        Found::RecoverCheckpoint(it) => it.recover(host),
    }
}
