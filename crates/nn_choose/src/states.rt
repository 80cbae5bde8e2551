// The states of all directories.
ghost use Rattle.std.specs.Prelude.{◌≡◌, ◌≢◌, ◌<◌, ◌≤◌, ◌++◌, ◌∷◌, [], length, OnOk, IfOk, IfErr, Ok, Some};
ghost use Rattle.nn_state.specs.Typed.{state_of, dir_of};
ghost use Rattle.nn_state.specs.declared.state.StorageState.TheVariants.{NonExistent};
ghost use Rattle.nn_state.specs.Seat.{serving as serving_of, seat_of};
ghost use Rattle.nn_state.specs.Table.{seven_of, table_of};
ghost use Rattle.nn_base.specs.Limits.{most_dirs};
ghost use Rattle.nn_state.specs.Bays.{AreFound};
ghost use Rattle.nn_pick.specs.Refused.{unusable as unusable_at};
ghost use Rattle.nn_choose.specs.Looking.{LookedBy, dirs_read};
ghost use Rattle.nn_choose.specs.Picking.{AreStates, AreServing, NoneBefore, IsRefusedAnyway, NeverMemory};

use nn_base::{DirNo, Sub};
use nn_host::{Failed, Host};
use nn_pick::{OpenFault, Refusal};
use nn_state::{Found, Seven, found, look, seat};
use std::alloc::Global;

/// What all directories are in the middle of, each in its place.
#[derive(Drop)]
pub struct States {
    pub found: Vec<Found>,
    /// The folder that serves as current.
    pub serving: Vec<Option<Sub>>,
}

/// Looks at each directory, in order. The first that is missing or inconsistent refuses.
pub fn survey<H: Host>(alloc: Global, host: &mut H) -> Result<States, OpenFault>
    ensures ok { H.told → IfOk result (λ it. AreStates (dirs_read (H.state host.old)) it.found.items × AreServing (dirs_read (H.state host.old)) it.serving.items) }
    ensures placed { IfOk result (λ it. AreFound (H.state host.old).count it.found.items × (length it.serving.items ≡ (H.state host.old).count)) }
    ensures few { OnOk result ((H.state host.old).count ≤ most_dirs) }
    ensures passed { H.told → OnOk result (NoneBefore (dirs_read (H.state host.old)) 2) }
    ensures refused { H.told → IfErr result (IsRefusedAnyway (dirs_read (H.state host.old))) }
    ensures memory { IfErr result NeverMemory }
    ensures kept { LookedBy H.told (H.state host.old) (H.state host.new) result }
{
    let mut states = States {
        found: Vec::new(alloc),
        serving: Vec::new(alloc),
    };
    for i in 0..host.count() {
        let (found, serving) = state_at(host, DirNo(i))?;
        append(&mut states.found, found)?;
        append(&mut states.serving, serving)?;
    }
    Ok(states)
}

/// The state of one directory, and which folder serves as current.
fn state_at<H: Host>(host: &mut H, i: DirNo) -> Result<(Found, Option<Sub>), OpenFault>
    requires { i.0 < (H.state host.old).count }
    ensures state { H.told → IfOk result (λ it. table_of (seven_of ((H.state host.old).reads i.0)) ≡ Ok (state_of it.0)) }
    ensures serving { H.told → IfOk result (λ it. it.1 ≡ serving_of ((H.state host.old).reads i.0)) }
    ensures placed { IfOk result (λ it. (dir_of it.0 ≡ i) × (state_of it.0 ≢ NonExistent)) }
    ensures refused { H.told → IfErr result (λ why. (refusal : _) → why ≡ OpenFault.Refused refusal → unusable_at i.0 (table_of (seven_of ((H.state host.old).reads i.0))) ≡ Some refusal) }
    ensures memory { IfErr result NeverMemory }
    ensures kept { LookedBy H.told (H.state host.old) (H.state host.new) result }
{
    match look(host, i) {
        Ok(seven) => state_in(i, seven),
        Err(Failed) => Err(OpenFault::Failed(i)),
    }
}

fn state_in(i: DirNo, seven: Seven) -> Result<(Found, Option<Sub>), OpenFault>
    ensures state { IfOk result (λ it. table_of seven ≡ Ok (state_of it.0)) }
    ensures serving { IfOk result (λ it. it.1 ≡ (seat_of seven).current) }
    ensures placed { IfOk result (λ it. (dir_of it.0 ≡ i) × (state_of it.0 ≢ NonExistent)) }
    ensures refused { IfErr result (λ why. (refusal : _) × (why ≡ OpenFault.Refused refusal) × (unusable_at i.0 (table_of seven) ≡ Some refusal)) }
    ensures memory { IfErr result NeverMemory }
{
    match found(i, seven) {
        Ok(Found::NonExistent(_)) => Err(OpenFault::Refused(Refusal::Missing(i))),
        Ok(found) => Ok((found, seat(seven).0)),
        Err(why) => Err(OpenFault::Refused(Refusal::Inconsistent(i, why))),
    }
}

/// Puts a value behind the others.
pub fn append<T: Drop>(list: &mut Vec<T>, value: T) -> Result<(), NoRoom>
    ensures { OnOk result (list.new.items ≡ list.old.items ++ value ∷ []) }
{
    match list.push(value) {
        Ok(()) => Ok(()),
        Err(_) => Err(NoRoom),
    }
}

/// There was no memory for one value more.
#[derive(Clone, Copy, Debug, PartialEq, Eq)]
pub struct NoRoom;

impl From<NoRoom> for OpenFault {
    ghost use Rattle.nn_pick.specs.declared.fault.OpenFault.TheVariants.{Memory};

    ghost from_gives = { λ _ fault. fault ≡ Memory };

    fn from(_: NoRoom) -> OpenFault {
        OpenFault::Memory
    }
}
