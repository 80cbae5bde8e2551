// A dropped directory, looked at and emptied.
ghost use Rattle.std.specs.Prelude.{◌≡◌, ◌≢◌, ◌<◌, OnOk, IfOk};
ghost use Rattle.nn_host.specs.Calls.{IsCounted};
ghost use Rattle.nn_host.specs.Moments.{disk_at};
ghost use Rattle.nn_host.specs.Runs.{OnlyAt};
ghost use Rattle.nn_state.specs.declared.state.StorageState.TheVariants as state;
ghost use Rattle.nn_state.specs.Typed.{state_of, dir_of, FitsFound};
ghost use Rattle.nn_remake.specs.Made.{IsBare};
ghost use Rattle.nn_restore.specs.Emptying.{IsEmptying, IsRefusedBy, WasLookedAt};

use nn_base::{DirNo, Sub};
use nn_host::{Failed, Host};
use nn_remake::clear_dir;
use nn_state::{Found, Fresh, Stuck, found, look, recover_found};

/// Why a directory isn't taken back.
#[derive(Clone, Copy, Debug, PartialEq, Eq)]
pub(crate) enum Unfit {
    /// It has no usable root.
    Missing,
    /// The table of states calls it inconsistent.
    Inconsistent,
    /// A call on it failed.
    Failed,
}

/// Which state a directory is in by the table, if any. It changes nothing.
pub(crate) fn find<H: Host>(host: &mut H, i: DirNo) -> Result<Found, Unfit>
    requires below { i.0 < (H.state host.old).count }
    ensures ok { H.told → IfOk result (λ it. FitsFound it (disk_at (H.state host.old) i.0)) }
    ensures there { IfOk result (λ it. state_of it ≢ state.NonExistent) }
    ensures dir { IfOk result (λ it. dir_of it ≡ i) }
    ensures refused { H.told → IsRefusedBy ((H.state host.old).reads i.0) result }
    ensures kept { WasLookedAt H.told i.0 (H.state host.old) (H.state host.new) result }
    ensures any_moment { OnlyAt H.told i.0 (H.state host.old) (H.state host.new) (λ d. d ≡ disk_at (H.state host.old) i.0) }
{
    let seven = match look(host, i) {
        Ok(seven) => seven,
        Err(Failed) => return Err(Unfit::Failed),
    };
    match found(i, seven) {
        Ok(Found::NonExistent(_)) => Err(Unfit::Missing),
        Ok(state) => Ok(state),
        Err(_) => Err(Unfit::Inconsistent),
    }
}

/// Recovers a directory in the state that was found, and removes all that it holds, its saved state first.
///
/// Whether it has a saved state is looked up by the name, once nothing is under way: what serves need not have a VERSION.
pub(crate) fn empty<H: Host>(host: &mut H, i: DirNo, it: Found) -> Result<Fresh, Failed>
    requires below { i.0 < (H.state host.old).count }
    requires dir { dir_of it ≡ i }
    requires there { state_of it ≢ state.NonExistent }
    requires fits { H.told → FitsFound it (disk_at (H.state host.old) i.0) }
    ensures ok { H.told → OnOk result (IsBare (disk_at (H.state host.new) i.0)) }
    ensures dir { IfOk result (λ fresh. fresh.dir ≡ i) }
    ensures any_moment { OnlyAt H.told i.0 (H.state host.old) (H.state host.new) (IsEmptying (disk_at (H.state host.old) i.0)) }
    ensures cause { IsCounted i.0 (H.state host.old) (H.state host.new) result }
{
    match recover_found(host, it) {
        Ok(_) => {}
        Err(Stuck(_)) => return Err(Failed),
    }
    let has_previous = host.has_sub(i, Sub::Previous)?;
    clear_dir(host, i, has_previous)?;
    Ok(Fresh { dir: i })
}
