// A directory that is brought up to a namespace.
ghost use Rattle.std.specs.Prelude.{◌≡◌, ◌<◌, OnOk, IfOk};
ghost use Rattle.nn_host.specs.Moments.{disk_at};
ghost use Rattle.nn_host.specs.Calls.{IsCounted};
ghost use Rattle.nn_host.specs.Runs.{OnlyAt};
ghost use Rattle.nn_state.specs.declared.state.StorageState.TheVariants as state;
ghost use Rattle.nn_state.specs.Typed.{IsIn, FitsSettled, dir_in};
ghost use Rattle.nn_tree.specs.Imaged.{IsImaged};
ghost use Rattle.nn_remake.specs.Counts.{IsCountedBy};
ghost use Rattle.nn_remake.specs.Published.{IsOnlyOf};
ghost use Rattle.nn_remake.specs.Topping.{IsGivingUpUnless, IsToppingUp, WasKeptOrGivenUp, WasToppedUp, IsBroughtTo};

use crate::clearing::give_up_previous;
use crate::cutting::cut_down;
use crate::fault::MakeFault;
use crate::publishing::publish;
use nn_base::Txid;
use nn_host::{Failed, Host};
use nn_marks::Version;
use nn_state::{Ready, Settled};
use nn_tree::Tree;
use std::alloc::Global;

/// Brings a directory that lags behind up to the namespace, as of this transaction: its saved state is given up, unless
/// `saved` says that it is to stay, all segments and all images of later ids go, and the image is published.
///
/// The version is what VERSION of `current` says. `seen_txid` stays as it is. After an `Err` the directory is in the state
/// that it had, or on the way; none of its records got another one's place.
pub fn top_up<H: Host, T: Tree>(
    alloc: Global,
    host: &mut H,
    at: Settled,
    tree: &T,
    id: Txid,
    version: &Version,
    saved: bool,
) -> Result<Settled, MakeFault>
    requires below { (dir_in at).0 < (H.state host.old).count }
    requires fits { H.told → FitsSettled at (disk_at (H.state host.old) (dir_in at).0) }
    requires normal { H.told → IsIn state.Normal (disk_at (H.state host.old) (dir_in at).0) }
    requires imaged { IsImaged (T.meaning tree.now) }
    ensures ok { H.told → IsOnlyOf version.now id (T.meaning tree.now) (dir_in at).0 (H.state host.old) → OnOk result (IsBroughtTo version.now id (T.meaning tree.now) ((H.state host.new).reads (dir_in at).0)) }
    ensures topped { H.told → OnOk result (WasToppedUp saved version.now id (T.meaning tree.now) (dir_in at).0 (H.state host.old) (H.state host.new)) }
    ensures fits { H.told → IfOk result (λ it. FitsSettled it (disk_at (H.state host.new) (dir_in at).0)) }
    ensures any_moment { OnlyAt H.told (dir_in at).0 (H.state host.old) (H.state host.new) (IsToppingUp saved version.now id (T.meaning tree.now) (disk_at (H.state host.old) (dir_in at).0)) }
    ensures dir { IfOk result (λ it. dir_in it ≡ dir_in at) }
    ensures cause { IsCountedBy (dir_in at).0 (H.state host.old) (H.state host.new) result }
{
    let dir = at.dir();
    let settled = keep_or_give_up(host, at, saved)?;
    cut_down(alloc, host, dir, id)?;
    publish(alloc, host, dir, tree, id, version)?;
    Ok(settled)
}

// Gives up the saved state, if there is one and it isn't to stay.
fn keep_or_give_up<H: Host>(host: &mut H, at: Settled, saved: bool) -> Result<Settled, Failed>
    requires below { (dir_in at).0 < (H.state host.old).count }
    requires fits { H.told → FitsSettled at (disk_at (H.state host.old) (dir_in at).0) }
    requires normal { H.told → IsIn state.Normal (disk_at (H.state host.old) (dir_in at).0) }
    ensures ok { H.told → OnOk result (WasKeptOrGivenUp saved (dir_in at).0 (H.state host.old) (H.state host.new)) }
    ensures fits { H.told → IfOk result (λ it. FitsSettled it (disk_at (H.state host.new) (dir_in at).0)) }
    ensures normal { H.told → OnOk result (IsIn state.Normal (disk_at (H.state host.new) (dir_in at).0)) }
    ensures any_moment { OnlyAt H.told (dir_in at).0 (H.state host.old) (H.state host.new) (IsGivingUpUnless saved (disk_at (H.state host.old) (dir_in at).0)) }
    ensures dir { IfOk result (λ it. dir_in it ≡ dir_in at) }
    ensures cause { IsCounted (dir_in at).0 (H.state host.old) (H.state host.new) result }
{
    if saved || !at.has_previous() {
        return Ok(at);
    }
    let dir = at.dir();
    give_up_previous(host, dir, true)?;
    Ok(Settled::Ready(Ready { dir }))
}
