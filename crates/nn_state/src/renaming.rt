// A folder that takes the name of another one.
ghost use Rattle.std.specs.Prelude.{◌≡◌, ◌≢◌, ◌<◌, true, OnOk};
ghost use Rattle.nn_host.specs.Moments.{disk_at};
ghost use Rattle.nn_host.specs.Calls.{IsCounted};
ghost use Rattle.nn_host.specs.Runs.{OnlyAt};
ghost use Rattle.nn_state.specs.Renaming.{IsPutting, WasPut};

use nn_base::{DirNo, Sub};
use nn_host::{Failed, Host};

/// Removes the folder `to`, if it is there, and gives its name to the folder `from`.
///
/// `from` has its name until then, so that what it holds is there at each moment.
pub fn put_under<H: Host>(host: &mut H, i: DirNo, from: Sub, to: Sub) -> Result<(), Failed>
    requires below { i.0 < (H.state host.old).count }
    requires apart { from ≢ to }
    requires there { H.told → (disk_at (H.state host.old) i.0).has from ≡ true }
    ensures ok { H.told → OnOk result (WasPut from to i.0 (H.state host.old) (H.state host.new)) }
    ensures any_moment { OnlyAt H.told i.0 (H.state host.old) (H.state host.new) (IsPutting from to (disk_at (H.state host.old) i.0)) }
    ensures cause { IsCounted i.0 (H.state host.old) (H.state host.new) result }
{
    host.remove_sub(i, to)?;
    host.rename_sub(i, from, to)
}
