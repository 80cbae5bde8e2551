// A directory in its state.
ghost use Rattle.std.specs.Prelude.{◌≡◌, ◌≢◌, ◌<◌, IfSome};
ghost use Rattle.nn_host.specs.Moments.{disk_at};
ghost use Rattle.nn_state.specs.declared.state.StorageState.TheVariants.{NonExistent};
ghost use Rattle.nn_state.specs.Typed.{state_of, dir_of, FitsFound};

use nn_base::DirNo;
use nn_host::Host;
use nn_state::{Found, found, look};

/// The directory in the state that the table gives it. None where it isn't there, is inconsistent, or a call failed.
pub fn found_at<H: Host>(host: &mut H, i: DirNo) -> Option<Found>
    requires below { i.0 < (H.state host.old).count }
    ensures count { (H.state host.new).count ≡ (H.state host.old).count }
    ensures there { IfSome result (λ it. state_of it ≢ NonExistent) }
    ensures dir { IfSome result (λ it. dir_of it ≡ i) }
    ensures fits { H.told → IfSome result (λ it. FitsFound it (disk_at (H.state host.new) i.0)) }
{
    let seven = look(host, i).ok()?;
    match found(i, seven) {
        Ok(Found::NonExistent(_)) => None,
        Ok(it) => Some(it),
        Err(_) => None,
    }
}
