// All directories, settled.
ghost use Rattle.std.specs.Prelude.{◌≡◌, ◌<◌, ℕ, OnOk, IfErr};
ghost use Rattle.nn_host.specs.Moments.{disk_at};
ghost use Rattle.nn_host.specs.Runs.{Unspoken};
ghost use Rattle.nn_open.specs.Answers.{settled_disk, EachAsBefore};
ghost use Rattle.nn_start.specs.Entry.{IsCountedBy};

use nn_base::DirNo;
use nn_host::{Failed, Host};
use nn_pick::OpenFault;

/// Settles each directory, in order: a stop leaves of each what reads, from then on.
///
/// `Failed` where the call on that directory failed. Those before it are settled.
pub fn settle_all<H: Host>(host: &mut H) -> Result<(), OpenFault>
    ensures reads { H.told → OnOk result ((j : ℕ) → (H.state host.new).reads j ≡ (H.state host.old).reads j) }
    ensures settled { H.told → OnOk result ((j : ℕ) → j < (H.state host.old).count → disk_at (H.state host.new) j ≡ settled_disk (H.state host.old) j) }
    ensures failed { IfErr result (λ why. (i : _) × (why ≡ OpenFault.Failed i)) }
    ensures any_moment { EachAsBefore H.told (H.state host.old) (H.state host.new) }
    ensures quiet { Unspoken H.told (H.state host.old) (H.state host.new) }
    ensures cause { IsCountedBy (H.state host.old) (H.state host.new) result }
{
    for i in 0..host.count() {
        match host.settle(DirNo(i)) {
            Ok(()) => {}
            Err(Failed) => return Err(OpenFault::Failed(DirNo(i))),
        }
    }
    Ok(())
}
