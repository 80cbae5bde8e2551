// The VERSIONs of all formatted directories.
ghost use Rattle.std.specs.Prelude.{◌≡◌, ◌<◌, length, IfOk, IfErr};
ghost use Rattle.nn_state.specs.Seat.{serving as serving_of};
ghost use Rattle.nn_choose.specs.Looking.{LookedBy, dirs_read};
ghost use Rattle.nn_choose.specs.Picking.{AreServing, IsBadVersionOf, NoneBefore, IsRefusedAnyway, NeverMemory};
ghost use Rattle.nn_choose.specs.Served.{AreServed, ServesAs};

use crate::marks::version_at;
use crate::served::Served;
use crate::states::append;
use nn_base::{DirNo, Sub};
use nn_host::Host;
use nn_pick::OpenFault;
use std::alloc::Global;

/// Reads VERSION of each folder that serves as current, in order of the directories. The first fault refuses.
pub fn versions<H: Host>(
    alloc: Global,
    host: &mut H,
    serving: &[Option<Sub>],
) -> Result<Vec<Option<Served>>, OpenFault>
    requires count { length serving.now ≡ (H.state host.old).count }
    requires serving { H.told → AreServing (dirs_read (H.state host.old)) serving.now }
    requires passed { H.told → NoneBefore (dirs_read (H.state host.old)) 2 }
    ensures ok { H.told → IfOk result (λ served. AreServed (dirs_read (H.state host.old)) served.items) }
    ensures count { IfOk result (λ served. length served.items ≡ (H.state host.old).count) }
    ensures refused { H.told → IfErr result (IsRefusedAnyway (dirs_read (H.state host.old))) }
    ensures memory { IfErr result NeverMemory }
    ensures kept { LookedBy H.told (H.state host.old) (H.state host.new) result }
{
    let mut served = Vec::new(alloc);
    for i in 0..host.count() {
        let it = served_at(alloc, host, DirNo(i), serving[usize::from(i)])?;
        append(&mut served, it)?;
    }
    Ok(served)
}

fn served_at<H: Host>(
    alloc: Global,
    host: &mut H,
    i: DirNo,
    serving: Option<Sub>,
) -> Result<Option<Served>, OpenFault>
    requires below { i.0 < (H.state host.old).count }
    requires serving { H.told → serving ≡ serving_of ((H.state host.old).reads i.0) }
    ensures ok { H.told → IfOk result (ServesAs ((H.state host.old).reads i.0)) }
    ensures refused { H.told → IfErr result (IsBadVersionOf i ((H.state host.old).reads i.0)) }
    ensures memory { IfErr result NeverMemory }
    ensures kept { LookedBy H.told (H.state host.old) (H.state host.new) result }
{
    match serving {
        None => Ok(None),
        Some(sub) => {
            let version = version_at(alloc, host, i, sub)?;
            Ok(Some(Served { sub, version }))
        }
    }
}
