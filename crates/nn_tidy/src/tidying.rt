// A directory that is tidied.
ghost use Rattle.std.specs.Prelude.{◌≡◌, ◌<◌, OnOk, IfOk, IsErrOf};
ghost use Rattle.nn_base.specs.declared.sub.Sub.TheVariants.{Current};
ghost use Rattle.nn_host.specs.Moments.{disk_at};
ghost use Rattle.nn_host.specs.Runs.{OnlyAt};
ghost use Rattle.nn_chain.specs.Folder.{folder_at};
ghost use Rattle.nn_remake.specs.Counts.{IsCountedBy};
ghost use Rattle.nn_remake.specs.Tidying.{IsTidying, WasTidied, IsTidy};

use crate::plan::plan_of;
use crate::steps::take_all;
use nn_base::{DirNo, Txid};
use nn_host::Host;
use nn_marks::Version;
use nn_remake::{MakeFault, names_of};
use std::alloc::Global;

/// Takes away what no longer counts in `current` beside the image of this id: each `.tmp` and `fsimage.ckpt` file, each
/// image of a later id, each segment that begins after it or has a later record. A segment in progress that ends by then
/// gets the name of a finalized one; one without a record, or whose new name is taken, goes.
///
/// The version is what VERSION of `current` says. Segments that may have a later record, and those in progress, are read once, and all
/// of it is settled before the first file goes: so after `Memory` nothing has changed. After `Failed` some of it is done.
/// Files that the rule doesn't name stay, older images and whole segments among them.
pub fn tidy<H: Host>(
    alloc: Global,
    host: &mut H,
    i: DirNo,
    id: Txid,
    version: &Version,
) -> Result<(), MakeFault>
    requires below { i.0 < (H.state host.old).count }
    ensures ok { H.told → OnOk result (WasTidied version.now.layout id i.0 (H.state host.old) (H.state host.new)) }
    ensures tidy { H.told → OnOk result (IsTidy (folder_at ((H.state host.new).reads i.0) Current) version.now.layout id) }
    ensures any_moment { OnlyAt H.told i.0 (H.state host.old) (H.state host.new) (IsTidying (folder_at ((H.state host.old).reads i.0) Current) version.now.layout id (disk_at (H.state host.old) i.0)) }
    ensures memory { H.told → IsErrOf result MakeFault.Memory → disk_at (H.state host.new) i.0 ≡ disk_at (H.state host.old) i.0 }
    ensures cause { IsCountedBy i.0 (H.state host.old) (H.state host.new) result }
{
    let names = names_of(alloc, host, i)?;
    let plan = plan_of(alloc, host, i, &names, id, version)?;
    take_all(host, i, plan.joined()?)?;
    Ok(())
}
