// A folder that is cut down to its images of earlier ids.
ghost use Rattle.std.specs.Prelude.{◌≡◌, ◌<◌, OnOk, IfOk, true, is_ok};
ghost use Rattle.nn_base.specs.declared.sub.Sub.TheVariants.{Current};
ghost use Rattle.nn_host.specs.Listing.{IsListing};
ghost use Rattle.nn_host.specs.Moments.{disk_at};
ghost use Rattle.nn_host.specs.Runs.{OnlyAt};
ghost use Rattle.nn_small.specs.Failure.{EndsByFailure};
ghost use Rattle.nn_remake.specs.Counts.{IsCountedBy};
ghost use Rattle.nn_remake.specs.Cutting.{IsCutting, WasCutDown};

use crate::fault::MakeFault;
use crate::removing::{later_images_among, remove_from_end, segments_among};
use nn_base::{DirNo, FileName, Sub, Txid};
use nn_host::{Host, ListFault};
use std::alloc::Global;

/// Removes all segments of `current`, the last one first, and then all images of later ids.
///
/// The segments go in falling byte order of names: the record of each id is the one in the first segment that has it, so
/// none gets another one.
pub fn cut_down<H: Host>(alloc: Global, host: &mut H, i: DirNo, id: Txid) -> Result<(), MakeFault>
    requires below { i.0 < (H.state host.old).count }
    ensures ok { H.told → OnOk result (WasCutDown id i.0 (H.state host.old) (H.state host.new)) }
    ensures any_moment { OnlyAt H.told i.0 (H.state host.old) (H.state host.new) (IsCutting id (disk_at (H.state host.old) i.0)) }
    ensures cause { IsCountedBy i.0 (H.state host.old) (H.state host.new) result }
{
    let names = names_of(alloc, host, i)?;
    let segments = segments_among(alloc, &names)?;
    let images = later_images_among(alloc, &names, id)?;
    remove_from_end(host, i, segments)?;
    remove_from_end(host, i, images)?;
    Ok(())
}

/// The names of the files of `current`, in byte order.
pub fn names_of<H: Host>(alloc: Global, host: &mut H, i: DirNo) -> Result<Vec<FileName>, MakeFault>
    requires below { i.0 < (H.state host.old).count }
    ensures ok { H.told → IfOk result (λ names. IsListing ((H.state host.old).reads i.0) Current names.items) }
    ensures kept { H.told → OnOk result ((H.state host.new).reads i.0 ≡ (H.state host.old).reads i.0) }
    ensures any_moment { OnlyAt H.told i.0 (H.state host.old) (H.state host.new) (λ d. d ≡ disk_at (H.state host.old) i.0) }
    ensures still { EndsByFailure H.told i.0 (H.state host.old) (H.state host.new) }
    ensures cause { IsCountedBy i.0 (H.state host.old) (H.state host.new) result }
{
    let mut names = Vec::new(alloc);
    match host.list(i, Sub::Current, &mut names) {
        Ok(()) => Ok(names),
        Err(ListFault::Failed) => Err(MakeFault::Failed),
        Err(ListFault::Memory) => Err(MakeFault::Memory),
    }
}
