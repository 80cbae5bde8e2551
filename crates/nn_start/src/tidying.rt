// All directories of a start, tidied.
ghost use Rattle.std.specs.Prelude.{◌≡◌, ◌≢◌, ◌<◌, ℕ, true, IfErr, OnOk};
ghost use Rattle.nn_base.specs.DirSets.{has};
ghost use Rattle.nn_base.specs.declared.sub.Sub.TheVariants.{Current};
ghost use Rattle.nn_host.specs.Moments.{disk_at};
ghost use Rattle.nn_host.specs.Runs.{OnlyAt, Unspoken};
ghost use Rattle.nn_chain.specs.Folder.{folder_at};
ghost use Rattle.nn_segment_file.specs.Log.{Beside};
ghost use Rattle.nn_remake.specs.Counts.{IsCountedBy as IsCountedAt};
ghost use Rattle.nn_remake.specs.Tidying.{IsTidying, WasTidied, IsTidy};
ghost use Rattle.nn_start.specs.Bringing.{KeepsAll, BringsAll};
ghost use Rattle.nn_start.specs.Entry.{IsCountedBy};
ghost use Rattle.nn_start.specs.Keeping.{IsYounger};
ghost use Rattle.nn_start.specs.Together.{AllBrought, IsAtRest};

use crate::opening::Aim;
use nn_base::DirNo;
use nn_host::Host;
use nn_pick::OpenFault;
use nn_remake::MakeFault;
use nn_tidy::tidy;
use nn_tree::Tree;
use std::alloc::Global;

/// Tidies each directory, in order: what no longer counts beside the image of the aim goes, and a segment in progress gets the
/// name of one that was ended.
pub fn tidy_all<H: Host, T: Tree>(
    alloc: Global,
    host: &mut H,
    aim: &Aim<T>,
) -> Result<(), OpenFault>
    ensures rests { H.told → BringsAll (λ shared s. AllBrought shared aim.now.version aim.now.last s) (λ shared i s. IsAtRest shared aim.now.version aim.now.last i s) (λ i. true) aim.now.version aim.now.last (T.meaning aim.now.tree) (H.state host.old) (H.state host.new) result }
    ensures tidy { H.told → OnOk result ((i : ℕ) → i < (H.state host.old).count → IsTidy (folder_at ((H.state host.new).reads i) Current) aim.now.version.layout aim.now.last) }
    ensures kept { KeepsAll H.told (λ shared s. AllBrought shared aim.now.version aim.now.last s) (has aim.now.chosen) aim.now.version aim.now.last (T.meaning aim.now.tree) (H.state host.old) (H.state host.new) }
    ensures beside { H.told → (i : ℕ) → Beside (IsYounger aim.now.last) (disk_at (H.state host.old) i) (disk_at (H.state host.new) i) }
    ensures unrefused { IfErr result (λ why. (refusal : _) → why ≢ OpenFault.Refused refusal) }
    ensures quiet { Unspoken H.told (H.state host.old) (H.state host.new) }
    ensures cause { IsCountedBy (H.state host.old) (H.state host.new) result }
{
    for i in 0..host.count() {
        let dir = DirNo(i);
        match tidy_at(alloc, host, dir, aim) {
            Ok(()) => {}
            Err(MakeFault::Failed) => return Err(OpenFault::Failed(dir)),
            Err(MakeFault::Memory) => return Err(OpenFault::Memory),
        }
    }
    Ok(())
}

// Tidies one directory beside the image of the aim.
fn tidy_at<H: Host, T: Tree>(
    alloc: Global,
    host: &mut H,
    i: DirNo,
    aim: &Aim<T>,
) -> Result<(), MakeFault>
    requires below { i.0 < (H.state host.old).count }
    ensures ok { H.told → OnOk result (WasTidied aim.now.version.layout aim.now.last i.0 (H.state host.old) (H.state host.new)) }
    ensures tidy { H.told → OnOk result (IsTidy (folder_at ((H.state host.new).reads i.0) Current) aim.now.version.layout aim.now.last) }
    ensures any_moment { OnlyAt H.told i.0 (H.state host.old) (H.state host.new) (IsTidying (folder_at ((H.state host.old).reads i.0) Current) aim.now.version.layout aim.now.last (disk_at (H.state host.old) i.0)) }
    ensures cause { IsCountedAt i.0 (H.state host.old) (H.state host.new) result }
{
    tidy(alloc, host, i, aim.last, &aim.version)
}
