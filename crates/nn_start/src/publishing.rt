// The image of the aim, published into each chosen directory.
ghost use Rattle.std.specs.Prelude.{◌≡◌, ◌≢◌, ◌<◌, ℕ, true, false, OnOk, IfErr};
ghost use Rattle.nn_base.specs.DirSets.{has};
ghost use Rattle.nn_base.specs.declared.sub.Sub.TheVariants.{Current};
ghost use Rattle.nn_host.specs.Moments.{disk_at};
ghost use Rattle.nn_host.specs.Runs.{OnlyAt, Unspoken};
ghost use Rattle.nn_tree.specs.Imaged.{IsImaged};
ghost use Rattle.nn_segment_file.specs.Log.{Beside};
ghost use Rattle.nn_remake.specs.Counts.{IsCountedBy as IsCountedAt};
ghost use Rattle.nn_remake.specs.Publishing.{IsPublishing};
ghost use Rattle.nn_remake.specs.Published.{IsPublished};
ghost use Rattle.nn_remake.specs.Rank.{IsRanked};
ghost use Rattle.nn_start.specs.Bringing.{KeepsAll, BringsAll, IsBrought, IsAsItWas};
ghost use Rattle.nn_start.specs.Publishing.{AreToPublish};
ghost use Rattle.nn_start.specs.Keeping.{IsYounger};
ghost use Rattle.nn_start.specs.Entry.{IsCountedBy};

use crate::opening::Aim;
use nn_base::DirNo;
use nn_host::Host;
use nn_pick::OpenFault;
use nn_remake::{MakeFault, publish};
use nn_tree::Tree;
use std::alloc::Global;

/// Publishes the image of the aim in each chosen directory, in order; the others are left alone. One that has it, intact, is
/// left as it is.
pub fn publish_all<H: Host, T: Tree>(
    alloc: Global,
    host: &mut H,
    aim: &Aim<T>,
) -> Result<(), OpenFault>
    requires imaged { IsImaged (T.meaning aim.now.tree) }
    ensures published { H.told → BringsAll (λ shared s. AreToPublish shared (has aim.now.chosen) aim.now.version aim.now.last (T.meaning aim.now.tree) s) (λ shared i s. IsBrought shared aim.now.version aim.now.last i s) (has aim.now.chosen) aim.now.version aim.now.last (T.meaning aim.now.tree) (H.state host.old) (H.state host.new) result }
    ensures kept { KeepsAll H.told (λ shared s. AreToPublish shared (has aim.now.chosen) aim.now.version aim.now.last (T.meaning aim.now.tree) s) (has aim.now.chosen) aim.now.version aim.now.last (T.meaning aim.now.tree) (H.state host.old) (H.state host.new) }
    ensures beside { H.told → (i : ℕ) → Beside (IsYounger aim.now.last) (disk_at (H.state host.old) i) (disk_at (H.state host.new) i) }
    ensures left { (i : ℕ) → has aim.now.chosen i ≡ false → IsAsItWas i (H.state host.old) (H.state host.new) }
    ensures unrefused { IfErr result (λ why. (refusal : _) → why ≢ OpenFault.Refused refusal) }
    ensures quiet { Unspoken H.told (H.state host.old) (H.state host.new) }
    ensures cause { IsCountedBy (H.state host.old) (H.state host.new) result }
{
    for i in 0..host.count() {
        let dir = DirNo(i);
        match publish_at(alloc, host, dir, aim) {
            Ok(()) => {}
            Err(MakeFault::Failed) => return Err(OpenFault::Failed(dir)),
            Err(MakeFault::Memory) => return Err(OpenFault::Memory),
        }
    }
    Ok(())
}

// Publishes the image of the aim in one directory, if it was chosen.
fn publish_at<H: Host, T: Tree>(
    alloc: Global,
    host: &mut H,
    i: DirNo,
    aim: &Aim<T>,
) -> Result<(), MakeFault>
    requires below { i.0 < (H.state host.old).count }
    requires imaged { IsImaged (T.meaning aim.now.tree) }
    ensures published { H.told → has aim.now.chosen i.0 ≡ true → (disk_at (H.state host.old) i.0).has Current ≡ true → OnOk result (IsPublished aim.now.version aim.now.last (T.meaning aim.now.tree) i.0 (H.state host.old) (H.state host.new)) }
    ensures any_moment { has aim.now.chosen i.0 ≡ true → OnlyAt H.told i.0 (H.state host.old) (H.state host.new) (IsPublishing aim.now.version aim.now.last (T.meaning aim.now.tree) (disk_at (H.state host.old) i.0)) }
    ensures rank { has aim.now.chosen i.0 ≡ true → OnlyAt H.told i.0 (H.state host.old) (H.state host.new) (IsRanked aim.now.version (record { last = aim.now.last; ns = T.meaning aim.now.tree }) (disk_at (H.state host.old) i.0)) }
    ensures left { has aim.now.chosen i.0 ≡ false → H.state host.new ≡ H.state host.old }
    ensures cause { IsCountedAt i.0 (H.state host.old) (H.state host.new) result }
{
    if !aim.chosen.has(i) {
        return Ok(());
    }
    publish(alloc, host, i, &aim.tree, aim.last, &aim.version)
}
