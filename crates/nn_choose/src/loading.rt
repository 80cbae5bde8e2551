// The chains of the directories of the greatest cTime, and what their `seen_txid` say.
ghost use Rattle.std.specs.Prelude.{◌≡◌, ◌≢◌, ◌<◌, ◌≤◌, ◌^◌, true, length, IfOk, IfErr};
ghost use Rattle.nn_base.specs.DirSets.{has};
ghost use Rattle.nn_base.specs.Limits.{most_dirs};
ghost use Rattle.nn_tree.specs.Imaged.{IsImaged};
ghost use Rattle.nn_chain.specs.Folder.{folder_at};
ghost use Rattle.nn_pick.specs.Dirs.{IsGreatestSeen};
ghost use Rattle.nn_choose.specs.Served.{AreServed, IsLead};
ghost use Rattle.nn_choose.specs.Looking.{LookedBy, dirs_read};
ghost use Rattle.nn_choose.specs.Picking.{IsBestChain, IsSoundBest, IsLoaded, IsOfOne, NoneBefore, IsRefusedAnyway, NeverMemory};

use crate::best::{Best, Furthest, better};
use crate::leading::at_ctime;
use crate::marks::seen_at;
use crate::served::{Lead, Served};
use nn_base::{DirNo, DirSet};
use nn_host::Host;
use nn_load::{ChainFault, load_dir};
use nn_pick::{OpenFault, Refusal};
use nn_tree::Tree;
use std::alloc::Global;

/// Loads each directory of the greatest cTime, in order, and keeps the chain that ends last: at most two trees are in memory
/// at a time. The first directory refuses where none has an intact image.
pub fn load_best<H: Host, T: Tree>(
    alloc: Global,
    host: &mut H,
    served: &[Option<Served>],
    lead: &Lead,
) -> Result<Furthest<T>, OpenFault>
    requires count { length served.now ≡ (H.state host.old).count }
    requires few { length served.now ≤ most_dirs }
    requires lead { IsLead served.now (length served.now) lead.now }
    requires served { H.told → AreServed (dirs_read (H.state host.old)) served.now }
    requires passed { H.told → NoneBefore (dirs_read (H.state host.old)) 7 }
    ensures ok { H.told → IfOk result (λ it. IsBestChain (dirs_read (H.state host.old)) (H.state host.old).count (T.meaning it.tree) it.last it.version (has it.dirs)) }
    ensures imaged { IfOk result (λ it. IsImaged (T.meaning it.tree)) }
    ensures within { IfOk result (λ it. (j : _) → has it.dirs j ≡ true → j < (H.state host.old).count) }
    ensures refused { H.told → IfErr result (IsRefusedAnyway (dirs_read (H.state host.old))) }
    ensures memory { IfErr result NeverMemory }
    ensures kept { LookedBy H.told (H.state host.old) (H.state host.new) result }
{
    let mut best = load_at(alloc, host, lead.dir, &lead.served)?;
    for i in lead.dir.0 + 1..host.count() {
        let Some(it) = at_ctime(served, DirNo(i), lead.served.version.ctime) else {
            continue;
        };
        let next = load_at(alloc, host, DirNo(i), &it)?;
        best = better(best, DirNo(i), next);
    }
    match best {
        Best::Chain(reached) => Ok(reached),
        Best::NoImage(why) => Err(OpenFault::Refused(Refusal::NoImage(lead.dir, why))),
    }
}

fn load_at<H: Host, T: Tree>(
    alloc: Global,
    host: &mut H,
    i: DirNo,
    it: &Served,
) -> Result<Best<T>, OpenFault>
    requires below { i.0 < (H.state host.old).count }
    requires few { i.0 < 8 }
    ensures ok { H.told → IfOk result (IsLoaded T.meaning (folder_at ((H.state host.old).reads i.0) it.now.sub) it.now.version) }
    ensures sound { IfOk result (IsSoundBest T.meaning) }
    ensures one { IfOk result (IsOfOne i.0) }
    ensures unrefused { IfErr result (λ fault. (refusal : _) → fault ≢ OpenFault.Refused refusal) }
    ensures kept { LookedBy H.told (H.state host.old) (H.state host.new) result }
{
    match load_dir(alloc, host, i, it.sub, &it.version) {
        Ok(loaded) => Ok(Best::Chain(Furthest {
            tree: loaded.tree,
            last: loaded.id,
            version: it.version,
            dirs: DirSet::none().with(i),
        })),
        Err(ChainFault::NoImage(why)) => Ok(Best::NoImage(why)),
        Err(ChainFault::Failed) => Err(OpenFault::Failed(i)),
        Err(ChainFault::Memory) => Err(OpenFault::Memory),
    }
}

/// The greatest id that a `seen_txid` of the directories of the greatest cTime says.
pub fn greatest_seen<H: Host>(
    host: &mut H,
    served: &[Option<Served>],
    lead: &Lead,
) -> Result<u64, OpenFault>
    requires count { length served.now ≡ (H.state host.old).count }
    requires few { length served.now ≤ most_dirs }
    requires lead { IsLead served.now (length served.now) lead.now }
    requires served { H.told → AreServed (dirs_read (H.state host.old)) served.now }
    ensures ok { H.told → IfOk result (IsGreatestSeen (dirs_read (H.state host.old))) }
    ensures unrefused { IfErr result (λ fault. (refusal : _) → fault ≢ OpenFault.Refused refusal) }
    ensures kept { LookedBy H.told (H.state host.old) (H.state host.new) result }
{
    let mut greatest = seen_at(host, lead.dir, lead.served.sub)?;
    for i in lead.dir.0 + 1..host.count() {
        let Some(it) = at_ctime(served, DirNo(i), lead.served.version.ctime) else {
            continue;
        };
        let seen = seen_at(host, DirNo(i), it.sub)?;
        greatest = greatest.max(seen);
    }
    Ok(greatest)
}
