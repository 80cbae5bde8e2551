// The choice, where each directory's VERSION was read.
ghost use Rattle.std.specs.Prelude.{◌≡◌, ◌+◌, ◌<◌, ◌≤◌, ◌^◌, true, length, IfOk, IfErr, IfSome, IfNone};
ghost use Rattle.nn_base.specs.DirSets.{has};
ghost use Rattle.nn_base.specs.Limits.{most_dirs};
ghost use Rattle.nn_tree.specs.Imaged.{IsImaged};
ghost use Rattle.nn_pick.specs.declared.intent.Intent.TheVariants.{Start};
ghost use Rattle.nn_choose.specs.Looking.{LookedBy, dirs_read};
ghost use Rattle.nn_choose.specs.Served.{AreServed};
ghost use Rattle.nn_choose.specs.Picking.{Chooses, IsCut, IsRefusedTruly, NeverMemory, NoneBefore};

use crate::best::Furthest;
use crate::clashes::clash;
use crate::leading::lead_of;
use crate::loading::{greatest_seen, load_best};
use crate::served::Served;
use nn_base::Txid;
use nn_host::Host;
use nn_pick::{OpenFault, Refusal};
use nn_tree::Tree;
use std::alloc::Global;

/// The chain of the directories of the greatest rank, or the first refusal of those that come behind the reading of VERSION.
pub fn choose<H: Host, T: Tree>(
    alloc: Global,
    host: &mut H,
    served: &[Option<Served>],
) -> Result<Furthest<T>, OpenFault>
    requires count { length served.now ≡ (H.state host.old).count }
    requires few { length served.now ≤ most_dirs }
    requires served { H.told → AreServed (dirs_read (H.state host.old)) served.now }
    requires passed { H.told → NoneBefore (dirs_read (H.state host.old)) 2 }
    ensures ok { H.told → IfOk result (λ it. Chooses (dirs_read (H.state host.old)) Start (T.meaning it.tree) it.last it.version (has it.dirs)) }
    ensures imaged { IfOk result (λ it. IsImaged (T.meaning it.tree)) }
    ensures within { IfOk result (λ it. ((i : _) → has it.dirs i ≡ true → i < (H.state host.old).count) × (it.last < 2 ^ 62)) }
    ensures refused { H.told → IfErr result (IsRefusedTruly (dirs_read (H.state host.old)) Start) }
    ensures memory { IfErr result NeverMemory }
    ensures kept { LookedBy H.told (H.state host.old) (H.state host.new) result }
{
    let Some(lead) = lead_of(served) else {
        return Err(OpenFault::Refused(Refusal::NotFormatted));
    };
    if let Some(refusal) = clash(served) {
        return Err(OpenFault::Refused(refusal));
    }
    let best = load_best(alloc, host, served, &lead)?;
    let seen = greatest_seen(host, served, &lead)?;
    match cut(best.last, seen) {
        Some(refusal) => Err(OpenFault::Refused(refusal)),
        None => Ok(best),
    }
}

/// Why records that end at `last` can't be gone on with, where a `seen_txid` says `seen`.
fn cut(last: Txid, seen: u64) -> Option<Refusal>
    ensures some { IfSome result (IsCut last seen) }
    ensures none { IfNone result ((seen ≤ last + 1) × (last < 2 ^ 62)) }
{
    if last.0 + 1 < seen {
        return Some(Refusal::Gap { seen, last });
    }
    if 1 << 62 <= last.0 {
        return Some(Refusal::Spent(last));
    }
    None
}
