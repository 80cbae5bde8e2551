// All directories of a start, brought to one namespace.
ghost use Rattle.std.specs.Prelude.{◌≡◌, ◌<◌, ◌^◌, ℕ, true, IfOk, IfErr};
ghost use Rattle.nn_base.specs.DirSets.{has};
ghost use Rattle.nn_host.specs.Moments.{disk_at};
ghost use Rattle.nn_host.specs.Runs.{Unspoken};
ghost use Rattle.nn_state.specs.Bays.{AreSettled};
ghost use Rattle.nn_tree.specs.Imaged.{IsImaged};
ghost use Rattle.nn_pick.specs.declared.intent.Intent.TheVariants.{Start};
ghost use Rattle.nn_pick.specs.Opening.{AreSound};
ghost use Rattle.nn_kept.specs.Kept.{Shared};
ghost use Rattle.nn_kept.specs.First.{IsFirst};
ghost use Rattle.nn_choose.specs.Looking.{dirs_read};
ghost use Rattle.nn_choose.specs.Picking.{Chooses, IsRefusedTruly};
ghost use Rattle.nn_start.specs.Entry.{StartKept, SettledFitNow, ReadsWhereRefused, IsCountedBy};
ghost use Rattle.nn_start.specs.Keeping.{ChosenKeepOwn};
ghost use Rattle.nn_start.specs.Together.{AreTogether};

use crate::bringing::bring_up;
use crate::opening::{Recovered, open};
use crate::publishing::publish_all;
use nn_host::Host;
use nn_pick::OpenFault;
use nn_tree::Tree;
use std::alloc::Global;

/// Opens all directories for a start, and brings each of them to the namespace that they open to: with its image, at which
/// their chains end. Or answers the first refusal of their table; nothing that reads is changed then.
pub fn bring_together<H: Host, T: Tree>(
    alloc: Global,
    host: &mut H,
) -> Result<Recovered<T>, OpenFault>
    ensures ok { H.told → IfOk result (λ it. Chooses (dirs_read (H.state host.old)) Start (T.meaning it.aim.tree) it.aim.last it.aim.version (has it.aim.chosen)) }
    ensures refused { H.told → IfErr result (IsRefusedTruly (dirs_read (H.state host.old)) Start) }
    ensures unchanged { H.told → IfErr result (ReadsWhereRefused (H.state host.old) (H.state host.new)) }
    ensures imaged { IfOk result (λ it. IsImaged (T.meaning it.aim.tree)) }
    ensures room { IfOk result (λ it. it.aim.last < 2 ^ 62) }
    ensures placed { IfOk result (λ it. AreSettled (H.state host.old).count it.bay.at.items × ((i : ℕ) → has it.aim.chosen i ≡ true → i < (H.state host.old).count)) }
    ensures fits { H.told → IfOk result (λ it. SettledFitNow it.bay.at.items (H.state host.new)) }
    ensures together { H.told → (sound : AreSound (dirs_read (H.state host.old)) Start) (shared : Shared) → IsFirst shared (dirs_read (H.state host.old)) Start sound → IfOk result (λ it. AreTogether shared it.aim.version it.aim.last (T.meaning it.aim.tree) (H.state host.old) (H.state host.new)) }
    ensures stays { H.told → IfOk result (λ it. ChosenKeepOwn (has it.aim.chosen) it.aim.last (H.state host.old) (H.state host.new)) }
    ensures kept { StartKept H.told (H.state host.old) (H.state host.new) }
    ensures quiet { Unspoken H.told (H.state host.old) (H.state host.new) }
    ensures cause { IsCountedBy (H.state host.old) (H.state host.new) result }
{
    let Recovered { aim, bay } = open(alloc, host)?;
    let bay = bring_up(alloc, host, &aim, bay)?;
    publish_all(alloc, host, &aim)?;
    Ok(Recovered { aim, bay })
}
