// A start over several directories.
ghost use Rattle.std.specs.Prelude.{◌≡◌, ◌<◌, ◌^◌, ℕ, IfOk, IfErr};
ghost use Rattle.nn_base.specs.DirSets.{has};
ghost use Rattle.nn_host.specs.Runs.{Unspoken};
ghost use Rattle.nn_state.specs.Bays.{AreSettled};
ghost use Rattle.nn_tree.specs.Imaged.{IsImaged};
ghost use Rattle.nn_pick.specs.declared.intent.Intent.TheVariants.{Start};
ghost use Rattle.nn_choose.specs.Looking.{dirs_read};
ghost use Rattle.nn_choose.specs.Picking.{Chooses, IsRefusedTruly};
ghost use Rattle.nn_start.specs.Entry.{ReadsWhereRefused};
ghost use Rattle.nn_begin.specs.Begun.{IsNewJournal, HoldsBy, IsCountedIn};
ghost use Rattle.nn_begin.specs.Started.{Starts, HasStarted, StartsKept};

use crate::beginning::begin;
use nn_host::Host;
use nn_journal::Opened;
use nn_pick::OpenFault;
use nn_start::{Aim, Recovered, bring_together, tidy_all};
use nn_tree::Tree;
use std::alloc::Global;

/// Starts over all directories: they are brought to the namespace that they open to and tidied, and a journal is begun over
/// them. Or answers the first refusal of their table; nothing that reads is changed then.
pub fn start<H: Host, T: Tree>(alloc: Global, host: &mut H) -> Result<Opened<T>, OpenFault>
    ensures ok { H.told → IfOk result (λ it. (chosen : _) × Chooses (dirs_read (H.state host.old)) Start (T.meaning it.tree) it.last it.version chosen) }
    ensures refused { H.told → IfErr result (IsRefusedTruly (dirs_read (H.state host.old)) Start) }
    ensures unchanged { H.told → IfErr result (ReadsWhereRefused (H.state host.old) (H.state host.new)) }
    ensures imaged { IfOk result (λ it. IsImaged (T.meaning it.tree)) }
    ensures room { IfOk result (λ it. it.last < 2 ^ 62) }
    ensures placed { IfOk result (λ it. AreSettled (H.state host.old).count it.bay.at.items) }
    ensures ready { IfOk result (λ it. IsNewJournal (H.state host.old).count it.last it.journal) }
    ensures holders { IfOk result (λ it. HoldsBy it.bay.at.items (has it.journal.holders)) }
    ensures started { H.told → Starts (dirs_read (H.state host.old)) (λ shared. IfOk result (λ it. HasStarted (H.state host.old) shared it.version it.last (T.meaning it.tree) it.bay.at.items it.journal (H.state host.new))) }
    ensures kept { StartsKept H.told (H.state host.old) (H.state host.new) }
    ensures quiet { Unspoken H.told (H.state host.old) (H.state host.new) }
    ensures cause { IsCountedIn (H.state host.old) (H.state host.new) result }
{
    let Recovered { aim, bay } = bring_together(alloc, host)?;
    tidy_all(alloc, host, &aim)?;
    let journal = begin(alloc, host, &bay, aim.last, &aim.version)?;
    let Aim {
        tree,
        last,
        version,
        ..
    } = aim;
    Ok(Opened {
        bay,
        journal,
        tree,
        version,
        last,
    })
}
