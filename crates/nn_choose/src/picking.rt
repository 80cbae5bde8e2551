// The choice among several directories.
ghost use Rattle.std.specs.Prelude.{◌≡◌, ◌↔◌, ◌<◌, ◌^◌, true, IfOk, IfErr};
ghost use Rattle.nn_base.specs.DirSets.{has};
ghost use Rattle.nn_tree.specs.Imaged.{IsImaged};
ghost use Rattle.nn_pick.specs.declared.intent.Intent.TheVariants.{Start};
ghost use Rattle.nn_state.specs.Bays.{AreFound};
ghost use Rattle.nn_choose.specs.Looking.{LookedBy, dirs_read};
ghost use Rattle.nn_choose.specs.Picking.{IsAhead, IsRefusedTruly, NeverMemory, Picks};

use crate::choosing::choose;
use crate::leading::ahead;
use crate::states::survey;
use crate::versions::versions;
use nn_base::{DirSet, Txid};
use nn_host::Host;
use nn_marks::Version;
use nn_pick::OpenFault;
use nn_state::Found;
use nn_tree::Tree;
use std::alloc::Global;

/// What several directories open to.
#[derive(Drop)]
pub struct Picked<T: Tree> {
    /// The namespace at the end of the chain.
    pub tree: T,
    /// The last id of the chain, below 2^62.
    pub last: Txid,
    /// VERSION of the lowest chosen directory.
    pub version: Version,
    /// The directories of the greatest rank.
    pub chosen: DirSet,
    /// The directories of the greatest cTime. The chosen are among them, and the others of them lack records or an image.
    pub ahead: DirSet,
    /// The state of each directory, in its place.
    pub found: Vec<Found>,
}

/// What the directories open to for a start: the chain of those of the greatest rank, which is the pair of cTime and last
/// id. Or the first refusal of their table, of the lowest directory that it applies to. Nothing is changed.
///
/// Each directory of the greatest cTime is loaded once, and no other; two namespaces are in memory at most, and what
/// loading one directory takes.
///
/// Like Hadoop's `FSImage.recoverTransitionRead` and `FSImageTransactionalStorageInspector`, but that directories are
/// compared by how far their records go.
pub fn pick<H: Host, T: Tree>(alloc: Global, host: &mut H) -> Result<Picked<T>, OpenFault>
    ensures ok { H.told → IfOk result (λ it. Picks (dirs_read (H.state host.old)) Start (T.meaning it.tree) it.last it.version (has it.chosen) it.found.items) }
    ensures refused { H.told → IfErr result (IsRefusedTruly (dirs_read (H.state host.old)) Start) }
    ensures memory { IfErr result NeverMemory }
    ensures ahead { H.told → IfOk result (λ it. (i : _) → (has it.ahead i ≡ true) ↔ IsAhead (dirs_read (H.state host.old)) i) }
    ensures imaged { IfOk result (λ it. IsImaged (T.meaning it.tree)) }
    ensures room { IfOk result (λ it. it.last < 2 ^ 62) }
    ensures placed { IfOk result (λ it. AreFound (H.state host.old).count it.found.items × ((i : _) → has it.chosen i ≡ true → i < (H.state host.old).count) × ((i : _) → has it.ahead i ≡ true → i < (H.state host.old).count)) }
    ensures kept { LookedBy H.told (H.state host.old) (H.state host.new) result }
{
    let states = survey(alloc, host)?;
    let served = versions(alloc, host, &states.serving)?;
    let best = choose(alloc, host, &served)?;
    Ok(Picked {
        tree: best.tree,
        last: best.last,
        version: best.version,
        chosen: best.dirs,
        ahead: ahead(&served),
        found: states.found,
    })
}
