// A checkpoint of a run.
ghost use Rattle.std.specs.Prelude.{◌≡◌, ◌+◌, ◌*◌, ◌<◌, ◌≤◌, ◌^◌, ℕ, true, false, [], OnOk, IfOk, IsErrOf};
ghost use Rattle.nn_base.specs.DirSets.{has, count_of};
ghost use Rattle.nn_tree.specs.Imaged.{IsImaged};
ghost use Rattle.nn_journal.specs.Places.{IsFit, Went};
ghost use Rattle.nn_ckpt.specs.Checkpointed.{Checkpoints};

use crate::fault::RunFault;
use crate::publishing::publish_all;
use crate::purging::purge;
use nn_base::Txid;
use nn_host::Host;
use nn_journal::JournalSet;
use nn_marks::Version;
use nn_tree::Tree;
use std::alloc::Global;

/// Checkpoints a run of this namespace (HDFS's `FSImage.saveNamespace`): ends the segment in progress, publishes the image of its last
/// id in each live directory, begins the next segment, and purges. Answers that id.
///
/// The version is what VERSION of each live directory says. Each piece of the image goes out as it is made: beside the tree it
/// takes the memory of one message and of 65,536 bytes, and then that of the names of one directory. A directory in which a call fails is dropped, and the rest goes on ahead
/// of it. After `Memory` the directories are as after a stop, and a segment may be in progress or not.
pub fn checkpoint<H: Host, T: Tree>(
    alloc: Global,
    host: &mut H,
    journal: &mut JournalSet,
    tree: &T,
    version: &Version,
) -> Result<Txid, RunFault>
    requires below { (j : ℕ) → has journal.old.live j ≡ true → j < (H.state host.old).count }
    requires going { journal.old.going ≡ true }
    requires empty { journal.old.buffer.items ≡ [] }
    requires fit { IsFit journal.old }
    requires ids { journal.old.last + 128 < 2 ^ 63 }
    requires imaged { IsImaged (T.meaning tree.now) }
    ensures checkpoints { Checkpoints H.told version.now (T.meaning tree.now) journal.old journal.new (H.state host.old) (H.state host.new) result }
    ensures above { IfOk result (λ id. (journal.old.last < id) × (id < journal.new.last)) }
    ensures next { journal.new.live ≡ journal.old.live → IfOk result (λ id. (id ≡ journal.old.last + 1) × (journal.new.last ≡ id + 1)) }
    ensures onward { journal.old.last ≤ journal.new.last }
    ensures went { Went H.told journal.old.live journal.new.live (H.state host.old) (H.state host.new) }
    ensures last { journal.new.last + 2 * count_of journal.new.live ≤ journal.old.last + 4 + 2 * count_of journal.old.live }
    ensures left { IsErrOf result RunFault.NoneLeft → (j : ℕ) → has journal.new.live j ≡ false }
    ensures some { OnOk result ((j : ℕ) × (has journal.new.live j ≡ true)) }
    ensures going { OnOk result (journal.new.going ≡ true) }
    ensures kept { (journal.new.holders ≡ journal.old.holders) × (journal.new.header ≡ journal.old.header) × (journal.new.buffer.items ≡ []) × IsFit journal.new }
    ensures below { (j : ℕ) → has journal.new.live j ≡ true → j < (H.state host.new).count }
{
    journal.end_segment(host)?;
    let id = journal.last();
    publish_all(alloc, host, journal, tree, id, version)?;
    journal.start_segment(host)?;
    purge(alloc, host, journal)?;
    Ok(id)
}
