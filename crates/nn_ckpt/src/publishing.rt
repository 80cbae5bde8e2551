// The image of a namespace, published in all live directories.
ghost use Rattle.std.specs.Prelude.{◌≡◌, ◌+◌, ◌*◌, ◌<◌, ◌≤◌, ◌^◌, ℕ, true, false, [], OnOk, IsErrOf};
ghost use Rattle.nn_base.specs.DirSets.{has, count_of};
ghost use Rattle.nn_tree.specs.Imaged.{IsImaged};
ghost use Rattle.nn_journal.specs.Places.{IsFit, Went};
ghost use Rattle.nn_ckpt.specs.Each.{DoneEach};
ghost use Rattle.nn_ckpt.specs.Checkpointed.{IsPublishingOf, HasPublished, Publishes};

use crate::dropping::drop_failed;
use crate::fault::RunFault;
use nn_base::{DirNo, DirSet, NoMemory, Txid};
use nn_host::Host;
use nn_journal::JournalSet;
use nn_marks::Version;
use nn_remake::{MakeFault, replace_image};
use nn_tree::Tree;
use std::alloc::Global;

/// Publishes the image of the namespace, as of this id, in each live directory, while no segment is in progress. One in which a
/// call fails is dropped once the others have their image, and a segment is begun and ended in those.
pub(crate) fn publish_all<H: Host, T: Tree>(
    alloc: Global,
    host: &mut H,
    journal: &mut JournalSet,
    tree: &T,
    id: Txid,
    version: &Version,
) -> Result<(), RunFault>
    requires below { (j : ℕ) → has journal.old.live j ≡ true → j < (H.state host.old).count }
    requires going { journal.old.going ≡ false }
    requires empty { journal.old.buffer.items ≡ [] }
    requires fit { IsFit journal.old }
    requires ids { journal.old.last + 64 < 2 ^ 63 }
    requires imaged { IsImaged (T.meaning tree.now) }
    ensures publishes { Publishes H.told version.now id (T.meaning tree.now) journal.old journal.new (H.state host.old) (H.state host.new) result }
    ensures went { Went H.told journal.old.live journal.new.live (H.state host.old) (H.state host.new) }
    ensures onward { journal.old.last ≤ journal.new.last }
    ensures last { journal.new.last + 2 * count_of journal.new.live ≤ journal.old.last + 2 * count_of journal.old.live }
    ensures left { IsErrOf result RunFault.NoneLeft → (j : ℕ) → has journal.new.live j ≡ false }
    ensures kept { (journal.new.holders ≡ journal.old.holders) × (journal.new.header ≡ journal.old.header) × (journal.new.going ≡ false) × (journal.new.buffer.items ≡ []) × IsFit journal.new }
    ensures below { (j : ℕ) → has journal.new.live j ≡ true → j < (H.state host.new).count }
{
    let mut failed = DirSet::none();
    let done = publish_each(alloc, host, journal, tree, id, version, &mut failed);
    drop_failed(host, journal, failed)?;
    match done {
        Ok(()) => Ok(()),
        Err(NoMemory) => Err(RunFault::Memory),
    }
}

// Publishes the image in each live directory, in order, and tells in which of them a call failed.
fn publish_each<H: Host, T: Tree>(
    alloc: Global,
    host: &mut H,
    journal: &JournalSet,
    tree: &T,
    id: Txid,
    version: &Version,
    failed: &mut DirSet,
) -> Result<(), NoMemory>
    requires below { (j : ℕ) → has journal.now.live j ≡ true → j < (H.state host.old).count }
    requires none { (j : ℕ) → has failed.old j ≡ false }
    requires imaged { IsImaged (T.meaning tree.now) }
    ensures each { DoneEach H.told (IsPublishingOf version.now id (T.meaning tree.now)) journal.now.live failed.new (H.state host.old) (H.state host.new) }
    ensures done { H.told → OnOk result ((j : ℕ) → has journal.now.live j ≡ true → has failed.new j ≡ false → HasPublished version.now id (T.meaning tree.now) j (H.state host.old) (H.state host.new)) }
{
    for i in 0..8u8 {
        let dir = DirNo(i);
        if journal.live(dir) {
            match replace_image(alloc, host, dir, tree, id, version) {
                Ok(()) => {}
                Err(MakeFault::Failed) => *failed = failed.with(dir),
                Err(MakeFault::Memory) => return Err(NoMemory),
            }
        }
    }
    Ok(())
}
