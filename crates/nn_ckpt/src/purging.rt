// The images and segments that no longer count, purged from all live directories.
ghost use Rattle.std.specs.Prelude.{◌≡◌, ◌+◌, ◌*◌, ◌<◌, ◌≤◌, ◌^◌, ℕ, true, false, [], OnOk, IsErrOf};
ghost use Rattle.nn_base.specs.DirSets.{has, count_of};
ghost use Rattle.nn_base.specs.declared.sub.Sub.TheVariants.{Current};
ghost use Rattle.nn_host.specs.Moments.{disk_at};
ghost use Rattle.nn_host.specs.Runs.{OnlyAt};
ghost use Rattle.nn_small.specs.Failure.{EndsByFailure};
ghost use Rattle.nn_chain.specs.Folder.{folder_at};
ghost use Rattle.nn_journal.specs.Places.{IsFit, Went};
ghost use Rattle.nn_remake.specs.Counts.{IsCountedBy};
ghost use Rattle.nn_ckpt.specs.Each.{DoneEach};
ghost use Rattle.nn_ckpt.specs.Retention.{IsPurging, WasPurged, IsPruned};
ghost use Rattle.nn_ckpt.specs.Checkpointed.{Purges, IsPurgingOf};

use crate::dropping::drop_failed;
use crate::fault::RunFault;
use crate::retention::going_among;
use nn_base::{DirNo, DirSet, NoMemory};
use nn_host::Host;
use nn_journal::JournalSet;
use nn_remake::{MakeFault, names_of, remove_from_end};
use std::alloc::Global;

/// Purges each live directory (HDFS's `NNStorageRetentionManager` that retains two images): the two images of greatest id stay, and
/// all other images go, with their MD5 files, each MD5 file without an image, each image on the way, and where two images are
/// left each finalized segment that ends at or before the older one's id. No other file is touched but the log's.
///
/// A directory in which a call fails is dropped, and the journal rolls in the others; where none is, no id is given. After `Memory`
/// some of the directories are purged. What is said of each moment asks for an id that was given, as it is in any run.
pub fn purge<H: Host>(alloc: Global, host: &mut H, journal: &mut JournalSet) -> Result<(), RunFault>
    requires below { (j : ℕ) → has journal.old.live j ≡ true → j < (H.state host.old).count }
    requires empty { journal.old.buffer.items ≡ [] }
    requires fit { IsFit journal.old }
    requires ids { journal.old.last + 64 < 2 ^ 63 }
    ensures purges { Purges H.told journal.old journal.new (H.state host.old) (H.state host.new) result }
    ensures exact { H.told → journal.new.last ≡ journal.old.last → OnOk result ((j : ℕ) → has journal.new.live j ≡ true → WasPurged j (H.state host.old) (H.state host.new)) }
    ensures went { Went H.told journal.old.live journal.new.live (H.state host.old) (H.state host.new) }
    ensures onward { journal.old.last ≤ journal.new.last }
    ensures last { journal.new.last + 2 * count_of journal.new.live ≤ journal.old.last + 2 * count_of journal.old.live }
    ensures left { IsErrOf result RunFault.NoneLeft → (j : ℕ) → has journal.new.live j ≡ false }
    ensures some { OnOk result ((j : ℕ) × (has journal.old.live j ≡ true) → (j : ℕ) × (has journal.new.live j ≡ true)) }
    ensures kept { (journal.new.holders ≡ journal.old.holders) × (journal.new.header ≡ journal.old.header) × (journal.new.going ≡ journal.old.going) × (journal.new.buffer.items ≡ []) × IsFit journal.new }
    ensures below { (j : ℕ) → has journal.new.live j ≡ true → j < (H.state host.new).count }
{
    let mut failed = DirSet::none();
    let done = purge_each(alloc, host, journal, &mut failed);
    drop_failed(host, journal, failed)?;
    match done {
        Ok(()) => Ok(()),
        Err(NoMemory) => Err(RunFault::Memory),
    }
}

// Purges each live directory, in order, and tells in which of them a call failed.
fn purge_each<H: Host>(
    alloc: Global,
    host: &mut H,
    journal: &JournalSet,
    failed: &mut DirSet,
) -> Result<(), NoMemory>
    requires below { (j : ℕ) → has journal.now.live j ≡ true → j < (H.state host.old).count }
    requires none { (j : ℕ) → has failed.old j ≡ false }
    ensures each { DoneEach H.told IsPurgingOf journal.now.live failed.new (H.state host.old) (H.state host.new) }
    ensures done { H.told → OnOk result ((j : ℕ) → has journal.now.live j ≡ true → has failed.new j ≡ false → WasPurged j (H.state host.old) (H.state host.new)) }
{
    for i in 0..8u8 {
        let dir = DirNo(i);
        if journal.live(dir) {
            match purge_dir(alloc, host, dir) {
                Ok(()) => {}
                Err(MakeFault::Failed) => *failed = failed.with(dir),
                Err(MakeFault::Memory) => return Err(NoMemory),
            }
        }
    }
    Ok(())
}

/// Purges one directory. What goes is settled before the first file goes, so after `Memory` nothing has changed.
pub(crate) fn purge_dir<H: Host>(alloc: Global, host: &mut H, i: DirNo) -> Result<(), MakeFault>
    requires below { i.0 < (H.state host.old).count }
    ensures ok { H.told → OnOk result (WasPurged i.0 (H.state host.old) (H.state host.new)) }
    ensures any_moment { OnlyAt H.told i.0 (H.state host.old) (H.state host.new) (IsPurging (folder_at ((H.state host.old).reads i.0) Current) (disk_at (H.state host.old) i.0)) }
    ensures memory { H.told → IsErrOf result MakeFault.Memory → disk_at (H.state host.new) i.0 ≡ disk_at (H.state host.old) i.0 }
    ensures still { EndsByFailure H.told i.0 (H.state host.old) (H.state host.new) }
    ensures cause { IsCountedBy i.0 (H.state host.old) (H.state host.new) result }
{
    let names = names_of(alloc, host, i)?;
    let going = going_among(alloc, &names)?;
    // The last ones first: images stand behind segments, in byte order of names.
    remove_from_end(host, i, going)?;
    Ok(())
}
