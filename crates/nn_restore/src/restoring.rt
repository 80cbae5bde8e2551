// A dropped directory that is taken back.
ghost use Rattle.std.specs.Prelude.{◌≡◌, ◌≢◌, ◌⊎◌, ◌+◌, ◌*◌, ◌<◌, ◌≤◌, ◌^◌, ℕ, true, false, [], Ok, OnOk, IsErrOf};
ghost use Rattle.nn_base.specs.DirSets.{has, count_of};
ghost use Rattle.nn_host.specs.Moments.{disk_at};
ghost use Rattle.nn_state.specs.declared.state.StorageState.TheVariants as storage;
ghost use Rattle.nn_state.specs.Typed.{state_of, dir_of, FitsFound};
ghost use Rattle.nn_tree.specs.Imaged.{IsImaged};
ghost use Rattle.nn_remake.specs.Made.{IsBare};
ghost use Rattle.nn_journal.specs.Places.{IsFit};
ghost use Rattle.nn_restore.specs.Making.{MakesIn};
ghost use Rattle.nn_restore.specs.Restored.{Restores, IsCountedOf, IsRefused, IsRestorable};

use crate::emptying::{Unfit, empty, find};
use nn_base::{DirNo, NoMemory};
use nn_ckpt::RunFault;
use nn_host::{Failed, Host};
use nn_journal::JournalSet;
use nn_marks::Version;
use nn_remake::{MakeFault, make};
use nn_state::{Found, Fresh};
use nn_tree::Tree;
use std::alloc::Global;

/// What came of a restoration.
#[derive(Clone, Copy, Debug, PartialEq, Eq)]
pub enum Restored {
    /// The directory is live.
    TakenBack,
    /// It has no usable root. It wasn't changed.
    Missing,
    /// The table of states calls it inconsistent. It wasn't changed.
    Inconsistent,
    /// A call on it failed, and it stays dropped.
    Failed,
}

/// Takes back a dropped directory (HDFS's `NNStorage.attemptRestoreRemovedStorage`): it is recovered and cleared, made with the image of the
/// namespace and this version, and written to with the others from the next segment on. It has no saved state then, and is no holder. One
/// that is live stays as it is, and nothing is called.
///
/// The version is what VERSION of each live directory says. Where a call on the directory fails it stays dropped, and where the
/// segment in progress was ended by then, the next is begun in the others. After `Memory` the directories are as after a stop, and no
/// segment is in progress.
pub fn restore<H: Host, T: Tree>(
    alloc: Global,
    host: &mut H,
    journal: &mut JournalSet,
    tree: &T,
    version: &Version,
    i: DirNo,
) -> Result<Restored, RunFault>
    requires below { (j : ℕ) → has journal.old.live j ≡ true → j < (H.state host.old).count }
    requires dir { (i.0 < 8) × (i.0 < (H.state host.old).count) }
    requires going { journal.old.going ≡ true }
    requires empty { journal.old.buffer.items ≡ [] }
    requires fit { IsFit journal.old }
    requires ids { journal.old.last + 128 < 2 ^ 63 }
    requires imaged { IsImaged (T.meaning tree.now) }
    ensures restores { Restores H.told version.now (T.meaning tree.now) i.0 journal.old journal.new (H.state host.old) (H.state host.new) result }
    ensures counted { IsCountedOf H.told i.0 journal.old.live journal.new.live (H.state host.old) (H.state host.new) result }
    ensures refused { H.told → IsRefused i.0 journal.old.live (H.state host.old) result }
    ensures idle { has journal.old.live i.0 ≡ true → (result ≡ Ok Restored.TakenBack) × (journal.new ≡ journal.old) × (H.state host.new ≡ H.state host.old) }
    ensures same { (result ≡ Ok Restored.Missing) ⊎ (result ≡ Ok Restored.Inconsistent) → journal.new ≡ journal.old }
    ensures onward { journal.old.last ≤ journal.new.last }
    ensures last { journal.new.last + 2 * count_of journal.new.live ≤ journal.old.last + 6 + 2 * count_of journal.old.live }
    ensures left { IsErrOf result RunFault.NoneLeft → (j : ℕ) → has journal.new.live j ≡ false }
    ensures some { OnOk result ((j : ℕ) × (has journal.old.live j ≡ true) → (j : ℕ) × (has journal.new.live j ≡ true)) }
    ensures going { OnOk result (journal.new.going ≡ true) }
    ensures holders { (j : ℕ) → (has journal.new.holders j ≡ has journal.old.holders j) ⊎ ((j ≡ i.0) × (has journal.new.holders j ≡ false)) }
    ensures kept { (journal.new.header ≡ journal.old.header) × (journal.new.buffer.items ≡ []) × IsFit journal.new }
    ensures below { (j : ℕ) → has journal.new.live j ≡ true → j < (H.state host.new).count }
{
    if journal.live(i) {
        return Ok(Restored::TakenBack);
    }
    match find(host, i) {
        Ok(state) => restore_found(alloc, host, journal, tree, version, i, state),
        Err(Unfit::Missing) => Ok(Restored::Missing),
        Err(Unfit::Inconsistent) => Ok(Restored::Inconsistent),
        Err(Unfit::Failed) => Ok(Restored::Failed),
    }
}

// The same of one that isn't live, and for which the table has a state.
fn restore_found<H: Host, T: Tree>(
    alloc: Global,
    host: &mut H,
    journal: &mut JournalSet,
    tree: &T,
    version: &Version,
    i: DirNo,
    state: Found,
) -> Result<Restored, RunFault>
    requires below { (j : ℕ) → has journal.old.live j ≡ true → j < (H.state host.old).count }
    requires dir { (i.0 < 8) × (i.0 < (H.state host.old).count) }
    requires going { journal.old.going ≡ true }
    requires empty { journal.old.buffer.items ≡ [] }
    requires fit { IsFit journal.old }
    requires ids { journal.old.last + 128 < 2 ^ 63 }
    requires imaged { IsImaged (T.meaning tree.now) }
    requires out { has journal.old.live i.0 ≡ false }
    requires its { dir_of state ≡ i }
    requires there { state_of state ≢ storage.NonExistent }
    requires fits { H.told → FitsFound state (disk_at (H.state host.old) i.0) }
    ensures restores { Restores H.told version.now (T.meaning tree.now) i.0 journal.old journal.new (H.state host.old) (H.state host.new) result }
    ensures counted { IsCountedOf H.told i.0 journal.old.live journal.new.live (H.state host.old) (H.state host.new) result }
    ensures restorable { IsRestorable result }
    ensures onward { journal.old.last ≤ journal.new.last }
    ensures last { journal.new.last + 2 * count_of journal.new.live ≤ journal.old.last + 6 + 2 * count_of journal.old.live }
    ensures left { IsErrOf result RunFault.NoneLeft → (j : ℕ) → has journal.new.live j ≡ false }
    ensures some { OnOk result ((j : ℕ) × (has journal.old.live j ≡ true) → (j : ℕ) × (has journal.new.live j ≡ true)) }
    ensures going { OnOk result (journal.new.going ≡ true) }
    ensures holders { (j : ℕ) → (has journal.new.holders j ≡ has journal.old.holders j) ⊎ ((j ≡ i.0) × (has journal.new.holders j ≡ false)) }
    ensures kept { (journal.new.header ≡ journal.old.header) × (journal.new.buffer.items ≡ []) × IsFit journal.new }
    ensures below { (j : ℕ) → has journal.new.live j ≡ true → j < (H.state host.new).count }
{
    match empty(host, i, state) {
        Ok(fresh) => take_back(alloc, host, journal, tree, version, fresh),
        Err(Failed) => Ok(Restored::Failed),
    }
}

// Makes an empty directory at the end of the segment in progress, and goes on with it; or without it, where a call on it fails.
fn take_back<H: Host, T: Tree>(
    alloc: Global,
    host: &mut H,
    journal: &mut JournalSet,
    tree: &T,
    version: &Version,
    fresh: Fresh,
) -> Result<Restored, RunFault>
    requires below { (j : ℕ) → has journal.old.live j ≡ true → j < (H.state host.old).count }
    requires dir { (fresh.dir.0 < 8) × (fresh.dir.0 < (H.state host.old).count) }
    requires going { journal.old.going ≡ true }
    requires empty { journal.old.buffer.items ≡ [] }
    requires fit { IsFit journal.old }
    requires ids { journal.old.last + 128 < 2 ^ 63 }
    requires imaged { IsImaged (T.meaning tree.now) }
    requires out { has journal.old.live fresh.dir.0 ≡ false }
    requires bare { H.told → IsBare (disk_at (H.state host.old) fresh.dir.0) }
    ensures restores { Restores H.told version.now (T.meaning tree.now) fresh.dir.0 journal.old journal.new (H.state host.old) (H.state host.new) result }
    ensures counted { IsCountedOf H.told fresh.dir.0 journal.old.live journal.new.live (H.state host.old) (H.state host.new) result }
    ensures restorable { IsRestorable result }
    ensures onward { journal.old.last ≤ journal.new.last }
    ensures last { journal.new.last + 2 * count_of journal.new.live ≤ journal.old.last + 6 + 2 * count_of journal.old.live }
    ensures left { IsErrOf result RunFault.NoneLeft → (j : ℕ) → has journal.new.live j ≡ false }
    ensures some { OnOk result ((j : ℕ) × (has journal.new.live j ≡ true)) }
    ensures going { OnOk result (journal.new.going ≡ true) }
    ensures holders { (j : ℕ) → (has journal.new.holders j ≡ has journal.old.holders j) ⊎ ((j ≡ fresh.dir.0) × (has journal.new.holders j ≡ false)) }
    ensures kept { (journal.new.header ≡ journal.old.header) × (journal.new.buffer.items ≡ []) × IsFit journal.new }
    ensures below { (j : ℕ) → has journal.new.live j ≡ true → j < (H.state host.new).count }
{
    let dir = fresh.dir;
    journal.end_segment(host)?;
    make_back(alloc, host, journal, tree, version, fresh)?;
    journal.start_segment(host)?;
    if journal.live(dir) {
        Ok(Restored::TakenBack)
    } else {
        Ok(Restored::Failed)
    }
}

// Makes it at the last id, and takes it back if that was done.
fn make_back<H: Host, T: Tree>(
    alloc: Global,
    host: &mut H,
    journal: &mut JournalSet,
    tree: &T,
    version: &Version,
    fresh: Fresh,
) -> Result<(), NoMemory>
    requires dir { (fresh.dir.0 < 8) × (fresh.dir.0 < (H.state host.old).count) }
    requires imaged { IsImaged (T.meaning tree.now) }
    requires out { has journal.old.live fresh.dir.0 ≡ false }
    requires bare { H.told → IsBare (disk_at (H.state host.old) fresh.dir.0) }
    ensures makes { MakesIn H.told version.now (T.meaning tree.now) fresh.dir.0 journal.old journal.new (H.state host.old) (H.state host.new) result }
{
    let dir = fresh.dir;
    match make(alloc, host, fresh, tree, journal.last(), version) {
        Ok(_) => {
            journal.take_back(dir);
            Ok(())
        }
        Err(MakeFault::Failed) => Ok(()),
        Err(MakeFault::Memory) => Err(NoMemory),
    }
}
