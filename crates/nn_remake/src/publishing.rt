// An image under its name.
ghost use Rattle.std.specs.Prelude.{◌≡◌, ◌<◌, true, false, None, OnOk, IfOk};
ghost use Rattle.nn_base.specs.declared.sub.Sub.TheVariants.{Current};
ghost use Rattle.nn_base.specs.declared.file_name.FileName.TheVariants.{Image};
ghost use Rattle.nn_host.specs.Moments.{disk_at};
ghost use Rattle.nn_host.specs.Calls.{IsCounted};
ghost use Rattle.nn_host.specs.Runs.{OnlyAt};
ghost use Rattle.nn_small.specs.Failure.{EndsByFailure};
ghost use Rattle.nn_tree.specs.Imaged.{IsImaged};
ghost use Rattle.nn_chain.specs.Folder.{folder_at};
ghost use Rattle.nn_chain.specs.Images.{HasIntact, IsUnsound};
ghost use Rattle.nn_remake.specs.Counts.{IsCountedBy};
ghost use Rattle.nn_remake.specs.Publishing.{IsRemoving, IsPublishing, WasRemoved, WasWritten};
ghost use Rattle.nn_remake.specs.Published.{IsPublished, IsOnlyOf, ReadsIntact};
ghost use Rattle.nn_remake.specs.Rank.{IsRanked, ReadsRanked};

use crate::fault::MakeFault;
use crate::staging::{stage, write_digest};
use nn_base::{DirNo, FileName, Sub, Txid};
use nn_chain::{ReadImage, read_image};
use nn_host::{Failed, Host};
use nn_marks::Version;
use nn_tree::Tree;
use std::alloc::Global;

/// Puts the image of the namespace, as of this transaction, into `current`. Where an intact image of this id is there,
/// nothing is done; whatever else stands under its name is replaced.
///
/// The version is what VERSION of the folder says, if it has one. An image that is there is read whole, so that for a while
/// there is a second tree in memory. After an `Err` the old image or the new one may be there, or none. Without `current`
/// there is no place for it: nothing is written, which is no fault.
pub fn publish<H: Host, T: Tree>(
    alloc: Global,
    host: &mut H,
    i: DirNo,
    tree: &T,
    id: Txid,
    version: &Version,
) -> Result<(), MakeFault>
    requires below { i.0 < (H.state host.old).count }
    requires imaged { IsImaged (T.meaning tree.now) }
    ensures ok { H.told → (disk_at (H.state host.old) i.0).has Current ≡ true → OnOk result (IsPublished version.now id (T.meaning tree.now) i.0 (H.state host.old) (H.state host.new)) }
    ensures intact { H.told → (disk_at (H.state host.old) i.0).has Current ≡ true → IsOnlyOf version.now id (T.meaning tree.now) i.0 (H.state host.old) → OnOk result (ReadsIntact version.now id (T.meaning tree.now) i.0 (H.state host.new)) }
    ensures any_moment { OnlyAt H.told i.0 (H.state host.old) (H.state host.new) (IsPublishing version.now id (T.meaning tree.now) (disk_at (H.state host.old) i.0)) }
    ensures rank { OnlyAt H.told i.0 (H.state host.old) (H.state host.new) (IsRanked version.now (record { last = id; ns = T.meaning tree.now }) (disk_at (H.state host.old) i.0)) }
    ensures rank_after { H.told → OnOk result (ReadsRanked version.now (record { last = id; ns = T.meaning tree.now }) i.0 (H.state host.old) (H.state host.new)) }
    ensures cause { IsCountedBy i.0 (H.state host.old) (H.state host.new) result }
{
    if has_intact::<H, T>(alloc, host, i, id, version)? {
        return Ok(());
    }
    replace_image(alloc, host, i, tree, id, version)
}

// Whether an intact image of this id is there.
fn has_intact<H: Host, T: Tree>(
    alloc: Global,
    host: &mut H,
    i: DirNo,
    id: Txid,
    version: &Version,
) -> Result<bool, MakeFault>
    requires below { i.0 < (H.state host.old).count }
    ensures there { H.told → IfOk result (λ has. has ≡ true → HasIntact (folder_at ((H.state host.old).reads i.0) Current) version.now id) }
    ensures unsound { H.told → IfOk result (λ has. has ≡ false → (why : _) × IsUnsound (folder_at ((H.state host.old).reads i.0) Current) version.now id why) }
    ensures kept { H.told → OnOk result ((H.state host.new).reads i.0 ≡ (H.state host.old).reads i.0) }
    ensures any_moment { OnlyAt H.told i.0 (H.state host.old) (H.state host.new) (λ d. d ≡ disk_at (H.state host.old) i.0) }
    ensures cause { IsCountedBy i.0 (H.state host.old) (H.state host.new) result }
{
    match read_image::<H, T>(alloc, host, i, Sub::Current, id, version) {
        Ok(_) => Ok(true),
        Err(ReadImage::Unsound(_)) => Ok(false),
        Err(ReadImage::Failed) => Err(MakeFault::Failed),
        Err(ReadImage::Memory) => Err(MakeFault::Memory),
    }
}

/// Puts the image of the namespace, as of this transaction, into `current`, in place of whatever stands under its name.
///
/// Nothing is read. The version is what VERSION of the folder says. After an `Err` the image may be there, or none. Without
/// `current` there is no place for it: nothing is written, which is no fault.
pub fn replace_image<H: Host, T: Tree>(
    alloc: Global,
    host: &mut H,
    i: DirNo,
    tree: &T,
    id: Txid,
    version: &Version,
) -> Result<(), MakeFault>
    requires below { i.0 < (H.state host.old).count }
    requires imaged { IsImaged (T.meaning tree.now) }
    ensures ok { H.told → (disk_at (H.state host.old) i.0).has Current ≡ true → OnOk result (WasWritten version.now id (T.meaning tree.now) i.0 (H.state host.old) (H.state host.new)) }
    ensures any_moment { OnlyAt H.told i.0 (H.state host.old) (H.state host.new) (IsPublishing version.now id (T.meaning tree.now) (disk_at (H.state host.old) i.0)) }
    ensures still { EndsByFailure H.told i.0 (H.state host.old) (H.state host.new) }
    ensures cause { IsCountedBy i.0 (H.state host.old) (H.state host.new) result }
{
    remove_image(host, i, id)?;
    write_image(alloc, host, i, tree, id, version)
}

// The image goes first: without it its MD5 file stands for nothing.
fn remove_image<H: Host>(host: &mut H, i: DirNo, id: Txid) -> Result<(), Failed>
    requires below { i.0 < (H.state host.old).count }
    ensures ok { H.told → OnOk result (WasRemoved id i.0 (H.state host.old) (H.state host.new)) }
    ensures any_moment { OnlyAt H.told i.0 (H.state host.old) (H.state host.new) (IsRemoving id (disk_at (H.state host.old) i.0)) }
    ensures still { EndsByFailure H.told i.0 (H.state host.old) (H.state host.new) }
    ensures cause { IsCounted i.0 (H.state host.old) (H.state host.new) result }
{
    host.remove_file(i, Sub::Current, FileName::Image(id))?;
    host.remove_file(i, Sub::Current, FileName::Md5(id))
}

/// Writes the image and its MD5 file where there is no image of this id.
pub fn write_image<H: Host, T: Tree>(
    alloc: Global,
    host: &mut H,
    i: DirNo,
    tree: &T,
    id: Txid,
    version: &Version,
) -> Result<(), MakeFault>
    requires below { i.0 < (H.state host.old).count }
    requires none { H.told → (disk_at (H.state host.old) i.0).file Current (Image id) ≡ None }
    requires imaged { IsImaged (T.meaning tree.now) }
    ensures ok { H.told → (disk_at (H.state host.old) i.0).has Current ≡ true → OnOk result (WasWritten version.now id (T.meaning tree.now) i.0 (H.state host.old) (H.state host.new)) }
    ensures any_moment { OnlyAt H.told i.0 (H.state host.old) (H.state host.new) (IsPublishing version.now id (T.meaning tree.now) (disk_at (H.state host.old) i.0)) }
    ensures still { EndsByFailure H.told i.0 (H.state host.old) (H.state host.new) }
    ensures cause { IsCountedBy i.0 (H.state host.old) (H.state host.new) result }
{
    let digest = stage(alloc, host, i, tree, id, version)?;
    write_digest(host, i, id, &digest)?;
    // The image gets its name only after its sync: a name stands for whole bytes.
    host.rename_file(i, Sub::Current, FileName::Ckpt(id), FileName::Image(id))?;
    Ok(())
}
