// An image before it has its name.
ghost use Rattle.std.specs.Prelude.{◌≡◌, ◌<◌, true, OnOk, IfOk};
ghost use Rattle.md5.specs.Md5.{md5};
ghost use Rattle.nn_base.specs.declared.sub.Sub.TheVariants.{Current};
ghost use Rattle.nn_base.specs.declared.file_name.FileName.TheVariants.{Ckpt, Md5 as Md5File, Md5Tmp};
ghost use Rattle.nn_host.specs.Moments.{disk_at};
ghost use Rattle.nn_host.specs.Calls.{IsCounted};
ghost use Rattle.nn_host.specs.Runs.{OnlyAt};
ghost use Rattle.nn_small.specs.Failure.{EndsByFailure};
ghost use Rattle.nn_marks.specs.Digest.{md5_text_of};
ghost use Rattle.nn_small.specs.Small.{OldOrNew, Written};
ghost use Rattle.nn_tree.specs.Imaged.{IsImaged};
ghost use Rattle.nn_image.specs.Saving.{Saves, left};
ghost use Rattle.nn_remake.specs.Counts.{IsCountedBy};
ghost use Rattle.nn_remake.specs.Publishing.{BesideFile, IsImageUnder, WasFilled, WasStaged, image_under};

use crate::fault::MakeFault;
use md5::{Digest, Md5};
use nn_base::{DirNo, FileName, Sub, Txid};
use nn_host::{Failed, Host};
use nn_image::{Saver, save};
use nn_marks::{Version, md5_text};
use nn_small::write_small;
use nn_tree::Tree;
use std::alloc::Global;

/// Writes the image of the namespace under the name that it has on the way, and answers its digest.
pub fn stage<H: Host, T: Tree>(
    alloc: Global,
    host: &mut H,
    i: DirNo,
    tree: &T,
    id: Txid,
    version: &Version,
) -> Result<[u8; 16], MakeFault>
    requires below { i.0 < (H.state host.old).count }
    requires imaged { IsImaged (T.meaning tree.now) }
    ensures image { OnOk result (IsImageUnder version.now id (T.meaning tree.now) (image_under version.now id (T.meaning tree.now))) }
    ensures digest { IfOk result (λ digest. digest ≡ md5 (image_under version.now id (T.meaning tree.now))) }
    ensures ok { H.told → (disk_at (H.state host.old) i.0).has Current ≡ true → OnOk result (WasStaged id (image_under version.now id (T.meaning tree.now)) i.0 (H.state host.old) (H.state host.new)) }
    ensures any_moment { OnlyAt H.told i.0 (H.state host.old) (H.state host.new) (BesideFile (Ckpt id) (disk_at (H.state host.old) i.0)) }
    ensures still { EndsByFailure H.told i.0 (H.state host.old) (H.state host.new) }
    ensures cause { IsCountedBy i.0 (H.state host.old) (H.state host.new) result }
{
    let mut saver = save(alloc, tree, id, version.namespace, version.layout)?;
    let digest = fill(alloc, host, i, tree, id, &mut saver)?;
    host.sync(i, Sub::Current, FileName::Ckpt(id))?;
    Ok(digest)
}

// The image, piece by piece: each is written and added to the digest while it is there.
fn fill<H: Host, T: Tree>(
    alloc: Global,
    host: &mut H,
    i: DirNo,
    tree: &T,
    id: Txid,
    saver: &mut Saver,
) -> Result<[u8; 16], MakeFault>
    requires below { i.0 < (H.state host.old).count }
    requires saves { Saves saver.old (T.meaning tree.now) (T.has tree.now) (T.place tree.now) }
    ensures digest { IfOk result (λ digest. digest ≡ md5 (left saver.old (T.meaning tree.now) (T.has tree.now) (T.place tree.now))) }
    ensures ok { H.told → (disk_at (H.state host.old) i.0).has Current ≡ true → OnOk result (WasFilled id (left saver.old (T.meaning tree.now) (T.has tree.now) (T.place tree.now)) i.0 (H.state host.old) (H.state host.new)) }
    ensures any_moment { OnlyAt H.told i.0 (H.state host.old) (H.state host.new) (BesideFile (Ckpt id) (disk_at (H.state host.old) i.0)) }
    ensures still { EndsByFailure H.told i.0 (H.state host.old) (H.state host.new) }
    ensures cause { IsCountedBy i.0 (H.state host.old) (H.state host.new) result }
{
    host.make_file(i, Sub::Current, FileName::Ckpt(id))?;
    let mut hasher = Md5::new();
    let mut piece = Vec::new(alloc);
    'piece: while saver.next(tree, &mut piece)? {
        hasher.update(&piece);
        host.append(i, Sub::Current, FileName::Ckpt(id), &piece)?;
    }
    Ok(hasher.finalize())
}

/// Writes the MD5 file of an image of this digest.
pub fn write_digest<H: Host>(
    host: &mut H,
    i: DirNo,
    id: Txid,
    digest: &[u8; 16],
) -> Result<(), Failed>
    requires below { i.0 < (H.state host.old).count }
    ensures ok { H.told → (disk_at (H.state host.old) i.0).has Current ≡ true → OnOk result (Written i.0 Current (Md5Tmp id) (Md5File id) (md5_text_of digest.now id) (H.state host.old) (H.state host.new)) }
    ensures any_moment { OnlyAt H.told i.0 (H.state host.old) (H.state host.new) (OldOrNew Current (Md5Tmp id) (Md5File id) (md5_text_of digest.now id) (disk_at (H.state host.old) i.0)) }
    ensures still { EndsByFailure H.told i.0 (H.state host.old) (H.state host.new) }
    ensures cause { IsCounted i.0 (H.state host.old) (H.state host.new) result }
{
    let mut text = [0; 80];
    let len = md5_text(digest, id, &mut text);
    write_small(
        host,
        i,
        Sub::Current,
        FileName::Md5Tmp(id),
        FileName::Md5(id),
        &text[..len],
    )
}
