// A directory as it is made.
ghost use Rattle.std.specs.Prelude.{◌≡◌, ◌<◌, true, None, OnOk, IfOk};
ghost use Rattle.nn_base.specs.declared.sub.Sub.TheVariants.{Current};
ghost use Rattle.nn_base.specs.declared.file_name.FileName.TheVariants.{Seen, SeenTmp};
ghost use Rattle.nn_host.specs.Moments.{disk_at};
ghost use Rattle.nn_host.specs.Calls.{IsCounted};
ghost use Rattle.nn_host.specs.Runs.{OnlyAt};
ghost use Rattle.nn_small.specs.Small.{OldOrNew, Written};
ghost use Rattle.nn_marks.specs.Seen.{seen_text_of};
ghost use Rattle.nn_tree.specs.Imaged.{IsImaged};
ghost use Rattle.nn_remake.specs.Counts.{IsCountedBy};
ghost use Rattle.nn_remake.specs.Made.{IsBare, FreshOrMade, WasMade, FreshOrMadeIsLeft};

use crate::fault::MakeFault;
use crate::publishing::write_image;
use nn_base::{DirNo, FileName, Sub, Txid};
use nn_host::{Failed, Host};
use nn_marks::{Version, seen_text, version_text};
use nn_small::write_small;
use nn_state::{Fresh, Ready};
use nn_tree::Tree;
use std::alloc::Global;

/// Makes a directory without any subfolder one that serves: with VERSION, `seen_txid` and the image of the namespace, as of
/// this transaction.
///
/// VERSION comes last: it alone makes the directory formatted, so by then all else stands.
pub fn make<H: Host, T: Tree>(
    alloc: Global,
    host: &mut H,
    at: Fresh,
    tree: &T,
    id: Txid,
    version: &Version,
) -> Result<Ready, MakeFault>
    requires below { at.dir.0 < (H.state host.old).count }
    requires bare { H.told → IsBare (disk_at (H.state host.old) at.dir.0) }
    requires imaged { IsImaged (T.meaning tree.now) }
    ensures ok { H.told → OnOk result (WasMade version.now id (T.meaning tree.now) at.dir.0 (H.state host.new)) }
    ensures dir { IfOk result (λ ready. ready.dir ≡ at.dir) }
    ensures any_moment { OnlyAt H.told at.dir.0 (H.state host.old) (H.state host.new) (FreshOrMade version.now id (T.meaning tree.now)) }
    ensures left { FreshOrMadeIsLeft version.now id (T.meaning tree.now) }
    ensures cause { IsCountedBy at.dir.0 (H.state host.old) (H.state host.new) result }
{
    let text = version_text(alloc, version)?;
    host.make_sub(at.dir, Sub::Current)?;
    write_image(alloc, host, at.dir, tree, id, version)?;
    write_seen(host, at.dir, id)?;
    write_small(
        host,
        at.dir,
        Sub::Current,
        FileName::VersionTmp,
        FileName::Version,
        &text,
    )?;
    Ok(Ready { dir: at.dir })
}

fn write_seen<H: Host>(host: &mut H, i: DirNo, id: Txid) -> Result<(), Failed>
    requires below { i.0 < (H.state host.old).count }
    ensures ok { H.told → (disk_at (H.state host.old) i.0).has Current ≡ true → OnOk result (Written i.0 Current SeenTmp Seen (seen_text_of id) (H.state host.old) (H.state host.new)) }
    ensures any_moment { OnlyAt H.told i.0 (H.state host.old) (H.state host.new) (OldOrNew Current SeenTmp Seen (seen_text_of id) (disk_at (H.state host.old) i.0)) }
    ensures cause { IsCounted i.0 (H.state host.old) (H.state host.new) result }
{
    let mut digits = [0; 20];
    let len = seen_text(id, &mut digits);
    write_small(
        host,
        i,
        Sub::Current,
        FileName::SeenTmp,
        FileName::Seen,
        &digits[..len],
    )
}
