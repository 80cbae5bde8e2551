// Loading a folder.
ghost use Rattle.std.specs.Prelude.{◌≡◌, ◌≢◌, ◌<◌, IfOk, IfErr};
ghost use Rattle.nn_host.specs.Moments.{disk_at};
ghost use Rattle.nn_host.specs.Runs.{OnlyAt, Looked};
ghost use Rattle.nn_tree.specs.Imaged.{IsImaged};
ghost use Rattle.nn_chain.specs.Folder.{folder_at};
ghost use Rattle.nn_chain.specs.Chain.{IsChain};
ghost use Rattle.nn_load.specs.Loading.{answered_chain, IsUnchained};

use crate::ChainFault;
use crate::chain::replay_segments;
use crate::newest::newest_image;
use crate::segment::Place;
use nn_base::{DirNo, Sub};
use nn_chain::ImageWhy;
use nn_host::Host;
use nn_image::{ImageFault, Loaded};
use nn_marks::Version;
use nn_tree::Tree;
use std::alloc::Global;

/// Reads the chain of a folder whose VERSION says `version`: its newest intact image, with the records of its segments
/// replayed over it, up to the first that is missing or doesn't fit. The id that is answered is that of the last record.
/// Nothing is changed. As Hadoop's `FSImage.loadFSImage` does, but that a record that doesn't fit ends the chain.
///
/// The folder is listed once, and each file is read once at most. One file at a time is in memory, and beside it a segment
/// in progress where finalized ones begin in its midst. A segment of more than 2^30 bytes counts as empty, and isn't read.
pub fn load_dir<H: Host, T: Tree>(
    alloc: Global,
    host: &mut H,
    i: DirNo,
    sub: Sub,
    version: &Version,
) -> Result<Loaded<T>, ChainFault>
    requires { i.0 < (H.state host.old).count }
    ensures ok { H.told → IfOk result (λ it. IsChain (folder_at ((H.state host.old).reads i.0) sub) version.now (record { last = it.id; ns = T.meaning it.tree })) }
    ensures imaged { IfOk result (λ it. IsImaged (T.meaning it.tree)) }
    ensures named { IfOk result (λ it. it.namespace ≡ version.now.namespace) }
    ensures none { H.told → IfErr result (λ fault. IsUnchained (folder_at ((H.state host.old).reads i.0) sub) version.now fault) }
    ensures memory { IfErr result (λ fault. fault ≢ ChainFault.NoImage (ImageWhy.Fault ImageFault.Memory)) }
    ensures kept { Looked H.told i.0 (H.state host.old) (H.state host.new) (answered_chain result) }
    ensures any_moment { OnlyAt H.told i.0 (H.state host.old) (H.state host.new) (λ d. d ≡ disk_at (H.state host.old) i.0) }
{
    let mut names = Vec::new(alloc);
    host.list(i, sub, &mut names)?;
    let place = Place {
        dir: i,
        sub,
        version: *version,
        names,
    };
    let Loaded {
        mut tree,
        id,
        namespace,
    } = newest_image::<H, T>(alloc, host, &place)?;
    let last = replay_segments(alloc, host, &place, id, &mut tree)?;
    Ok(Loaded {
        tree,
        id: last,
        namespace,
    })
}
