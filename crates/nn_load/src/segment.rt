// One segment file, read and replayed.
ghost use Rattle.std.specs.Prelude.{◌≡◌, ◌+◌, ◌<◌, ◌≤◌, ◌⊎◌, IfOk, IfErr};
ghost use Rattle.nn_host.specs.Moments.{disk_at};
ghost use Rattle.nn_host.specs.Runs.{OnlyAt, Looked};
ghost use Rattle.nn_tree.specs.Imaged.{IsImaged};
ghost use Rattle.nn_chain.specs.Folder.{folder_at};
ghost use Rattle.nn_chain.specs.Records.{HoldsRecord};
ghost use Rattle.nn_load.specs.Loading.{answered_chain};
ghost use Rattle.nn_load.specs.Replaying.{AreReplayed};
ghost use Rattle.nn_load.specs.Segments.{IsPart};

use crate::ChainFault;
use crate::replaying::{Reach, replay_run};
use nn_base::limits::MOST_SEGMENT_READ;
use nn_base::{DirNo, FileName, Sub, Txid};
use nn_host::Host;
use nn_marks::Version;
use nn_small::{ReadAll, read_all};
use nn_tree::Tree;
use std::alloc::Global;

/// The most bytes of a segment file that is read. A longer one counts as empty.
pub(crate) const MOST: u64 = MOST_SEGMENT_READ as u64;

/// A folder that is read, and what stands there.
#[derive(Drop)]
pub(crate) struct Place {
    pub(crate) dir: DirNo,
    pub(crate) sub: Sub,
    /// What VERSION says.
    pub(crate) version: Version,
    /// The files that stand there, in the order of their names.
    pub(crate) names: Vec<FileName>,
}

/// A segment file, and which of its records are wanted.
#[derive(Drop)]
pub(crate) struct Segment {
    pub(crate) name: FileName,
    /// The id of its first record.
    pub(crate) first: u64,
    /// The id of the last record that is wanted.
    pub(crate) until: u64,
}

/// Reads a segment file, and replays its records that come after `last`, as long as they fit.
pub(crate) fn replay_file<H: Host, T: Tree>(
    alloc: Global,
    host: &mut H,
    place: &Place,
    segment: &Segment,
    last: Txid,
    tree: &mut T,
) -> Result<Reach, ChainFault>
    requires below { place.now.dir.0 < (H.state host.old).count }
    requires part { IsPart segment.now.name segment.now.first segment.now.until }
    requires begun { segment.now.first ≤ last + 1 }
    requires room { last < segment.now.until }
    ensures ok { H.told → IfOk result (λ reach. AreReplayed (HoldsRecord (folder_at ((H.state host.old).reads place.now.dir.0) place.now.sub) place.now.version.layout segment.now.name) segment.now.until
        (record { last = last; ns = T.meaning tree.old }) (record { last = reach.last; ns = T.meaning tree.new }) reach.fit) }
    ensures imaged { IsImaged (T.meaning tree.old) → IsImaged (T.meaning tree.new) }
    ensures within { IfOk result (λ reach. (last ≤ reach.last) × (reach.last ≤ segment.now.until)) }
    ensures cause { IfErr result (λ fault. (fault ≡ ChainFault.Failed) ⊎ (fault ≡ ChainFault.Memory)) }
    ensures kept { Looked H.told place.now.dir.0 (H.state host.old) (H.state host.new) (answered_chain result) }
    ensures any_moment { OnlyAt H.told place.now.dir.0 (H.state host.old) (H.state host.new) (λ d. d ≡ disk_at (H.state host.old) place.now.dir.0) }
{
    match read_all(alloc, host, place.dir, place.sub, segment.name, MOST) {
        Ok(bytes) => replay_run(
            alloc,
            &bytes,
            place.version.layout,
            segment.first,
            last,
            segment.until,
            tree,
        ),
        Err(ReadAll::Absent) => Ok(Reach { last, fit: true }),
        Err(ReadAll::TooLarge(_)) => Ok(Reach { last, fit: true }),
        Err(ReadAll::Failed) => Err(ChainFault::Failed),
        Err(ReadAll::Memory) => Err(ChainFault::Memory),
    }
}
