// A segment in progress that is kept in memory while finalized ones take its place.
ghost use Rattle.std.specs.Prelude.{◌≡◌, ◌+◌, ◌<◌, ◌≤◌, ◌⊎◌, [], drop, IfOk, IfErr, IfSome, IfNone};
ghost use Rattle.nn_host.specs.Moments.{disk_at};
ghost use Rattle.nn_host.specs.Runs.{OnlyAt, Looked};
ghost use Rattle.nn_record.specs.declared.transaction.Record.{Record};
ghost use Rattle.nn_segment.specs.Segment.{IsIntactRun};
ghost use Rattle.nn_tree.specs.Imaged.{IsImaged};
ghost use Rattle.nn_chain.specs.Folder.{folder_at};
ghost use Rattle.nn_chain.specs.Records.{HoldsRecord};
ghost use Rattle.nn_load.specs.Held.{IsGoneOver, IsOf, IsFresh, WasReplayed};
ghost use Rattle.nn_load.specs.Loading.{answered_chain};

use crate::ChainFault;
use crate::replaying::{Reach, replay_wanted};
use crate::segment::{MOST, Place};
use nn_base::{FileName, FirstTxid, Txid};
use nn_host::Host;
use nn_segment::{intact_run, records_in};
use nn_small::{ReadAll, read_all};
use nn_tree::Tree;
use std::alloc::Global;

/// A segment in progress as it was read, and how many of its records were gone over. It is kept while finalized segments
/// that begin in its midst take its place, so that it is read once, and each record of it is looked at twice at most.
#[derive(Drop)]
pub(crate) struct Held {
    pub(crate) first: FirstTxid,
    layout: i32,
    bytes: Vec<u8>,
    /// The id of the last record.
    pub(crate) last: Txid,
    /// How many bytes behind the header were gone over.
    end: usize,
    /// The id of the record that follows there.
    pub(crate) next: u64,
}

/// Reads a segment in progress. None where it has no record.
pub(crate) fn hold<H: Host>(
    alloc: Global,
    host: &mut H,
    place: &Place,
    first: FirstTxid,
) -> Result<Option<Held>, ChainFault>
    requires { place.now.dir.0 < (H.state host.old).count }
    ensures some { H.told → IfOk result (λ found. IfSome found (IsOf (folder_at ((H.state host.old).reads place.now.dir.0) place.now.sub) place.now.version.layout)) }
    ensures none { H.told → IfOk result (λ found. IfNone found ((r : Record) → HoldsRecord (folder_at ((H.state host.old).reads place.now.dir.0) place.now.sub) place.now.version.layout (FileName.InProgress first) r → ⊥)) }
    ensures fresh { IfOk result (λ found. IfSome found (IsFresh first)) }
    ensures cause { IfErr result (λ fault. (fault ≡ ChainFault.Failed) ⊎ (fault ≡ ChainFault.Memory)) }
    ensures kept { Looked H.told place.now.dir.0 (H.state host.old) (H.state host.new) (answered_chain result) }
    ensures any_moment { OnlyAt H.told place.now.dir.0 (H.state host.old) (H.state host.new) (λ d. d ≡ disk_at (H.state host.old) place.now.dir.0) }
{
    match read_all(
        alloc,
        host,
        place.dir,
        place.sub,
        FileName::InProgress(first),
        MOST,
    ) {
        Ok(bytes) => hold_bytes(alloc, bytes, place.version.layout, first),
        Err(ReadAll::Absent) => Ok(None),
        Err(ReadAll::TooLarge(_)) => Ok(None),
        Err(ReadAll::Failed) => Err(ChainFault::Failed),
        Err(ReadAll::Memory) => Err(ChainFault::Memory),
    }
}

fn hold_bytes(
    alloc: Global,
    bytes: Vec<u8>,
    layout: i32,
    first: FirstTxid,
) -> Result<Option<Held>, ChainFault>
    ensures some { IfOk result (λ found. IfSome found (λ held. (held.bytes ≡ bytes) × (held.layout ≡ layout) × IsFresh first held)) }
    ensures none { IfOk result (λ found. IfNone found (IsIntactRun bytes.items layout first [])) }
    ensures cause { IfErr result (λ fault. fault ≡ ChainFault.Memory) }
{
    let begin = first.0;
    let run = intact_run(alloc, &bytes, layout, begin)?;
    let Some(last) = run.last else {
        return Ok(None);
    };
    Ok(Some(Held {
        first,
        layout,
        bytes,
        last,
        end: 0,
        next: begin.0,
    }))
}

impl Held {
    /// What stands behind the header.
    fn records(&self) -> &[u8]
        requires { IsGoneOver self.now }
        ensures { result.now ≡ drop 8 self.now.bytes.items }
    {
        match records_in(&self.bytes, self.layout) {
            Some(records) => records,
            None => &[],
        }
    }

    /// Replays its records that come after `last`, up to the id `until`, as long as they fit. Those beyond are left for
    /// later.
    pub(crate) fn replay<T: Tree>(
        self,
        alloc: Global,
        last: Txid,
        until: u64,
        tree: &mut T,
    ) -> Result<(Reach, Held), ChainFault>
        requires gone_over { IsGoneOver self }
        requires near { self.next ≤ last + 1 }
        requires room { last < until }
        ensures ok { IfOk result (λ it. WasReplayed self it.1 until (record { last = last; ns = T.meaning tree.old }) (record { last = it.0.last; ns = T.meaning tree.new }) it.0.fit) }
        ensures imaged { IsImaged (T.meaning tree.old) → IsImaged (T.meaning tree.new) }
        ensures cause { IfErr result (λ fault. fault ≡ ChainFault.Memory) }
    {
        let records = self.records();
        let mut reach = Reach { last, fit: true };
        let mut end = self.end;
        let mut next = self.next;
        while let Some((len, further)) = replay_wanted(
            alloc,
            &records[end..],
            next,
            &reach,
            until,
            tree,
        )? {
            reach = further;
            end += len;
            next += 1;
        }
        let held = Held {
            first: self.first,
            layout: self.layout,
            bytes: self.bytes,
            last: self.last,
            end,
            next,
        };
        Ok((reach, held))
    }
}
