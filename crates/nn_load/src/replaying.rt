// Replaying the records of one segment.
ghost use Rattle.std.specs.Prelude.{◌≡◌, ◌⊎◌, ◌+◌, ◌<◌, ◌≤◌, List, IfOk, IfErr, IfSome, IfNone, Contains, true};
ghost use Rattle.nn_record.specs.declared.transaction.Record.{Record};
ghost use Rattle.nn_record.specs.Ops.{IsOp};
ghost use Rattle.nn_tree.specs.Imaged.{IsImaged};
ghost use Rattle.nn_segment.specs.Segment.{IsIntactRun};
ghost use Rattle.nn_segment.specs.Reaching.{IsNext, NoneNext, IsWhole};
ghost use Rattle.nn_load.specs.Replaying.{AreReplayed, Advances};

use crate::ChainFault;
use nn_base::Txid;
use nn_ops::{Clash, replay};
use nn_record::Record;
use nn_segment::{next_record, records_in};
use nn_tree::Tree;
use std::alloc::Global;

/// How far records have led.
#[derive(Clone, Copy, Debug, PartialEq, Eq)]
pub(crate) struct Reach {
    /// The last id.
    pub(crate) last: Txid,
    /// Whether each record so far fitted.
    pub(crate) fit: bool,
}

/// Replays the records of a segment's intact run that come after `last`, up to the id `until`, as long as they fit. The
/// run is read to its end in any case: only there is it known to be one.
pub(crate) fn replay_run<T: Tree>(
    alloc: Global,
    bytes: &[u8],
    layout: i32,
    first: u64,
    last: Txid,
    until: u64,
    tree: &mut T,
) -> Result<Reach, ChainFault>
    requires begun { first ≤ last + 1 }
    requires room { last < until }
    ensures run { IfOk result (λ reach. (run : List Record) × IsIntactRun bytes.now layout first run × AreReplayed (Contains run) until (record { last = last; ns = T.meaning tree.old }) (record { last = reach.last; ns = T.meaning tree.new }) reach.fit) }
    ensures imaged { IsImaged (T.meaning tree.old) → IsImaged (T.meaning tree.new) }
    ensures within { IfOk result (λ reach. (last ≤ reach.last) × (reach.last ≤ until)) }
    ensures cause { IfErr result (λ fault. fault ≡ ChainFault.Memory) }
{
    match records_in(bytes, layout) {
        Some(records) => replay_records(alloc, records, first, last, until, tree),
        None => Ok(Reach { last, fit: true }),
    }
}

fn replay_records<T: Tree>(
    alloc: Global,
    records: &[u8],
    first: u64,
    last: Txid,
    until: u64,
    tree: &mut T,
) -> Result<Reach, ChainFault>
    requires begun { first ≤ last + 1 }
    requires room { last < until }
    ensures run { IfOk result (λ reach. (run : List Record) × IsWhole records.now first run × AreReplayed (Contains run) until (record { last = last; ns = T.meaning tree.old }) (record { last = reach.last; ns = T.meaning tree.new }) reach.fit) }
    ensures imaged { IsImaged (T.meaning tree.old) → IsImaged (T.meaning tree.new) }
    ensures within { IfOk result (λ reach. (last ≤ reach.last) × (reach.last ≤ until)) }
    ensures cause { IfErr result (λ fault. fault ≡ ChainFault.Memory) }
{
    let mut reach = Reach { last, fit: true };
    let mut end = 0;
    let mut id = first;
    while let Some((len, further)) = replay_front(
        alloc,
        &records[end..],
        id,
        &reach,
        until,
        tree,
    )? {
        reach = further;
        end += len;
        id += 1;
    }
    Ok(reach)
}

/// How many bytes the record at the front has, and how far it leads. None where no record of this id is there.
fn replay_front<T: Tree>(
    alloc: Global,
    rest: &[u8],
    id: u64,
    reach: &Reach,
    until: u64,
    tree: &mut T,
) -> Result<Option<(usize, Reach)>, ChainFault>
    ensures some { IfOk result (λ found. IfSome found (λ front. (r : Record) × IsNext rest.now id r front.0 ×
        Advances until r (record { last = reach.now.last; ns = T.meaning tree.old }) (record { last = front.1.last; ns = T.meaning tree.new }) reach.now.fit front.1.fit)) }
    ensures none { IfOk result (λ found. IfNone found (NoneNext rest.now id × (T.meaning tree.new ≡ T.meaning tree.old))) }
    ensures imaged { IsImaged (T.meaning tree.old) → IsImaged (T.meaning tree.new) }
    ensures cause { IfErr result (λ fault. fault ≡ ChainFault.Memory) }
{
    let Some((transaction, len)) = next_record(alloc, rest, id)? else {
        return Ok(None);
    };
    let further = advance(alloc, &transaction, reach, until, tree)?;
    Ok(Some((len, further)))
}

/// The same, but none where this id comes after `until` either.
pub(crate) fn replay_wanted<T: Tree>(
    alloc: Global,
    rest: &[u8],
    id: u64,
    reach: &Reach,
    until: u64,
    tree: &mut T,
) -> Result<Option<(usize, Reach)>, ChainFault>
    ensures some { IfOk result (λ found. IfSome found (λ front. (r : Record) × IsNext rest.now id r front.0 × (id ≤ until) ×
        Advances until r (record { last = reach.now.last; ns = T.meaning tree.old }) (record { last = front.1.last; ns = T.meaning tree.new }) reach.now.fit front.1.fit)) }
    ensures none { IfOk result (λ found. IfNone found ((until < id ⊎ NoneNext rest.now id) × (T.meaning tree.new ≡ T.meaning tree.old))) }
    ensures imaged { IsImaged (T.meaning tree.old) → IsImaged (T.meaning tree.new) }
    ensures cause { IfErr result (λ fault. fault ≡ ChainFault.Memory) }
{
    if until < id {
        return Ok(None);
    }
    replay_front(alloc, rest, id, reach, until, tree)
}

/// Replays a record, if its id comes after the last and up to `until`, and all before it fitted.
fn advance<T: Tree>(
    alloc: Global,
    transaction: &Record,
    reach: &Reach,
    until: u64,
    tree: &mut T,
) -> Result<Reach, ChainFault>
    requires { IsOp transaction.now.op }
    ensures ok { IfOk result (λ further. Advances until transaction.now (record { last = reach.now.last; ns = T.meaning tree.old }) (record { last = further.last; ns = T.meaning tree.new }) reach.now.fit further.fit) }
    ensures imaged { IsImaged (T.meaning tree.old) → IsImaged (T.meaning tree.new) }
    ensures cause { IfErr result (λ fault. fault ≡ ChainFault.Memory) }
{
    let id = transaction.id;
    let last = reach.last;
    if !reach.fit || id.0 <= last.0 || until < id.0 {
        return Ok(Reach {
            last,
            fit: reach.fit,
        });
    }
    match replay(alloc, tree, &transaction.op) {
        Ok(()) => Ok(Reach {
            last: id,
            fit: true,
        }),
        Err(Clash::Refused) => Ok(Reach { last, fit: false }),
        Err(Clash::Memory) => Err(ChainFault::Memory),
    }
}
