// The records of a segment that are whole and in order.
ghost use Rattle.std.specs.Prelude.{◌≡◌, ◌+◌, ◌≤◌, List, length, IfOk, IfSome, IfNone, OnErr};
ghost use Rattle.nn_record.specs.declared.transaction.Record.{Record};
ghost use Rattle.nn_record.specs.Spelling.{BeginsWithFrame};
ghost use Rattle.nn_segment.specs.Segment.{IsIntactRun, OneIntactRun, ReachesFrame, last_id, end_of};
ghost use Rattle.nn_segment.specs.Reaching.{IsNext, IsAll, NoneNext, ReachFrame};

use crate::header::{HEADER_LEN, records_in};
use nn_base::{NoMemory, Txid};
use nn_record::Record;
use std::alloc::Global;

/// What is told of an intact run.
#[derive(Clone, Copy, Debug, PartialEq, Eq)]
pub struct Run {
    /// The id of its last record. `None` stands for an empty run.
    pub last: Option<Txid>,
    /// The place after its last record, in bytes from the segment's beginning: 8 where the run is empty and the header
    /// has the layout, and 0 where it doesn't.
    pub end: usize,
}

/// The intact run of a segment from its first id. A record that is cut off or damaged ends it, and so does one whose id
/// isn't the next: what stands after that may be left from a stop and is never read.
pub fn intact_run(alloc: Global, bytes: &[u8], layout: i32, first: Txid) -> Result<Run, NoMemory>
    ensures run { IfOk result (λ run. (rs : List Record) × IsIntactRun bytes.now layout first rs × (run.last ≡ last_id rs) × (run.end ≡ end_of bytes.now layout rs)) }
    ensures within { IfOk result (λ run. run.end ≤ length bytes.now) }
    ensures one { OneIntactRun }

    // No length of a damaged record reserves memory: a whole frame is there before any is asked for.
    ensures memory { OnErr result (ReachesFrame bytes.now layout first) }
{
    let Some(records) = records_in(bytes, layout) else {
        return Ok(Run { last: None, end: 0 });
    };
    let (last, len) = run_of(alloc, records, first)?;
    Ok(Run {
        last,
        end: HEADER_LEN + len,
    })
}

/// The last id of the records, and how many bytes they have.
#[tactic(auto, using(crate::proofs::ReachLemmas::within))]
fn run_of(alloc: Global, records: &[u8], first: Txid) -> Result<(Option<Txid>, usize), NoMemory>
    ensures all { IfOk result (λ run. IsAll records.now first run.0 run.1) }
    ensures memory { OnErr result (ReachFrame records.now first) }
{
    let mut last = None;
    let mut end = 0;
    let mut next = first.0;
    while let Some(len) = next_len(alloc, &records[end..], next)? {
        last = Some(Txid(next));
        end += len;
        next += 1;
    }
    Ok((last, end))
}

/// The record at the front of what is left of a segment, and how many bytes it has, if it is whole and has this id: so
/// are the records of a segment walked one after the other, from behind the header on.
pub fn next_record(alloc: Global, rest: &[u8], id: u64) -> Result<Option<(Record, usize)>, NoMemory>
    ensures next { IfOk result (λ found. IfSome found (λ next. IsNext rest.now id next.0 next.1)) }
    ensures none { IfOk result (λ found. IfNone found (NoneNext rest.now id)) }
    ensures memory { OnErr result (BeginsWithFrame rest.now) }
{
    match Record::get(alloc, rest)? {
        Some((record, len)) if record.id.0 == id => Ok(Some((record, len))),
        _ => Ok(None),
    }
}

// A record is let go here, once for all its forms, and not in the loop.
fn next_len(alloc: Global, rest: &[u8], id: u64) -> Result<Option<usize>, NoMemory>
    ensures some { IfOk result (λ found. IfSome found (λ len. (r : Record) × IsNext rest.now id r len)) }
    ensures none { IfOk result (λ found. IfNone found (NoneNext rest.now id)) }
    ensures memory { OnErr result (BeginsWithFrame rest.now) }
{
    match next_record(alloc, rest, id)? {
        Some((_, len)) => Ok(Some(len)),
        None => Ok(None),
    }
}
