// Reads a record at the front of bytes.
ghost use Rattle.std.specs.Prelude.{◌≡◌, ℕ, ◌<◌, ◌≤◌, ◌^◌, ◌++◌, ◌-◌, List, length, drop, Some, IfOk, IfErr, IfSome, IfNone, OnErr};
ghost use Rattle.nn_base.specs.Limits.{most_record, IsLong};
ghost use Rattle.nn_record.specs.Ops.{opcode_of, IsOp, IsHeld};
ghost use Rattle.nn_record.specs.Spelling.{unsealed, sealed, u64, spelling, Begins, BeginsWithFrame};
ghost use Rattle.nn_record.specs.declared.transaction.Record.{Record};
ghost use Rattle.nn_record.specs.declared.unread.Unread.TheVariants.{NoRecord, Memory};
ghost use Rattle.nn_record.specs.Reading.{Fails, Gives};
ghost use Rattle.nn_record.specs.RecordReading as reading;

use crate::Record;
use crate::bodies::take_op;
use crate::fields::{take_long, take_text, take_u8, take_u32};
use crate::unread::Unread;
use nn_base::limits::MOST_RECORD;
use nn_base::{NoMemory, Txid};
use nn_wire::crc32;
use std::alloc::Global;

/// How many of the bytes that the length counts stand before the body: its own and those of the id.
const HEAD: usize = 12;

/// The most that the length may be: it counts neither the opcode nor the checksum, which have five bytes.
const GREATEST_LENGTH: usize = MOST_RECORD - 5;

/// The parts of a record.
#[derive(Clone, Copy)]
struct Frame<'a> {
    opcode: u8,
    id: u64,
    body: &'a [u8],
}

#[tactic(auto, unfolding(crate::specs::RecordReading::id_at))]
fn take_id(rest: &mut &[u8]) -> Result<u64, Unread>
    ensures found { IfOk result (λ id. (1 ≤ id) × IsLong id × (rest.old.now ≡ u64 id ++ rest.new.now)) }
    ensures exact { Gives result rest.new.now (reading.id_at rest.old.now) }
    ensures err { IfErr result (λ e. e ≡ NoRecord) }
{
    let id = take_long(rest)?;
    if id == 0 {
        Err(Unread::NoRecord)
    } else {
        Ok(id)
    }
}

#[tactic(auto, unfolding(crate::specs::RecordReading::rest_at))]
fn take_rest<'a>(len: usize, rest: &mut &'a [u8]) -> Result<&'a [u8], Unread>
    ensures found { IfOk result (λ body. (12 ≤ len) × (len ≤ most_record - 5) × (length body.now ≡ len - 12) × (rest.old.now ≡ body.now ++ rest.new.now)) }
    ensures exact { IfOk result (λ body. reading.rest_at len rest.old.now ≡ Some (body.now, rest.new.now)) }
    ensures none { IfErr result (λ e. Fails e (reading.rest_at len rest.old.now)) }
    ensures err { IfErr result (λ e. e ≡ NoRecord) }
{
    if len < HEAD || len > GREATEST_LENGTH {
        return Err(Unread::NoRecord);
    }
    take_text(len - HEAD, rest)
}

#[tactic(auto, unfolding(crate::specs::RecordReading::frame_at))]
fn take_frame<'a>(rest: &mut &'a [u8]) -> Result<Frame<'a>, Unread>
    ensures id { IfOk result (λ frame. (1 ≤ frame.id) × IsLong frame.id) }
    ensures size { IfOk result (λ frame. length frame.body.now ≤ most_record - 17) }
    ensures found { IfOk result (λ frame. rest.old.now ≡ sealed (unsealed frame.opcode frame.id frame.body.now) ++ rest.new.now) }
    ensures exact { IfOk result (λ frame. reading.frame_at rest.old.now ≡ Some ((frame.opcode, frame.id, frame.body.now), rest.new.now)) }
    ensures none { IfErr result (λ e. Fails e (reading.frame_at rest.old.now)) }
    ensures err { IfErr result (λ e. e ≡ NoRecord) }
{
    let whole = *rest;
    let opcode = take_u8(rest)?;
    let len = take_u32(rest)? as usize;
    let id = take_id(rest)?;
    let body = take_rest(len, rest)?;
    let sum = take_u32(rest)?;
    if sum != crc32(&whole[..1 + len]) {
        return Err(Unread::NoRecord);
    }
    Ok(Frame { opcode, id, body })
}

/// Takes a record, and leaves what follows it. Only the fields of a whole frame take memory, so no length of a damaged
/// record reserves any.
#[tactic(auto, using(crate::proofs::FrameLemmas::frame_begins), unfolding(crate::specs::RecordReading::record_at, crate::specs::Spelling::spelling))]
pub(crate) fn take_record(alloc: Global, rest: &mut &[u8]) -> Result<Record, Unread>
    ensures id { IfOk result (λ r. (1 ≤ r.id) × IsLong r.id) }
    ensures op { IfOk result (λ r. IsOp r.op × IsHeld r.op) }
    ensures found { IfOk result (λ r. rest.old.now ≡ spelling r ++ rest.new.now) }
    ensures exact { Gives result rest.new.now (reading.record_at rest.old.now) }
    ensures memory { IfErr result (λ e. e ≡ Memory → BeginsWithFrame rest.old.now) }
{
    let frame = take_frame(rest)?;
    let mut body = frame.body;
    let op = take_op(alloc, frame.opcode, &mut body)?;
    if !body.is_empty() {
        return Err(Unread::NoRecord);
    }
    Ok(Record {
        id: Txid(frame.id),
        op,
    })
}

/// The record at the front of the bytes, and how many bytes it has.
pub(crate) fn first_record(alloc: Global, bytes: &[u8]) -> Result<Option<(Record, usize)>, NoMemory>
    ensures some { IfOk result (λ found. IfSome found (λ at. Begins bytes.now at.0 (drop at.1 bytes.now))) }
    ensures len { IfOk result (λ found. IfSome found (λ at. (at.1 ≡ length (spelling at.0)) × (at.1 ≤ length bytes.now))) }
    ensures none { IfOk result (λ found. IfNone found ((r : Record) (rest : List ℕ) → ¬ Begins bytes.now r rest)) }
    ensures memory { OnErr result (BeginsWithFrame bytes.now) }
{
    let mut rest = bytes;
    match take_record(alloc, &mut rest) {
        Ok(record) => Ok(Some((record, bytes.len() - rest.len()))),
        Err(Unread::NoRecord) => Ok(None),
        Err(Unread::Memory) => Err(NoMemory),
    }
}
