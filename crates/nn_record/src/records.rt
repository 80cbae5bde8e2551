// Writes a record.
ghost use Rattle.std.specs.Prelude.{◌≡◌, ◌+◌, ◌^◌, ◌<◌, ◌≤◌, ◌++◌, vec_len, vec_capacity, ◌*◌};
ghost use Rattle.nn_base.specs.Limits.{most_record, IsLong, most_path};
ghost use Rattle.nn_record.specs.Ops.{opcode_of, IsOp, IsHeld};
ghost use Rattle.nn_record.specs.Spelling.{body_bytes, unsealed, spelling, IsRecord};

use crate::Op;
use crate::opcodes::{
    ADD, ADD_BLOCK, CLOSE, DELETE, END_LOG_SEGMENT, MKDIR, RENAME_OLD, SET_OWNER, SET_PERMISSIONS,
    SET_QUOTA, SET_REPLICATION, START_LOG_SEGMENT,
};
use crate::writing::{overwrite, put, put_bound, put_name, put_path, put_u16, put_u32, put_u64};
use nn_base::Txid;
use nn_wire::crc32;
use std::mem;

fn opcode_of(op: &Op) -> u8
    ensures { result ≡ opcode_of op.now }
{
    match op {
        Op::Add { .. } => ADD,
        Op::RenameOld { .. } => RENAME_OLD,
        Op::Delete { .. } => DELETE,
        Op::Mkdir { .. } => MKDIR,
        Op::SetReplication { .. } => SET_REPLICATION,
        Op::SetPermissions { .. } => SET_PERMISSIONS,
        Op::SetOwner { .. } => SET_OWNER,
        Op::Close { .. } => CLOSE,
        Op::SetQuota { .. } => SET_QUOTA,
        Op::EndLogSegment => END_LOG_SEGMENT,
        Op::StartLogSegment => START_LOG_SEGMENT,
        Op::AddBlock { .. } => ADD_BLOCK,
    }
}

/// Appends a record: opcode, length, id, body and checksum.
pub(crate) fn put_record(id: Txid, op: &Op, out: &mut Vec<u8>)
    requires id { 1 ≤ id }
    requires op { IsOp op.now }
    requires room { vec_len out.old + most_record ≤ vec_capacity out.old }
    ensures text { out.new.items ≡ out.old.items ++ spelling (record { id = id; op = op.now }) }
    ensures record { IsRecord (record { id = id; op = op.now }) }
    ensures capacity { vec_capacity out.old ≤ vec_capacity out.new }
{
    // The bytes are taken out as a value, so that their length needn't be written after each field.
    let none = Vec::new(*out.allocator());
    let bytes = mem::replace(out, none);
    *out = with_record(id, op, bytes);
}

#[inline(always)]
fn with_record(id: Txid, op: &Op, bytes: Vec<u8>) -> Vec<u8>
    requires id { 1 ≤ id }
    requires op { IsOp op.now }
    requires room { vec_len bytes + most_record ≤ vec_capacity bytes }
    ensures text { result.items ≡ bytes.items ++ spelling (record { id = id; op = op.now }) }
    ensures record { IsRecord (record { id = id; op = op.now }) }
    ensures capacity { vec_capacity bytes ≤ vec_capacity result }
{
    let mut out = bytes;
    let start = out.len();
    put_unsealed(id, op, &mut out);
    let sum = crc32(&out[start..]);
    put_u32(sum, &mut out);
    out
}

#[inline(always)]
fn put_unsealed(id: Txid, op: &Op, out: &mut Vec<u8>)
    requires op { IsOp op.now }
    requires room { vec_len out.old + (2 * most_path + 1013) ≤ vec_capacity out.old }
    ensures id { IsLong id }
    ensures held { IsHeld op.now }
    ensures items { out.new.items ≡ out.old.items ++ unsealed (opcode_of op.now) id (body_bytes op.now) }
    ensures len { vec_len out.new ≤ vec_len out.old + (2 * most_path + 1013) }
    ensures capacity { vec_capacity out.old ≤ vec_capacity out.new }
{
    let start = out.len();
    put(&[opcode_of(op)], out);
    put_u32(0, out);
    put_u64(id.0, out);
    put_body(op, out);
    // The length is known once the body stands: it counts all but the opcode and the checksum.
    let len = (out.len() - start - 1) as u32;
    overwrite(&len.to_be_bytes(), start + 1, out);
}

#[inline(always)]
#[tactic(auto, unfolding(crate::specs::Spelling::body_bytes))]
fn put_body(op: &Op, out: &mut Vec<u8>)
    requires op { IsOp op.now }
    requires room { vec_len out.old + (2 * most_path + 1000) ≤ vec_capacity out.old }
    ensures held { IsHeld op.now }
    ensures items { out.new.items ≡ out.old.items ++ body_bytes op.now }
    ensures len { vec_len out.new ≤ vec_len out.old + (2 * most_path + 1000) }
    ensures capacity { vec_capacity out.old ≤ vec_capacity out.new }
{
    match op {
        Op::Add {
            inode,
            path,
            replication,
            time,
            owner,
            group,
            mode,
        } => {
            put_u64(*inode, out);
            put_path(path, out);
            put_u16(*replication, out);
            put_u64(*time, out);
            put_name(owner, out);
            put_name(group, out);
            put_u16(*mode, out);
        }
        Op::RenameOld { from, to, time } => {
            put_path(from, out);
            put_path(to, out);
            put_u64(*time, out);
        }
        Op::Delete { path, time } | Op::Close { path, time } => {
            put_path(path, out);
            put_u64(*time, out);
        }
        Op::Mkdir {
            inode,
            path,
            time,
            owner,
            group,
            mode,
        } => {
            put_u64(*inode, out);
            put_path(path, out);
            put_u64(*time, out);
            put_name(owner, out);
            put_name(group, out);
            put_u16(*mode, out);
        }
        Op::SetReplication {
            path,
            replication: number,
        }
        | Op::SetPermissions { path, mode: number } => {
            put_path(path, out);
            put_u16(*number, out);
        }
        Op::SetOwner { path, owner, group } => {
            put_path(path, out);
            put_name(owner, out);
            put_name(group, out);
        }
        Op::SetQuota { path, quota } => {
            put_path(path, out);
            put_bound(quota.names, out);
            put_bound(quota.space, out);
        }
        Op::EndLogSegment | Op::StartLogSegment => {}
        Op::AddBlock {
            path,
            id,
            stamp,
            length,
        } => {
            put_path(path, out);
            put_u64(*id, out);
            put_u64(*stamp, out);
            put_u64(*length, out);
        }
    }
}
