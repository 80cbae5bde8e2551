// Reads the body of each opcode.
ghost use Rattle.std.specs.Prelude.{IfOk};
ghost use Rattle.nn_record.specs.Spelling.{IsBody};
ghost use Rattle.nn_record.specs.Reading.{Gives};
ghost use Rattle.nn_record.specs.RecordReading as reading;

use crate::Op;
use crate::fields::{take_bound, take_long, take_mode, take_name, take_path, take_u16, take_u64};
use crate::opcodes::{
    ADD, ADD_BLOCK, CLOSE, DELETE, END_LOG_SEGMENT, MKDIR, RENAME_OLD, SET_OWNER, SET_PERMISSIONS,
    SET_QUOTA, SET_REPLICATION, START_LOG_SEGMENT,
};
use crate::unread::Unread;
use nn_quota::Quota;
use std::alloc::Global;

/// Takes the fields of an opcode, and leaves what follows them.
#[tactic(auto, unfolding(crate::specs::RecordReading::op_at, crate::specs::Spelling::body_bytes))]
pub(crate) fn take_op(alloc: Global, opcode: u8, body: &mut &[u8]) -> Result<Op, Unread>
    ensures found { IfOk result (λ op. IsBody opcode op body.old.now body.new.now) }
    ensures exact { Gives result body.new.now (reading.op_at opcode body.old.now) }
{
    match opcode {
        ADD => take_add(alloc, body),
        RENAME_OLD => take_rename_old(alloc, body),
        DELETE => take_delete(alloc, body),
        MKDIR => take_mkdir(alloc, body),
        SET_REPLICATION => take_set_replication(alloc, body),
        SET_PERMISSIONS => take_set_permissions(alloc, body),
        SET_OWNER => take_set_owner(alloc, body),
        CLOSE => take_close(alloc, body),
        SET_QUOTA => take_set_quota(alloc, body),
        END_LOG_SEGMENT => Ok(Op::EndLogSegment),
        START_LOG_SEGMENT => Ok(Op::StartLogSegment),
        ADD_BLOCK => take_add_block(alloc, body),
        _ => Err(Unread::NoRecord),
    }
}

#[tactic(auto, unfolding(crate::specs::RecordReading::add_at, crate::specs::Spelling::body_bytes))]
fn take_add(alloc: Global, body: &mut &[u8]) -> Result<Op, Unread>
    ensures found { IfOk result (λ op. IsBody 0 op body.old.now body.new.now) }
    ensures exact { Gives result body.new.now (reading.add_at body.old.now) }
{
    Ok(Op::Add {
        inode: take_long(body)?,
        path: take_path(alloc, body)?,
        replication: take_u16(body)?,
        time: take_long(body)?,
        owner: take_name(body)?,
        group: take_name(body)?,
        mode: take_mode(body)?,
    })
}

#[tactic(auto, unfolding(crate::specs::RecordReading::rename_old_at, crate::specs::Spelling::body_bytes))]
fn take_rename_old(alloc: Global, body: &mut &[u8]) -> Result<Op, Unread>
    ensures found { IfOk result (λ op. IsBody 1 op body.old.now body.new.now) }
    ensures exact { Gives result body.new.now (reading.rename_old_at body.old.now) }
{
    Ok(Op::RenameOld {
        from: take_path(alloc, body)?,
        to: take_path(alloc, body)?,
        time: take_long(body)?,
    })
}

#[tactic(auto, unfolding(crate::specs::RecordReading::delete_at, crate::specs::Spelling::body_bytes))]
fn take_delete(alloc: Global, body: &mut &[u8]) -> Result<Op, Unread>
    ensures found { IfOk result (λ op. IsBody 2 op body.old.now body.new.now) }
    ensures exact { Gives result body.new.now (reading.delete_at body.old.now) }
{
    Ok(Op::Delete {
        path: take_path(alloc, body)?,
        time: take_long(body)?,
    })
}

#[tactic(auto, unfolding(crate::specs::RecordReading::mkdir_at, crate::specs::Spelling::body_bytes))]
fn take_mkdir(alloc: Global, body: &mut &[u8]) -> Result<Op, Unread>
    ensures found { IfOk result (λ op. IsBody 3 op body.old.now body.new.now) }
    ensures exact { Gives result body.new.now (reading.mkdir_at body.old.now) }
{
    Ok(Op::Mkdir {
        inode: take_long(body)?,
        path: take_path(alloc, body)?,
        time: take_long(body)?,
        owner: take_name(body)?,
        group: take_name(body)?,
        mode: take_mode(body)?,
    })
}

#[tactic(auto, unfolding(crate::specs::RecordReading::set_replication_at, crate::specs::Spelling::body_bytes))]
fn take_set_replication(alloc: Global, body: &mut &[u8]) -> Result<Op, Unread>
    ensures found { IfOk result (λ op. IsBody 4 op body.old.now body.new.now) }
    ensures exact { Gives result body.new.now (reading.set_replication_at body.old.now) }
{
    Ok(Op::SetReplication {
        path: take_path(alloc, body)?,
        replication: take_u16(body)?,
    })
}

#[tactic(auto, unfolding(crate::specs::RecordReading::set_permissions_at, crate::specs::Spelling::body_bytes))]
fn take_set_permissions(alloc: Global, body: &mut &[u8]) -> Result<Op, Unread>
    ensures found { IfOk result (λ op. IsBody 7 op body.old.now body.new.now) }
    ensures exact { Gives result body.new.now (reading.set_permissions_at body.old.now) }
{
    Ok(Op::SetPermissions {
        path: take_path(alloc, body)?,
        mode: take_mode(body)?,
    })
}

#[tactic(auto, unfolding(crate::specs::RecordReading::set_owner_at, crate::specs::Spelling::body_bytes))]
fn take_set_owner(alloc: Global, body: &mut &[u8]) -> Result<Op, Unread>
    ensures found { IfOk result (λ op. IsBody 8 op body.old.now body.new.now) }
    ensures exact { Gives result body.new.now (reading.set_owner_at body.old.now) }
{
    Ok(Op::SetOwner {
        path: take_path(alloc, body)?,
        owner: take_name(body)?,
        group: take_name(body)?,
    })
}

#[tactic(auto, unfolding(crate::specs::RecordReading::close_at, crate::specs::Spelling::body_bytes))]
fn take_close(alloc: Global, body: &mut &[u8]) -> Result<Op, Unread>
    ensures found { IfOk result (λ op. IsBody 9 op body.old.now body.new.now) }
    ensures exact { Gives result body.new.now (reading.close_at body.old.now) }
{
    Ok(Op::Close {
        path: take_path(alloc, body)?,
        time: take_long(body)?,
    })
}

#[tactic(auto, unfolding(crate::specs::RecordReading::set_quota_at, crate::specs::Spelling::body_bytes))]
fn take_set_quota(alloc: Global, body: &mut &[u8]) -> Result<Op, Unread>
    ensures found { IfOk result (λ op. IsBody 14 op body.old.now body.new.now) }
    ensures exact { Gives result body.new.now (reading.set_quota_at body.old.now) }
{
    Ok(Op::SetQuota {
        path: take_path(alloc, body)?,
        quota: Quota {
            names: take_bound(body)?,
            space: take_bound(body)?,
        },
    })
}

#[tactic(auto, unfolding(crate::specs::RecordReading::add_block_at, crate::specs::Spelling::body_bytes))]
fn take_add_block(alloc: Global, body: &mut &[u8]) -> Result<Op, Unread>
    ensures found { IfOk result (λ op. IsBody 33 op body.old.now body.new.now) }
    ensures exact { Gives result body.new.now (reading.add_block_at body.old.now) }
{
    Ok(Op::AddBlock {
        path: take_path(alloc, body)?,
        id: take_long(body)?,
        stamp: take_long(body)?,
        length: take_u64(body)?,
    })
}
