// Doing again what a record says.
ghost use Rattle.std.specs.Prelude.{◌≡◌, ◌≢◌, ◌<◌, ◌^◌, true, Some, None, IfOk, IfErr, OnOk, OnErr};
ghost use Rattle.nn_record.specs.Ops.{IsOp};
ghost use Rattle.nn_tree.specs.Imaged.{IsImaged};
ghost use Rattle.nn_ops.specs.Bodies.{command_of_op, time_of};
ghost use Rattle.nn_ops.specs.Commands.{IsCommand};
ghost use Rattle.nn_ops.specs.Effects.{effect};
ghost use Rattle.nn_ops.specs.Replays.{assigned_by, none_assigned};
ghost use Rattle.nn_ops.specs.Step.{Fits};

use crate::{Command, OpRefusal, apply, prepare};
use nn_base::{Label, NoMemory, OutOfMemory};
use nn_record::Op;
use nn_tree::Tree;
use std::alloc::Global;

/// Why a body isn't done again.
#[derive(Clone, Copy, Debug, PartialEq, Eq)]
pub enum Clash {
    /// No command writes this body on the namespace, at the time in it.
    Refused,
    /// Memory ran out. It has no other cause.
    Memory,
}

impl<M: OutOfMemory + Drop> From<M> for Clash {
    ghost use Rattle.nn_ops.specs.declared.replayed.Clash.TheVariants.{Memory};

    ghost from_gives = { λ _ clash. clash ≡ Memory };

    fn from(_: M) -> Clash {
        Clash::Memory
    }
}

/// What a body holds beyond its command and its time.
#[derive(Drop)]
struct Assigned {
    /// The id of the new node or block.
    first: u64,
    /// The generation stamp of a new block.
    second: u64,
    mode: u16,
    /// The owner and the group of a new node.
    labels: Option<(Label, Label)>,
}

fn assigned_in(op: &Op) -> Assigned
    ensures { result ≡ assigned_by op.now }
{
    match op {
        Op::Add {
            inode,
            owner,
            group,
            mode,
            ..
        } => node_assigned(*inode, *owner, *group, *mode),
        Op::Mkdir {
            inode,
            owner,
            group,
            mode,
            ..
        } => node_assigned(*inode, *owner, *group, *mode),
        Op::AddBlock { id, stamp, .. } => Assigned {
            first: *id,
            second: *stamp,
            mode: 0,
            labels: None,
        },
        Op::RenameOld { .. } => none_assigned(),
        Op::Delete { .. } => none_assigned(),
        Op::SetReplication { .. } => none_assigned(),
        Op::SetPermissions { .. } => none_assigned(),
        Op::SetOwner { .. } => none_assigned(),
        Op::Close { .. } => none_assigned(),
        Op::SetQuota { .. } => none_assigned(),
        Op::EndLogSegment => none_assigned(),
        Op::StartLogSegment => none_assigned(),
    }
}

fn node_assigned(first: u64, owner: Label, group: Label, mode: u16) -> Assigned
    ensures { result ≡ record { first = first; second = 0; mode = mode; labels = Some (owner, group) } }
{
    Assigned {
        first,
        second: 0,
        mode,
        labels: Some((owner, group)),
    }
}

fn none_assigned() -> Assigned
    ensures { result ≡ none_assigned }
{
    Assigned {
        first: 0,
        second: 0,
        mode: 0,
        labels: None,
    }
}

fn same_label(a: &Label, b: &Label) -> bool
    ensures same { result ≡ true → a.now ≡ b.now }
    ensures other { a.now ≡ b.now → result ≡ true }
{
    a.bytes() == b.bytes()
}

fn same_labels(a: &Option<(Label, Label)>, b: &Option<(Label, Label)>) -> bool
    ensures same { result ≡ true → a.now ≡ b.now }
    ensures other { a.now ≡ b.now → result ≡ true }
{
    match a {
        None => b.is_none(),
        Some((owner, group)) => match b {
            None => false,
            Some((other_owner, other_group)) => {
                same_label(owner, other_owner) && same_label(group, other_group)
            }
        },
    }
}

fn same_assigned(a: &Assigned, b: &Assigned) -> bool
    ensures same { result ≡ true → a.now ≡ b.now }
    ensures other { a.now ≡ b.now → result ≡ true }
{
    a.first == b.first
        && a.second == b.second
        && a.mode == b.mode
        && same_labels(&a.labels, &b.labels)
}

/// The command that a body is of. `None` stands for the marks of a segment.
fn command_in(alloc: Global, op: &Op) -> Result<Option<Command>, NoMemory>
    ensures { IfOk result (λ command. command ≡ command_of_op op.now) }
{
    Ok(Some(match op {
        Op::Add {
            path,
            replication,
            ..
        } => Command::Create {
            path: path.copy(alloc)?,
            replication: u64::from(*replication),
        },
        Op::RenameOld { from, to, .. } => Command::Rename {
            from: from.copy(alloc)?,
            to: to.copy(alloc)?,
        },
        Op::Delete { path, .. } => Command::Delete {
            path: path.copy(alloc)?,
        },
        Op::Mkdir { path, .. } => Command::Mkdir {
            path: path.copy(alloc)?,
        },
        Op::SetReplication { path, replication } => Command::Setrep {
            path: path.copy(alloc)?,
            replication: u64::from(*replication),
        },
        Op::SetPermissions { path, mode } => Command::Chmod {
            path: path.copy(alloc)?,
            mode: *mode,
        },
        Op::SetOwner { path, owner, group } => Command::Chown {
            path: path.copy(alloc)?,
            owner: *owner,
            group: *group,
        },
        Op::Close { path, .. } => Command::Close {
            path: path.copy(alloc)?,
        },
        Op::SetQuota { path, quota } => Command::SetQuota {
            path: path.copy(alloc)?,
            quota: *quota,
        },
        Op::AddBlock { path, length, .. } => Command::AddBlock {
            path: path.copy(alloc)?,
            length: *length,
        },
        Op::EndLogSegment => return Ok(None),
        Op::StartLogSegment => return Ok(None),
    }))
}

/// The time in a body, 0 where there is none.
fn time_in(op: &Op) -> u64
    ensures { result ≡ time_of op.now }
{
    match op {
        Op::Add { time, .. } => *time,
        Op::RenameOld { time, .. } => *time,
        Op::Delete { time, .. } => *time,
        Op::Mkdir { time, .. } => *time,
        Op::Close { time, .. } => *time,
        Op::SetReplication { .. } => 0,
        Op::SetPermissions { .. } => 0,
        Op::SetOwner { .. } => 0,
        Op::SetQuota { .. } => 0,
        Op::AddBlock { .. } => 0,
        Op::EndLogSegment => 0,
        Op::StartLogSegment => 0,
    }
}

/// Does again what a body says, where a command writes just this body on the namespace, as Hadoop's `FSEditLogLoader` does. Else the namespace stays as it is.
pub fn replay<T: Tree>(alloc: Global, tree: &mut T, op: &Op) -> Result<(), Clash>
    requires { IsOp op.now }
    ensures ok { OnOk result (Fits (T.meaning tree.old) op.now) }
    ensures after { OnOk result (T.meaning tree.new ≡ effect op.now (T.meaning tree.old)) }
    ensures imaged { IsImaged (T.meaning tree.old) → IsImaged (T.meaning tree.new) }
    ensures err { IfErr result (λ clash. clash ≡ Clash.Refused → Fits (T.meaning tree.old) op.now → ⊥) }
    ensures kept { OnErr result (T.meaning tree.new ≡ T.meaning tree.old) }
{
    let Some(command) = command_in(alloc, op)? else {
        return Ok(());
    };
    match prepare(alloc, tree, command, time_in(op)) {
        Ok(plan) => {
            if !same_assigned(&assigned_in(plan.op()), &assigned_in(op)) {
                return Err(Clash::Refused);
            }
            apply(tree, plan);
            Ok(())
        }
        Err(refusal) => Err(told(refusal)),
    }
}

/// Want of memory stays that, and every other refusal is one of the body.
fn told(refusal: OpRefusal) -> Clash
    ensures refused { result ≡ Clash.Refused → refusal ≢ OpRefusal.Memory }
    ensures memory { result ≡ Clash.Memory → refusal ≡ OpRefusal.Memory }
{
    match refusal {
        OpRefusal::Memory => Clash::Memory,
        OpRefusal::Exists => Clash::Refused,
        OpRefusal::NotFound => Clash::Refused,
        OpRefusal::NotDir => Clash::Refused,
        OpRefusal::IsDir => Clash::Refused,
        OpRefusal::Under => Clash::Refused,
        OpRefusal::Root => Clash::Refused,
        OpRefusal::Closed => Clash::Refused,
        OpRefusal::Quota => Clash::Refused,
        OpRefusal::Limit => Clash::Refused,
    }
}
