// The answer to a command, before anything is done.
ghost use Rattle.std.specs.Prelude.{◌≡◌, ◌≢◌, ◌<◌, ◌^◌, IfOk, IfErr, OnOk, None, Some};
ghost use Rattle.nn_base.specs.Limits.{IsLong};
ghost use Rattle.nn_ops.specs.Bodies.{op_of};
ghost use Rattle.nn_ops.specs.Commands.{IsCommand};
ghost use Rattle.nn_ops.specs.Plans.{IsReady};
ghost use Rattle.nn_ops.specs.Step.{refusal_of};

use crate::attributes::{prepare_chmod, prepare_chown, prepare_quota, prepare_setrep};
use crate::delete::prepare_delete;
use crate::file::{prepare_block, prepare_close};
use crate::new_node::{prepare_create, prepare_mkdir};
use crate::plan::Plan;
use crate::rename::prepare_rename;
use crate::{Command, OpRefusal};
use nn_tree::Tree;
use std::alloc::Global;

/// Says whether a command is taken at a time, in milliseconds, and reserves in the tree all that the plan needs. A command that isn't taken, also for want of memory, changes nothing; nor does one that is, until its plan is done.
pub fn prepare<T: Tree>(
    alloc: Global,
    tree: &mut T,
    command: Command,
    now: u64,
) -> Result<Plan, OpRefusal>
    requires command { IsCommand command }
    requires now { IsLong now }
    ensures ok { OnOk result (refusal_of (T.meaning tree.old) command ≡ None) }
    ensures body { IfOk result (λ plan. plan.op ≡ op_of (T.meaning tree.old) command now) }
    ensures ready { IfOk result (λ plan. IsReady plan (T.has tree.new) (T.place tree.new) (T.spare tree.new) (T.meaning tree.new)) }
    ensures err { IfErr result (λ refusal. refusal ≢ OpRefusal.Memory → refusal_of (T.meaning tree.old) command ≡ Some refusal) }
    ensures kept { T.meaning tree.new ≡ T.meaning tree.old }
    ensures has { T.has tree.new ≡ T.has tree.old }
    ensures place { T.place tree.new ≡ T.place tree.old }
{
    match command {
        Command::Mkdir { path } => prepare_mkdir(alloc, tree, path, now),
        Command::Create { path, replication } => {
            prepare_create(alloc, tree, path, replication, now)
        }
        Command::AddBlock { path, length } => prepare_block(tree, path, length),
        Command::Close { path } => prepare_close(tree, path, now),
        Command::Delete { path } => prepare_delete(tree, path, now),
        Command::Rename { from, to } => prepare_rename(alloc, tree, from, to, now),
        Command::Chmod { path, mode } => prepare_chmod(tree, path, mode),
        Command::Chown { path, owner, group } => prepare_chown(tree, path, owner, group),
        Command::SetQuota { path, quota } => prepare_quota(tree, path, quota),
        Command::Setrep { path, replication } => prepare_setrep(tree, path, replication),
    }
}
