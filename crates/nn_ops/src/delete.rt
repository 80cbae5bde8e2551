// The command `delete`.
ghost use Rattle.std.specs.Prelude.{◌≡◌, ◌≢◌, ◌<◌, ◌^◌, IfOk, IfErr, Some};
ghost use Rattle.nn_base.specs.Limits.{IsLong};
ghost use Rattle.nn_ops.specs.Bodies.{op_of};
ghost use Rattle.nn_ops.specs.Plans.{IsReady};
ghost use Rattle.nn_ops.specs.Step.{refusal_of};
ghost use Rattle.nn_ops.specs.declared.command.Command.{Command};

use crate::OpRefusal;
use crate::places::{is_root, node_at};
use crate::plan::{Plan, Target};
use nn_base::Path;
use nn_record::Op;
use nn_tree::Tree;

/// Tests a `delete`.
pub(crate) fn prepare_delete<T: Tree>(tree: &T, path: Path, now: u64) -> Result<Plan, OpRefusal>
    requires { IsLong now }
    ensures body { IfOk result (λ plan. plan.op ≡ op_of (T.meaning tree.now) (Command.Delete path) now) }
    ensures ready { IfOk result (λ plan. IsReady plan (T.has tree.now) (T.place tree.now) (T.spare tree.now) (T.meaning tree.now)) }
    ensures err { IfErr result (λ r. r ≢ OpRefusal.Memory → refusal_of (T.meaning tree.now) (Command.Delete path) ≡ Some r) }
{
    if is_root(&path) {
        return Err(OpRefusal::Root);
    }
    let at = node_at(tree, &path)?;
    Ok(Plan {
        op: Op::Delete { path, time: now },
        target: Target::At { at },
    })
}
