// The commands on an open file: `block` and `close`.
ghost use Rattle.std.specs.Prelude.{◌≡◌, ◌≢◌, ◌<◌, ◌≤◌, ◌+◌, ◌^◌, ◌*◌, IfOk, IfErr, Some};
ghost use Rattle.nn_base.specs.Limits.{IsLong};
ghost use Rattle.nn_ops.specs.Bodies.{op_of};
ghost use Rattle.nn_ops.specs.Commands.{replication_in};
ghost use Rattle.nn_ops.specs.Plans.{IsReady};
ghost use Rattle.nn_ops.specs.Step.{refusal_of};
ghost use Rattle.nn_ops.specs.declared.command.Command.{Command};
ghost use Rattle.nn_record.specs.declared.op.Op.{Op};

use crate::OpRefusal;
use crate::places::open_file_at;
use crate::plan::{Plan, Target};
use crate::room::{fits_above, is_bad_length, is_full_file};
use nn_base::Path;
use nn_quota::Usage;
use nn_record::Op;
use nn_tree::{Kind, Tree};

/// Tests a `close`.
pub(crate) fn prepare_close<T: Tree>(tree: &T, path: Path, now: u64) -> Result<Plan, OpRefusal>
    requires { IsLong now }
    ensures body { IfOk result (λ plan. plan.op ≡ op_of (T.meaning tree.now) (Command.Close path) now) }
    ensures ready { IfOk result (λ plan. IsReady plan (T.has tree.now) (T.place tree.now) (T.spare tree.now) (T.meaning tree.now)) }
    ensures err { IfErr result (λ r. r ≢ OpRefusal.Memory → refusal_of (T.meaning tree.now) (Command.Close path) ≡ Some r) }
{
    let at = open_file_at(tree, &path)?;
    Ok(Plan {
        op: Op::Close { path, time: now },
        target: Target::At { at },
    })
}

/// How many replicas of each of its blocks a file should have.
fn replication(kind: &Kind) -> u16
    ensures { result ≡ replication_in kind.now }
{
    match kind {
        Kind::File { replication, .. } => *replication,
        Kind::Dir { .. } => 0,
    }
}

/// Tests a `block`, and makes room for it.
pub(crate) fn prepare_block<T: Tree>(
    tree: &mut T,
    path: Path,
    length: u64,
) -> Result<Plan, OpRefusal>
    ensures body { IfOk result (λ plan. plan.op ≡ Op.AddBlock path ((T.meaning tree.old).counters.block + 1) ((T.meaning tree.old).counters.stamp + 1) length) }
    ensures ready { IfOk result (λ plan. IsReady plan (T.has tree.new) (T.place tree.new) (T.spare tree.new) (T.meaning tree.new)) }
    ensures err { IfErr result (λ r. r ≢ OpRefusal.Memory → refusal_of (T.meaning tree.old) (Command.AddBlock path length) ≡ Some r) }
    ensures means { T.meaning tree.new ≡ T.meaning tree.old }
    ensures has { T.has tree.new ≡ T.has tree.old }
    ensures place { T.place tree.new ≡ T.place tree.old }
{
    let at = open_file_at(tree, &path)?;
    if is_bad_length(length) || is_full_file(tree, at) {
        return Err(OpRefusal::Limit);
    }
    let more = Usage {
        names: 0,
        space: u128::from(replication(&tree.node(at).kind)) * u128::from(length),
    };
    if !fits_above(tree, at, more) {
        return Err(OpRefusal::Quota);
    }
    let counters = tree.counters();
    tree.reserve(at)?;
    Ok(Plan {
        op: Op::AddBlock {
            path,
            id: counters.block + 1,
            stamp: counters.stamp + 1,
            length,
        },
        target: Target::At { at },
    })
}
