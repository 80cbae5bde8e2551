// Doing what was planned.
ghost use Rattle.std.specs.Prelude.{◌≡◌};
ghost use Rattle.nn_tree.specs.Imaged.{IsImaged};
ghost use Rattle.nn_ops.specs.Effects.{effect};
ghost use Rattle.nn_ops.specs.Plans.{IsReady};
ghost use Rattle.nn_ops.specs.declared.plan.Target.TheVariants.{At};

use crate::plan::{Plan, Target};
use crate::work::{add_block, change_node, move_node, put, remove_node};
use nn_record::Op;
use nn_tree::{Block, Change, Spot, Tree};

/// Does what was planned, and takes no memory. The plan is one that `prepare` made for this tree, and nothing changed the tree since. A namespace that could be saved still can.
pub fn apply<T: Tree>(tree: &mut T, plan: Plan)
    requires { IsReady plan (T.has tree.old) (T.place tree.old) (T.spare tree.old) (T.meaning tree.old) }
    ensures done { T.meaning tree.new ≡ effect plan.op (T.meaning tree.old) }
    ensures imaged { IsImaged (T.meaning tree.old) → IsImaged (T.meaning tree.new) }
{
    carry_out(tree, plan);
}

fn carry_out<T: Tree>(tree: &mut T, plan: Plan)
    requires { IsReady plan (T.has tree.old) (T.place tree.old) (T.spare tree.old) (T.meaning tree.old) }
    ensures { T.meaning tree.new ≡ effect plan.op (T.meaning tree.old) }
{
    let Plan { op, target } = plan;
    match target {
        Target::New { parent, name, node } => put(tree, parent, name, node),
        Target::At { at } => apply_at(tree, at, op),
        Target::Move { at, parent, name } => match op {
            Op::RenameOld { time, .. } => move_node(tree, at, parent, name, time),
            _ => unreachable!(),
        },
    }
}

/// Does what a body says of a node that is there.
fn apply_at<T: Tree>(tree: &mut T, at: Spot, op: Op)
    requires { IsReady (record { op = op; target = At at }) (T.has tree.old) (T.place tree.old) (T.spare tree.old) (T.meaning tree.old) }
    ensures { T.meaning tree.new ≡ effect op (T.meaning tree.old) }
{
    match op {
        Op::AddBlock {
            id,
            stamp,
            length,
            ..
        } => add_block(tree, at, Block { id, stamp, length }),
        Op::Close { time, .. } => {
            change_node(tree, at, Change::Closed);
            change_node(tree, at, Change::Time(time));
        }
        Op::Delete { time, .. } => remove_node(tree, at, time),
        Op::SetReplication { replication, .. } => {
            change_node(tree, at, Change::Replication(replication));
        }
        Op::SetPermissions { mode, .. } => change_node(tree, at, Change::Mode(mode)),
        Op::SetOwner { owner, group, .. } => {
            change_node(tree, at, Change::Owner { owner, group });
        }
        Op::SetQuota { quota, .. } => change_node(tree, at, Change::Quota(quota)),
        _ => unreachable!(),
    }
}
