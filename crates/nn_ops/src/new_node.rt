// The commands that make a node: `mkdir` and `create`.
ghost use Rattle.std.specs.Prelude.{◌≡◌, ◌≢◌, ◌<◌, ◌≤◌, ◌+◌, ◌^◌, ◌∷◌, ◌++◌, [], true, IfOk, IfErr, OnOk, None, Some};
ghost use Rattle.nn_base.specs.Limits.{IsLong};
ghost use Rattle.nn_tree.specs.Namespace.{hdfs};
ghost use Rattle.nn_tree.specs.Nodes.{no_quota};
ghost use Rattle.nn_ops.specs.Bodies.{op_of};
ghost use Rattle.nn_ops.specs.Plans.{IsReady};
ghost use Rattle.nn_ops.specs.Step.{refusal_of};
ghost use Rattle.nn_tree.specs.declared.node.Kind.{Kind};
ghost use Rattle.nn_ops.specs.declared.command.Command.{Command};

use crate::OpRefusal;
use crate::places::free_place;
use crate::plan::{Plan, Target};
use crate::room::{is_bad_replication, room_for_node};
use nn_base::{Label, Path};
use nn_quota::Quota;
use nn_record::Op;
use nn_tree::{Blocks, Kind, Node, Tree};
use std::alloc::Global;

/// The owner of each new node, as HDFS's superuser.
fn hdfs() -> Label
    ensures { result ≡ hdfs }
{
    match Label::of(b"hdfs") {
        Some(label) => label,
        None => unreachable!(),
    }
}

/// Tests a `mkdir`, and makes room for it.
pub(crate) fn prepare_mkdir<T: Tree>(
    alloc: Global,
    tree: &mut T,
    path: Path,
    now: u64,
) -> Result<Plan, OpRefusal>
    requires { IsLong now }
    ensures body { IfOk result (λ plan. plan.op ≡ op_of (T.meaning tree.old) (Command.Mkdir path) now) }
    ensures ready { IfOk result (λ plan. IsReady plan (T.has tree.new) (T.place tree.new) (T.spare tree.new) (T.meaning tree.new)) }
    ensures err { IfErr result (λ r. r ≢ OpRefusal.Memory → refusal_of (T.meaning tree.old) (Command.Mkdir path) ≡ Some r) }
    ensures means { T.meaning tree.new ≡ T.meaning tree.old }
    ensures has { T.has tree.new ≡ T.has tree.old }
    ensures place { T.place tree.new ≡ T.place tree.old }
{
    let parent = free_place(tree, &path)?;
    room_for_node(alloc, tree, parent)?;
    let name = path.last_name(alloc)?;
    let owner = hdfs();
    let group = tree.node(parent).group;
    let inode = tree.counters().inode + 1;
    tree.reserve(parent)?;
    Ok(Plan {
        op: Op::Mkdir {
            inode,
            path,
            time: now,
            owner,
            group,
            mode: 0o755,
        },
        target: Target::New {
            parent,
            name,
            node: Node {
                id: inode,
                owner,
                group,
                mode: 0o755,
                time: now,
                kind: empty_directory(),
            },
        },
    })
}

fn empty_directory() -> Kind
    ensures { result ≡ Kind.Dir no_quota }
{
    Kind::Dir {
        quota: Quota {
            names: None,
            space: None,
        },
    }
}

fn empty_file(alloc: Global, replication: u16) -> Kind
    ensures { result ≡ Kind.File replication true [] }
{
    Kind::File {
        replication,
        is_open: true,
        blocks: Blocks {
            list: Vec::new(alloc),
        },
    }
}

/// Tests a `create`, and makes room for it.
pub(crate) fn prepare_create<T: Tree>(
    alloc: Global,
    tree: &mut T,
    path: Path,
    replication: u64,
    now: u64,
) -> Result<Plan, OpRefusal>
    requires { IsLong now }
    ensures body { IfOk result (λ plan. plan.op ≡ op_of (T.meaning tree.old) (Command.Create path replication) now) }
    ensures ready { IfOk result (λ plan. IsReady plan (T.has tree.new) (T.place tree.new) (T.spare tree.new) (T.meaning tree.new)) }
    ensures err { IfErr result (λ r. r ≢ OpRefusal.Memory → refusal_of (T.meaning tree.old) (Command.Create path replication) ≡ Some r) }
    ensures means { T.meaning tree.new ≡ T.meaning tree.old }
    ensures has { T.has tree.new ≡ T.has tree.old }
    ensures place { T.place tree.new ≡ T.place tree.old }
{
    let parent = free_place(tree, &path)?;
    if is_bad_replication(replication) {
        return Err(OpRefusal::Limit);
    }
    room_for_node(alloc, tree, parent)?;
    let replication = replication as u16;
    let name = path.last_name(alloc)?;
    let owner = hdfs();
    let group = tree.node(parent).group;
    let inode = tree.counters().inode + 1;
    tree.reserve(parent)?;
    Ok(Plan {
        op: Op::Add {
            inode,
            path,
            replication,
            time: now,
            owner,
            group,
            mode: 0o644,
        },
        target: Target::New {
            parent,
            name,
            node: Node {
                id: inode,
                owner,
                group,
                mode: 0o644,
                time: now,
                kind: empty_file(alloc, replication),
            },
        },
    })
}
