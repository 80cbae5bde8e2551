// The commands that change the attributes of a node: `chmod`, `chown`, `quota` and `setrep`.
ghost use Rattle.std.specs.Prelude.{◌≡◌, ◌≢◌, ◌<◌, ◌≤◌, ◌-◌, ◌*◌, IfOk, IfErr, Some};
ghost use Rattle.nn_base.specs.Limits.{most_mode, most_replication};
ghost use Rattle.nn_tree.specs.Limits.{IsKind};
ghost use Rattle.nn_tree.specs.Nodes.{blocks_of, length_of, space_of};
ghost use Rattle.nn_ops.specs.Bounds.{is_zero};
ghost use Rattle.nn_quota.specs.Quotas.{IsQuota};
ghost use Rattle.nn_ops.specs.Plans.{IsReady};
ghost use Rattle.nn_ops.specs.Step.{refusal_of};
ghost use Rattle.nn_ops.specs.declared.command.Command.{Command};
ghost use Rattle.nn_record.specs.declared.op.Op.{Op};

use crate::OpRefusal;
use crate::places::{file_at, node_at};
use crate::plan::{Plan, Target};
use crate::room::{fits_above, is_bad_replication};
use nn_base::{Label, Path};
use nn_quota::{Quota, Usage};
use nn_record::Op;
use nn_tree::{Kind, Tree};

/// Tests a `chmod`.
pub(crate) fn prepare_chmod<T: Tree>(tree: &T, path: Path, mode: u16) -> Result<Plan, OpRefusal>
    requires { mode ≤ most_mode }
    ensures body { IfOk result (λ plan. plan.op ≡ Op.SetPermissions path mode) }
    ensures ready { IfOk result (λ plan. IsReady plan (T.has tree.now) (T.place tree.now) (T.spare tree.now) (T.meaning tree.now)) }
    ensures err { IfErr result (λ r. r ≢ OpRefusal.Memory → refusal_of (T.meaning tree.now) (Command.Chmod path mode) ≡ Some r) }
{
    let at = node_at(tree, &path)?;
    Ok(Plan {
        op: Op::SetPermissions { path, mode },
        target: Target::At { at },
    })
}

/// Tests a `chown`.
pub(crate) fn prepare_chown<T: Tree>(
    tree: &T,
    path: Path,
    owner: Label,
    group: Label,
) -> Result<Plan, OpRefusal>
    ensures body { IfOk result (λ plan. plan.op ≡ Op.SetOwner path owner group) }
    ensures ready { IfOk result (λ plan. IsReady plan (T.has tree.now) (T.place tree.now) (T.spare tree.now) (T.meaning tree.now)) }
    ensures err { IfErr result (λ r. r ≢ OpRefusal.Memory → refusal_of (T.meaning tree.now) (Command.Chown path owner group) ≡ Some r) }
{
    let at = node_at(tree, &path)?;
    Ok(Plan {
        op: Op::SetOwner { path, owner, group },
        target: Target::At { at },
    })
}

/// Tests a `quota`.
pub(crate) fn prepare_quota<T: Tree>(tree: &T, path: Path, quota: Quota) -> Result<Plan, OpRefusal>
    requires { IsQuota quota }
    ensures body { IfOk result (λ plan. plan.op ≡ Op.SetQuota path quota) }
    ensures ready { IfOk result (λ plan. IsReady plan (T.has tree.now) (T.place tree.now) (T.spare tree.now) (T.meaning tree.now)) }
    ensures err { IfErr result (λ r. r ≢ OpRefusal.Memory → refusal_of (T.meaning tree.now) (Command.SetQuota path quota) ≡ Some r) }
{
    let at = node_at(tree, &path)?;
    if !tree.node(at).kind.is_dir() {
        return Err(OpRefusal::NotDir);
    }
    if is_zero(quota.names) {
        return Err(OpRefusal::Limit);
    }
    Ok(Plan {
        op: Op::SetQuota { path, quota },
        target: Target::At { at },
    })
}

/// Whether a quota of names is one that not even the directory itself fits.
fn is_zero(names: Option<u64>) -> bool
    ensures { result ≡ is_zero names }
{
    match names {
        None => false,
        Some(names) => names == 0,
    }
}

/// The bytes that a node takes more with another replication.
fn growth(kind: &Kind, replication: u64) -> u128
    requires kind { IsKind kind.now }
    requires few { replication ≤ most_replication }
    ensures { result ≡ replication * length_of (blocks_of kind.now) - space_of kind.now }
{
    let space = u128::from(kind.space());
    match kind {
        Kind::File { blocks, .. } => (u128::from(replication)
            * u128::from(blocks.length())).saturating_sub(space),
        Kind::Dir { .. } => 0,
    }
}

/// Tests a `setrep`.
pub(crate) fn prepare_setrep<T: Tree>(
    tree: &T,
    path: Path,
    replication: u64,
) -> Result<Plan, OpRefusal>
    ensures body { IfOk result (λ plan. plan.op ≡ Op.SetReplication path replication) }
    ensures ready { IfOk result (λ plan. IsReady plan (T.has tree.now) (T.place tree.now) (T.spare tree.now) (T.meaning tree.now)) }
    ensures err { IfErr result (λ r. r ≢ OpRefusal.Memory → refusal_of (T.meaning tree.now) (Command.Setrep path replication) ≡ Some r) }
{
    let at = file_at(tree, &path)?;
    if is_bad_replication(replication) {
        return Err(OpRefusal::Limit);
    }
    let _counters = tree.counters();
    let more = Usage {
        names: 0,
        space: growth(&tree.node(at).kind, replication),
    };
    if !fits_above(tree, at, more) {
        return Err(OpRefusal::Quota);
    }
    Ok(Plan {
        op: Op::SetReplication {
            path,
            replication: replication as u16,
        },
        target: Target::At { at },
    })
}
