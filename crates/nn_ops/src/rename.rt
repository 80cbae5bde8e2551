// The command `rename`.
ghost use Rattle.std.specs.Prelude.{◌≡◌, ◌≢◌, ◌<◌, ◌≤◌, ◌^◌, ◌∷◌, ◌++◌, [], ◌||◌, true, false, length, IfOk, IfErr, OnOk, None, Some};
ghost use Rattle.nn_base.specs.Paths.{joined, is_under};
ghost use Rattle.nn_tree.specs.Namespace.{usage_of};
ghost use Rattle.nn_ops.specs.Above.{parent_of, is_above, shared, has_room_but};
ghost use Rattle.nn_ops.specs.Bodies.{op_of};
ghost use Rattle.nn_ops.specs.Bounds.{moves_short, TellsShort};
ghost use Rattle.nn_ops.specs.Commands.{moved_tests};
ghost use Rattle.nn_ops.specs.Plans.{IsReady};
ghost use Rattle.nn_base.specs.First.{first_of};
ghost use Rattle.nn_base.specs.Limits.{most_levels, most_path, IsLong};
ghost use Rattle.nn_ops.specs.Step.{refusal_of};
ghost use Rattle.nn_ops.specs.declared.command.Command.{Command};

use crate::OpRefusal;
use crate::places::{free_place, is_root, node_at};
use crate::plan::{Plan, Target};
use crate::room::fits_at;
use nn_base::Path;
use nn_base::limits::{MOST_LEVELS, MOST_PATH};
use nn_record::Op;
use nn_tree::{Spot, Tree};
use std::alloc::Global;

/// How many names two paths have in common, from the root on.
fn shared(a: &Path, b: &Path) -> usize
    ensures { result ≡ shared a.now b.now }
{
    let most = a.depth().min(b.depth());
    let mut ours = a.components();
    let mut theirs = b.components();
    for k in 0..most {
        if ours.take_name() != theirs.take_name() {
            return k;
        }
    }
    most
}

/// Whether a path is a proper prefix of another.
fn is_above(a: &Path, b: &Path) -> bool
    ensures { result ≡ is_above a.now b.now }
{
    shared(a, b) == a.depth() && a.depth() < b.depth()
}

/// The node that moves.
fn moved_node<T: Tree>(tree: &T, from: &Path, to: &Path) -> Result<Spot, OpRefusal>
    ensures there { IfOk result (λ spot. T.has tree.now spot ≡ true) }
    ensures at { IfOk result (λ spot. T.place tree.now spot ≡ from.now) }
    ensures ok { OnOk result (first_of (moved_tests (T.meaning tree.now).nodes from.now to.now) ≡ None) }
    ensures err { IfErr result (λ r. first_of (moved_tests (T.meaning tree.now).nodes from.now to.now) ≡ Some r) }
{
    if is_root(from) || is_root(to) {
        return Err(OpRefusal::Root);
    }
    let at = node_at(tree, from)?;
    if is_above(from, to) {
        return Err(OpRefusal::Under);
    }
    Ok(at)
}

/// The bytes of a path's text, but 0 for the root.
fn text_size(path: &Path) -> usize
    ensures size { result ≡ length (joined path.now) }
    ensures few { result ≤ most_path }
{
    if path.depth() == 0 {
        return 0;
    }
    path.bytes().len()
}

/// Whether all below a node get paths that are short enough, where its own new path has so many levels and bytes.
fn below_is_short<T: Tree>(tree: &T, at: Spot, levels: usize, size: usize) -> bool
    requires there { T.has tree.now at ≡ true }
    requires levels { levels ≤ most_levels }
    requires size { size ≤ most_path }
    ensures { TellsShort result (T.meaning tree.now).nodes (T.place tree.now at) levels size }
{
    let _counters = tree.counters();
    let mut next = tree.first_child(at);
    while let Some(child) = next {
        let longer = size + 1 + tree.name(child).len();
        if levels == MOST_LEVELS {
            return false;
        }
        if MOST_PATH < longer {
            return false;
        }
        if !below_is_short(tree, child, levels + 1, longer) {
            return false;
        }
        next = tree.next_sibling(child);
    }
    true
}

/// Whether a node, and all below it, get paths that are short enough.
fn moves_short<T: Tree>(tree: &T, at: Spot, to: &Path) -> bool
    requires { T.has tree.now at ≡ true }
    ensures { result ≡ moves_short (T.meaning tree.now).nodes (T.place tree.now at) to.now }
{
    below_is_short(tree, at, to.depth(), text_size(to))
}

/// Whether the directories above the new place, but for those that are above the old one too, may take what moves.
fn fits_move<T: Tree>(tree: &T, at: Spot, parent: Spot, from: &Path, to: &Path) -> bool
    requires there { T.has tree.now at ≡ true }
    requires at { T.place tree.now at ≡ from.now }
    requires parent { T.has tree.now parent ≡ true }
    requires above { T.place tree.now parent ≡ parent_of to.now }
    requires below_root { 0 < length to.now }
    requires outside { is_under from.now to.now ≡ false }
    ensures { result ≡ has_room_but (T.meaning tree.now).nodes (λ q. is_above q from.now) (usage_of (T.meaning tree.now).nodes from.now) to.now }
{
    let more = tree.usage(at);
    let common = shared(to, from);
    let mut level = to.depth() - 1;
    let mut dir = parent;
    while level > common {
        if !fits_at(tree, dir, more) {
            return false;
        }
        let Some(above) = tree.parent(dir) else {
            unreachable!();
        };
        dir = above;
        level -= 1;
    }
    true
}

/// Tests a `rename`.
pub(crate) fn prepare_rename<T: Tree>(
    alloc: Global,
    tree: &T,
    from: Path,
    to: Path,
    now: u64,
) -> Result<Plan, OpRefusal>
    requires { IsLong now }
    ensures body { IfOk result (λ plan. plan.op ≡ op_of (T.meaning tree.now) (Command.Rename from to) now) }
    ensures ready { IfOk result (λ plan. IsReady plan (T.has tree.now) (T.place tree.now) (T.spare tree.now) (T.meaning tree.now)) }
    ensures err { IfErr result (λ r. r ≢ OpRefusal.Memory → refusal_of (T.meaning tree.now) (Command.Rename from to) ≡ Some r) }
{
    let at = moved_node(tree, &from, &to)?;
    let parent = free_place(tree, &to)?;
    if !moves_short(tree, at, &to) {
        return Err(OpRefusal::Limit);
    }
    if !fits_move(tree, at, parent, &from, &to) {
        return Err(OpRefusal::Quota);
    }
    // That the path is one is told by its depth.
    let _depth = to.depth();
    let name = to.last_name(alloc)?;
    Ok(Plan {
        op: Op::RenameOld {
            from,
            to,
            time: now,
        },
        target: Target::Move { at, parent, name },
    })
}
