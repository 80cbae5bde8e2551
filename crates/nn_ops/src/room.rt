// Whether the quotas above a place, and the bounds of the namespace, leave room for more.
ghost use Rattle.std.specs.Prelude.{◌≡◌, ◌<◌, true, length, IfErr, OnOk, None, Some};
ghost use Rattle.nn_tree.specs.Namespace.{node_count};
ghost use Rattle.nn_ops.specs.Above.{parent_of, has_room, has_room_at};
ghost use Rattle.nn_ops.specs.Bounds.{is_full, is_full_at, is_bad_replication, is_bad_length};
ghost use Rattle.nn_ops.specs.Commands.{room_tests};
ghost use Rattle.nn_base.specs.First.{first_of};

use crate::OpRefusal;
use nn_base::Path;
use nn_base::limits::{
    MOST_BLOCK_LENGTH, MOST_BLOCKS, MOST_BLOCKS_OF_FILE, MOST_NODES, MOST_REPLICATION,
};
use nn_quota::{Usage, fits};
use nn_tree::{Spot, Tree, Walk};
use std::alloc::Global;

/// The last number that a counter may give: numbers are Hadoop's signed `long`s.
const LAST: u64 = 9_223_372_036_854_775_807;

/// Whether a replication is outside 1 to 512, the bound of HDFS (`dfs.replication.max`).
pub(crate) fn is_bad_replication(replication: u64) -> bool
    ensures { result ≡ is_bad_replication replication }
{
    replication == 0 || u64::from(MOST_REPLICATION) < replication
}

/// Whether a directory itself may take more.
pub(crate) fn fits_at<T: Tree>(tree: &T, at: Spot, more: Usage) -> bool
    requires { T.has tree.now at ≡ true }
    ensures { result ≡ has_room_at (T.meaning tree.now).nodes more (T.place tree.now at) }
{
    fits(tree.usage(at), more, tree.node(at).kind.quota())
}

/// Whether each directory above a node may take more.
pub(crate) fn fits_above<T: Tree>(tree: &T, at: Spot, more: Usage) -> bool
    requires { T.has tree.now at ≡ true }
    ensures { result ≡ has_room (T.meaning tree.now).nodes more (T.place tree.now at) }
{
    let mut below = at;
    while let Some(above) = tree.parent(below) {
        if !fits_at(tree, above, more) {
            return false;
        }
        below = above;
    }
    true
}

/// How many nodes there are.
fn node_count<T: Tree>(alloc: Global, tree: &T) -> u64
    ensures { result ≡ node_count (T.meaning tree.now).nodes }
{
    let _counters = tree.counters();
    match tree.find(&Path::root(alloc)) {
        Walk::Found(root) => tree.usage(root).names,
        Walk::Missing => unreachable!(),
        Walk::ThroughFile => unreachable!(),
    }
}

/// Whether the namespace takes no further node.
fn is_full<T: Tree>(alloc: Global, tree: &T) -> bool
    ensures { result ≡ is_full (T.meaning tree.now) }
{
    MOST_NODES <= node_count(alloc, tree) || LAST <= tree.counters().inode
}

/// Whether a block's length is outside 1 to 2^40 bytes.
pub(crate) fn is_bad_length(length: u64) -> bool
    ensures { result ≡ is_bad_length length }
{
    length == 0 || MOST_BLOCK_LENGTH < length
}

/// Whether a file takes no further block.
pub(crate) fn is_full_file<T: Tree>(tree: &T, at: Spot) -> bool
    requires { T.has tree.now at ≡ true }
    ensures { result ≡ is_full_at (T.meaning tree.now) (T.place tree.now at) }
{
    let counters = tree.counters();
    MOST_BLOCKS_OF_FILE <= tree.node(at).kind.block_count()
        || MOST_BLOCKS <= tree.blocks()
        || LAST <= counters.block
        || LAST <= counters.stamp
}

/// Whether a directory, and each above it, may take more.
pub(crate) fn fits_in<T: Tree>(tree: &T, parent: Spot, more: Usage) -> bool
    requires { T.has tree.now parent ≡ true }
    ensures { (p : _) → 0 < length p → T.place tree.now parent ≡ parent_of p → result ≡ has_room (T.meaning tree.now).nodes more p }
{
    fits_at(tree, parent, more) && fits_above(tree, parent, more)
}

/// Whether one node more may stand in a directory.
pub(crate) fn room_for_node<T: Tree>(alloc: Global, tree: &T, parent: Spot) -> Result<(), OpRefusal>
    requires { T.has tree.now parent ≡ true }
    ensures ok { (p : _) → 0 < length p → T.place tree.now parent ≡ parent_of p → OnOk result (first_of (room_tests (T.meaning tree.now) p) ≡ None) }
    ensures err { (p : _) → 0 < length p → T.place tree.now parent ≡ parent_of p → IfErr result (λ r. first_of (room_tests (T.meaning tree.now) p) ≡ Some r) }
{
    if is_full(alloc, tree) {
        return Err(OpRefusal::Limit);
    }
    if !fits_in(tree, parent, Usage { names: 1, space: 0 }) {
        return Err(OpRefusal::Quota);
    }
    Ok(())
}
