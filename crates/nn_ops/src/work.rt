// The single works that commands are made of.
ghost use Rattle.std.specs.Prelude.{◌≡◌, ◌≢◌, ◌<◌, ◌^◌, ◌∷◌, ◌++◌, [], true};
ghost use Rattle.nn_base.specs.Limits.{IsLong};
ghost use Rattle.nn_tree.specs.Changes.{with_nodes, change_at, with_block, cut, move};
ghost use Rattle.nn_ops.specs.Above.{parent_of};
ghost use Rattle.nn_ops.specs.Effects.{put_node, change, touch};
ghost use Rattle.nn_ops.specs.Plans.{CanPut, CanChange, CanAdd, CanMove};

use nn_base::Name;
use nn_tree::{Block, Change, Counters, Node, Spot, Tree};

/// Puts a node into a directory, whose time becomes that of the node.
pub(crate) fn put<T: Tree>(tree: &mut T, parent: Spot, name: Name, node: Node)
    requires { CanPut parent name node (T.has tree.old) (T.place tree.old) (T.spare tree.old) (T.meaning tree.old) }
    ensures { T.meaning tree.new ≡ put_node (T.place tree.old parent ++ name ∷ []) node (T.meaning tree.old) }
{
    let counters = tree.counters();
    let id = node.id;
    let time = node.time;
    let _made = tree.insert(parent, name, node);
    tree.change(parent, Change::Time(time));
    tree.set_counters(Counters {
        inode: id,
        block: counters.block,
        stamp: counters.stamp,
    });
}

/// Makes a change of one node.
pub(crate) fn change_node<T: Tree>(tree: &mut T, at: Spot, new: Change)
    requires { CanChange at new (T.has tree.old) (T.place tree.old) (T.meaning tree.old) }
    ensures means { T.meaning tree.new ≡ with_nodes (T.meaning tree.old) (change (T.place tree.old at) new (T.meaning tree.old).nodes) }
    ensures has { T.has tree.new ≡ T.has tree.old }
    ensures place { T.place tree.new ≡ T.place tree.old }
{
    let _counters = tree.counters();
    tree.change(at, new);
}

/// Adds a block to a file, with the last block id and stamp that were given.
pub(crate) fn add_block<T: Tree>(tree: &mut T, at: Spot, block: Block)
    requires { CanAdd at block (T.has tree.old) (T.place tree.old) (T.spare tree.old) (T.meaning tree.old) }
    ensures { T.meaning tree.new ≡ record { nodes = change_at (T.place tree.old at) (with_block block) (T.meaning tree.old).nodes; counters = record (T.meaning tree.old).counters { block = block.id; stamp = block.stamp } } }
{
    let counters = tree.counters();
    let _node = tree.node(at);
    tree.add_block(at, block);
    tree.set_counters(Counters {
        inode: counters.inode,
        block: block.id,
        stamp: block.stamp,
    });
}

/// Removes a node with all below it, and sets the time of its directory.
pub(crate) fn remove_node<T: Tree>(tree: &mut T, at: Spot, time: u64)
    requires there { T.has tree.old at ≡ true }
    requires below_root { T.place tree.old at ≢ [] }
    requires time { IsLong time }
    ensures { T.meaning tree.new ≡ with_nodes (T.meaning tree.old) (touch (parent_of (T.place tree.old at)) time (cut (T.place tree.old at) (T.meaning tree.old).nodes)) }
{
    match tree.parent(at) {
        Some(above) => {
            tree.remove(at);
            change_node(tree, above, Change::Time(time));
        }
        None => unreachable!(),
    }
}

/// Moves a node, with all below it, and sets the times of both directories.
pub(crate) fn move_node<T: Tree>(tree: &mut T, at: Spot, parent: Spot, name: Name, time: u64)
    requires can { CanMove at parent name (T.has tree.old) (T.place tree.old) (T.meaning tree.old) }
    requires time { IsLong time }
    ensures { T.meaning tree.new ≡ with_nodes (T.meaning tree.old) (touch (T.place tree.old parent) time (touch (parent_of (T.place tree.old at)) time (move (T.place tree.old at) (T.place tree.old parent ++ name ∷ []) (T.meaning tree.old).nodes))) }
{
    match tree.parent(at) {
        Some(above) => {
            tree.relink(at, parent, name);
            change_node(tree, above, Change::Time(time));
            change_node(tree, parent, Change::Time(time));
        }
        None => unreachable!(),
    }
}
