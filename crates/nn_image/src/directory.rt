// The children of a directory, as INODE_DIR has them.
ghost use Rattle.std.specs.Prelude.{◌≡◌, ◌++◌, [], true, Some, OnOk};
ghost use Rattle.std.specs.List.{flat_map};
ghost use Rattle.std.specs.FinMap as map;
ghost use Rattle.nn_tree.specs.declared.node.Node.{Node};
ghost use Rattle.nn_wire.specs.Varint.{varint};
ghost use Rattle.nn_message.specs.Spelling.{delimited, dir_entry};
ghost use Rattle.nn_image.specs.Image.{child_ids};
ghost use Rattle.nn_image.specs.Saving.{entry_text};

use nn_base::NoMemory;
use nn_message::{delimit, put_key, put_number};
use nn_tree::{Spot, Tree};
use nn_wire::varint_put;

fn put_children<T: Tree>(tree: &T, at: Spot, out: &mut Vec<u8>) -> Result<(), NoMemory>
    requires { T.has tree.now at ≡ true }
    ensures ok { OnOk result (out.new.items ≡ out.old.items ++
        flat_map varint (child_ids (T.meaning tree.now).nodes (T.place tree.now at))) }
{
    // That the tree is sound is told by its counters.
    let _counters = tree.counters();
    let mut next = tree.first_child(at);
    while let Some(child) = next {
        varint_put(tree.node(child).id, out)?;
        next = tree.next_sibling(child);
    }
    Ok(())
}

#[tactic(auto, using(nn_message::proofs::PutLemmas::closed))]
fn put_ids<T: Tree>(tree: &T, at: Spot, out: &mut Vec<u8>) -> Result<(), NoMemory>
    requires { T.has tree.now at ≡ true }
    ensures ok { OnOk result (out.new.items ≡ out.old.items ++ delimited
        (flat_map varint (child_ids (T.meaning tree.now).nodes (T.place tree.now at)))) }
{
    let start = out.len();
    put_children(tree, at, out)?;
    delimit(start, out)
}

#[tactic(auto, using(nn_message::proofs::PutLemmas::closed), unfolding(nn_message::specs::Spelling::dir_entry, nn_message::specs::Spelling::delimited))]
fn put_entry<T: Tree>(tree: &T, at: Spot, parent: u64, out: &mut Vec<u8>) -> Result<(), NoMemory>
    requires { T.has tree.now at ≡ true }
    ensures ok { OnOk result (out.new.items ≡ out.old.items ++ delimited (dir_entry (record {
      parent = parent;
      children = child_ids (T.meaning tree.now).nodes (T.place tree.now at);
    }))) }
{
    let start = out.len();
    put_number(1, parent, out)?;
    put_key(2, out)?;
    put_ids(tree, at, out)?;
    delimit(start, out)
}

/// The entry of the node here: there is none for a file, nor for an empty directory.
pub(crate) fn write_directory<T: Tree>(
    tree: &T,
    at: Spot,
    out: &mut Vec<u8>,
) -> Result<(), NoMemory>
    requires there { T.has tree.now at ≡ true }
    requires empty { out.old.items ≡ [] }
    ensures ok { (node : Node) →
        map.get (T.meaning tree.now).nodes (T.place tree.now at) ≡ Some node →
        OnOk result (out.new.items ≡
        entry_text (T.meaning tree.now).nodes (T.place tree.now at, node)) }
{
    let _counters = tree.counters();
    match tree.first_child(at) {
        None => Ok(()),
        Some(_) => put_entry(tree, at, tree.node(at).id, out),
    }
}
