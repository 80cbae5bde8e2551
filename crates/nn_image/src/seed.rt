// The tree that an image begins with: its root alone.
ghost use Rattle.std.specs.Prelude.{◌≡◌, [], true, IfOk};
ghost use Rattle.std.specs.FinMap as map;
ghost use Rattle.nn_tree.specs.declared.node.Node.{Node};
ghost use Rattle.nn_tree.specs.declared.node.Kind.TheVariants.{Dir};
ghost use Rattle.nn_tree.specs.Limits.{IsNode};
ghost use Rattle.nn_tree.specs.Nodes.{is_dir};
ghost use Rattle.nn_tree.specs.Changes.{changed, takes_change};

use crate::owners::Owners;
use crate::saver::root_of;
use nn_base::NoMemory;
use nn_message::Attributes;
use nn_quota::Quota;
use nn_tree::{Change, Spot, Tree};
use std::alloc::Global;

/// Changes the one node of a tree.
fn set_root<T: Tree>(tree: &mut T, root: Spot, change: Change)
    requires there { T.has tree.old root ≡ true }
    requires top { T.place tree.old root ≡ [] }
    requires alone { ((node : Node) × ((T.meaning tree.old).nodes ≡ map.insert map.empty [] node) × (is_dir node.kind ≡ true) × IsNode node × IsNode (changed change node)) }
    requires takes { takes_change (T.meaning tree.old).nodes [] change ≡ true }
    ensures means { (node : Node) → (T.meaning tree.old).nodes ≡ map.insert map.empty [] node →
        (T.meaning tree.new).nodes ≡ map.insert map.empty [] (changed change node) }
    ensures has { T.has tree.new ≡ T.has tree.old }
    ensures place { T.place tree.new ≡ T.place tree.old }
{
    tree.change(root, change);
}

/// A tree whose one node has these attributes.
pub(crate) fn new_tree<T: Tree>(
    alloc: Global,
    attributes: &Attributes,
    owners: &Owners,
    quota: Quota,
) -> Result<(T, Spot), NoMemory>
    requires { IsNode (record { id = 16385; owner = owners.now.owner; group = owners.now.group; mode = attributes.now.mode; time = attributes.now.time; kind = Dir quota }) }
    ensures means { IfOk result (λ made. (T.meaning made.0).nodes ≡ map.insert map.empty []
        (record { id = 16385; owner = owners.now.owner; group = owners.now.group; mode = attributes.now.mode; time = attributes.now.time; kind = Dir quota })) }
    ensures there { IfOk result (λ made. T.has made.0 made.1 ≡ true) }
    ensures top { IfOk result (λ made. T.place made.0 made.1 ≡ []) }
{
    let mut tree = T::new(alloc)?;
    let root = root_of(alloc, &tree);
    set_root(&mut tree, root, Change::Time(attributes.time));
    set_root(&mut tree, root, Change::Mode(attributes.mode));
    set_root(
        &mut tree,
        root,
        Change::Owner {
            owner: owners.owner,
            group: owners.group,
        },
    );
    set_root(&mut tree, root, Change::Quota(quota));
    Ok((tree, root))
}
