// What a tree is.
ghost use Rattle.std.specs.Prelude.{◌≡◌, ◌≢◌, ◌<◌, ◌-◌, ◌∷◌, ◌++◌, [], length, take, Some, None, true, false, IfOk, OnOk, Bool};
ghost use Rattle.std.specs.FinMap as map;
ghost use Rattle.nn_base.specs.Paths.{Names, is_under};
ghost use Rattle.nn_tree.specs.declared.spot.Spot.{Spot};

use crate::{Block, Change, Counters, Node, Spot, Walk};
use nn_base::{Name, NoMemory, Path};
use nn_quota::Usage;
use std::alloc::Global;

/// A namespace held in memory, by nodes that keep their spots. Each call that takes a spot needs
/// that it names a node of this tree.
pub trait Tree: Sized + Drop {
    ghost use Rattle.nn_tree.specs.Namespace.{Namespace, usage_of, block_count, is_dir_at, is_file_at, empty_namespace};
    ghost use Rattle.nn_tree.specs.Limits.{IsWithinLimits, IsCounters};
    ghost use Rattle.nn_tree.specs.Imaged.{IsImaged};
    ghost use Rattle.nn_tree.specs.Changes.{with_nodes, moved, move, cut, change_at, changed, with_block, takes_change};
    ghost use Rattle.nn_tree.specs.Walks.{IsWalk};
    ghost use Rattle.nn_tree.specs.Spots.{IsSound, last_name, IsParent, IsNextChild, Keeps, Removes, Spare, KeepsBlockRoom, KeepsSpare};

    /// The namespace that the tree means.
    ghost meaning: { Self → Namespace };

    /// Whether a spot names a node of the tree.
    ghost has: { Self → Spot → Bool };

    /// The path of the node that a spot names.
    ghost place: { Self → Spot → Names };

    /// What needs no memory: one node more, and at some spots one block more.
    ghost spare: { Self → Spare };

    /// The empty namespace, which can be saved.
    fn new(alloc: Global) -> Result<Self, NoMemory>
        ensures empty { IfOk result (λ t. meaning t ≡ empty_namespace) }
        ensures imaged { IfOk result (λ t. IsImaged (meaning t)) };

    /// Walks along a path from the root, to its node or to the first obstacle.
    fn find(&self, path: &Path) -> Walk
        ensures walk { IsWalk result (has self.now) (place self.now)
            (meaning self.now).nodes path.now }
        ensures sound { IsSound (meaning self.now) (has self.now) (place self.now) };

    /// Walks along a path other than the root's, up to the directory above.
    fn find_above(&self, path: &Path) -> Walk
        requires { 0 < length path.now }
        ensures { IsWalk result (has self.now) (place self.now)
            (meaning self.now).nodes (take (length path.now - 1) path.now) };

    fn node(&self, at: Spot) -> &Node
        requires { has self.now at ≡ true }
        ensures { map.get (meaning self.now).nodes (place self.now at) ≡ Some result.now };

    /// The name of a node in its directory, empty for the root.
    fn name(&self, at: Spot) -> &[u8]
        requires { has self.now at ≡ true }
        ensures { result.now ≡ last_name (place self.now at) };

    /// How many names there are at and below a node, and the space of the files among them.
    fn usage(&self, at: Spot) -> Usage
        requires { has self.now at ≡ true }
        ensures { result ≡ usage_of (meaning self.now).nodes (place self.now at) };

    /// How many blocks there are in the whole tree.
    fn blocks(&self) -> u64
        ensures { result ≡ block_count (meaning self.now).nodes };

    /// The directory above a node; the root has none.
    fn parent(&self, at: Spot) -> Option<Spot>
        requires { has self.now at ≡ true }
        ensures { IsParent result (has self.now) (place self.now) (place self.now at) };

    /// The child whose name comes first, in byte order.
    fn first_child(&self, at: Spot) -> Option<Spot>
        requires { has self.now at ≡ true }
        ensures { IsNextChild result (has self.now) (place self.now)
            (meaning self.now).nodes (place self.now at) [] };

    /// The node of the same directory whose name comes next, in byte order.
    fn next_sibling(&self, at: Spot) -> Option<Spot>
        requires { has self.now at ≡ true }
        ensures root { place self.now at ≡ [] → result ≡ None }
        ensures next { (p : Names) (name : _) → place self.now at ≡ p ++ name ∷ [] →
            IsNextChild result (has self.now) (place self.now) (meaning self.now).nodes p name };

    fn counters(&self) -> Counters
        ensures value { result ≡ (meaning self.now).counters }
        ensures sound { IsSound (meaning self.now) (has self.now) (place self.now) };

    fn set_counters(&mut self, to: Counters)
        requires { IsCounters to }
        ensures means { meaning self.new ≡
            record { nodes = (meaning self.old).nodes; counters = to } }
        ensures has { has self.new ≡ has self.old }
        ensures place { place self.new ≡ place self.old }
        ensures room { spare self.new ≡ spare self.old };

    /// Makes room for one node anywhere in the tree and for one block more at a spot. Without memory
    /// the namespace is as before.
    fn reserve(&mut self, at: Spot) -> Result<(), NoMemory>
        requires { has self.old at ≡ true }
        ensures node { OnOk result ((spare self.new).node ≡ true) }
        ensures block { OnOk result ((spare self.new).block at ≡ true) }
        ensures means { meaning self.new ≡ meaning self.old }
        ensures has { has self.new ≡ has self.old }
        ensures place { place self.new ≡ place self.old };

    /// Puts a node into a directory, in the room that `reserve` made for it.
    fn insert(&mut self, parent: Spot, name: Name, node: Node) -> Spot
        requires there { has self.old parent ≡ true }
        requires in_dir { is_dir_at (meaning self.old).nodes (place self.old parent) ≡ true }
        requires free { map.get (meaning self.old).nodes
            (place self.old parent ++ name ∷ []) ≡ None }
        requires limits { IsWithinLimits
            (map.insert (meaning self.old).nodes (place self.old parent ++ name ∷ []) node) }
        requires room { (spare self.old).node ≡ true }
        ensures means { meaning self.new ≡ with_nodes (meaning self.old)
            (map.insert (meaning self.old).nodes (place self.old parent ++ name ∷ []) node) }
        ensures keeps { Keeps (has self.old) (has self.new) (place self.old) (place self.new)
            (λ p. p) }
        ensures spot { has self.new result ≡ true }
        ensures at { place self.new result ≡ place self.old parent ++ name ∷ [] }
        ensures room { KeepsBlockRoom (has self.old) (spare self.old) (spare self.new) };

    /// Puts a block behind those of a file, in the room that `reserve` made for it.
    fn add_block(&mut self, at: Spot, block: Block)
        requires there { has self.old at ≡ true }
        requires file { is_file_at (meaning self.old).nodes (place self.old at) ≡ true }
        requires limits { IsWithinLimits
            (change_at (place self.old at) (with_block block) (meaning self.old).nodes) }
        requires room { (spare self.old).block at ≡ true }
        ensures means { meaning self.new ≡ with_nodes (meaning self.old)
            (change_at (place self.old at) (with_block block) (meaning self.old).nodes) }
        ensures has { has self.new ≡ has self.old }
        ensures place { place self.new ≡ place self.old }
        ensures room { (spare self.new).node ≡ (spare self.old).node };

    /// Makes a change of one node.
    fn change(&mut self, at: Spot, change: Change)
        requires there { has self.old at ≡ true }
        requires takes { takes_change (meaning self.old).nodes (place self.old at) change ≡ true }
        requires limits { IsWithinLimits
            (change_at (place self.old at) (changed change) (meaning self.old).nodes) }
        ensures means { meaning self.new ≡ with_nodes (meaning self.old)
            (change_at (place self.old at) (changed change) (meaning self.old).nodes) }
        ensures has { has self.new ≡ has self.old }
        ensures place { place self.new ≡ place self.old }
        ensures room { spare self.new ≡ spare self.old };

    /// Takes a node away with all below it.
    fn remove(&mut self, at: Spot)
        requires there { has self.old at ≡ true }
        requires below_root { place self.old at ≢ [] }
        ensures means { meaning self.new ≡ with_nodes (meaning self.old)
            (cut (place self.old at) (meaning self.old).nodes) }
        ensures removes { Removes (place self.old at) (has self.old) (has self.new)
            (place self.old) (place self.new) }
        ensures room { KeepsSpare (has self.new) (spare self.old) (spare self.new) };

    /// Moves a node, with all below it, into a directory under a name. Spots stay with their nodes.
    fn relink(&mut self, at: Spot, parent: Spot, name: Name)
        requires there { has self.old at ≡ true }
        requires below_root { place self.old at ≢ [] }
        requires to { has self.old parent ≡ true }
        requires in_dir { is_dir_at (meaning self.old).nodes (place self.old parent) ≡ true }
        requires outside { is_under (place self.old at) (place self.old parent) ≡ false }
        requires free { map.get (meaning self.old).nodes
            (place self.old parent ++ name ∷ []) ≡ None }
        ensures means { meaning self.new ≡ with_nodes (meaning self.old)
            (move (place self.old at) (place self.old parent ++ name ∷ [])
            (meaning self.old).nodes) }
        ensures keeps { Keeps (has self.old) (has self.new) (place self.old) (place self.new)
            (moved (place self.old at) (place self.old parent ++ name ∷ [])) }
        ensures room { KeepsSpare (has self.new) (spare self.old) (spare self.new) };
}
