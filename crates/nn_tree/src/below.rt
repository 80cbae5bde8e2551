// The walk over a tree in the order of paths.
ghost use Rattle.std.specs.Prelude.{◌≡◌, None, true, []};
ghost use Rattle.nn_base.specs.Paths.{is_under};
ghost use Rattle.nn_tree.specs.Spots.{IsSound, IsNextChild};
ghost use Rattle.nn_tree.specs.Below.{IsNextBelow};

use crate::{Spot, Tree};

/// The node that comes after this one in the order of paths, among those at and below `top`: a
/// directory comes before what is in it, and what is in it by the bytes of the names. A walk that
/// starts at `top` visits each node there once, and it needs no memory.
pub fn next_below<T: Tree>(tree: &T, at: Spot, top: Spot) -> Option<Spot>
    requires at { T.has tree.now at ≡ true }
    requires top { T.has tree.now top ≡ true }
    requires under { is_under (T.place tree.now top) (T.place tree.now at) ≡ true }
    ensures { IsNextBelow result (T.has tree.now) (T.place tree.now) (T.meaning tree.now).nodes
        (T.place tree.now top) (T.place tree.now at) }
{
    // That the tree is sound is told by its counters.
    let _counters = tree.counters();
    match tree.first_child(at) {
        Some(child) => Some(child),
        None => next_past(tree, at, top),
    }
}

/// The node that comes after one without children: the next sibling of it, or else of the nearest
/// directory above it, below `top`, that has one.
fn next_past<T: Tree>(tree: &T, at: Spot, top: Spot) -> Option<Spot>
    requires at { T.has tree.now at ≡ true }
    requires top { T.has tree.now top ≡ true }
    requires under { is_under (T.place tree.now top) (T.place tree.now at) ≡ true }
    requires sound { IsSound (T.meaning tree.now) (T.has tree.now) (T.place tree.now) }
    requires childless { IsNextChild None (T.has tree.now) (T.place tree.now)
        (T.meaning tree.now).nodes (T.place tree.now at) [] }
    ensures { IsNextBelow result (T.has tree.now) (T.place tree.now) (T.meaning tree.now).nodes
        (T.place tree.now top) (T.place tree.now at) }
{
    let mut last = at;
    'climb: while last != top {
        match tree.next_sibling(last) {
            Some(sibling) => return Some(sibling),
            None => last = tree.parent(last)?,
        }
    }
    None
}
