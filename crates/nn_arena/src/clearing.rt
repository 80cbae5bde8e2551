// To free a node with all below it.
ghost use Rattle.std.specs.Prelude.{◌≡◌, ◌≢◌, ◌<◌, suc, Some, None, true, [], is_some};
ghost use Rattle.nn_tree.specs.declared.spot.Spot.{Spot as ASpot};
ghost use Rattle.nn_tree.specs.Namespace.{node_count};
ghost use Rattle.nn_tree.specs.Links.{nodes_of, has_place, place_of};
ghost use Rattle.nn_tree.specs.Changes.{cut};
ghost use Rattle.nn_tree.specs.Spots.{Removes};
ghost use Rattle.nn_arena.specs.Places.{links_of, entry_at, AreAlikeBut};
ghost use Rattle.nn_arena.specs.Changes.{KeepNodes, IsClearedBelow};

use crate::arena::Arena;
use crate::link;
use crate::place::Place;

impl Arena {
    /// Frees a node that has no children. A sibling before it may be told, near it.
    fn free_leaf(&mut self, at: usize, near: Option<usize>)
        requires there { has_place (links_of self.old.places.items) at ≡ true }
        requires below_root { 0 < at }
        requires leaf { (e : _) → entry_at self.old.places.items at ≡ Some e → e.first ≡ None }
        ensures alike { AreAlikeBut self.old.places.items self.new.places.items at }
        ensures free { entry_at self.new.places.items at ≡ None }
        ensures grown { is_some self.new.free ≡ true }
        ensures fewer { node_count (nodes_of (links_of self.old.places.items)) ≡ suc (node_count (nodes_of (links_of self.new.places.items))) }
    {
        let gone = link::take(&mut self.places, at, near);
        self.blocks -= gone.node.kind.block_count() as u64;
        self.places[at] = Place::Free { next: self.free };
        self.free = Some(at);
    }

    /// Frees all that stands below a place, leaf after leaf, each the first child of its directory, so that no memory is taken and no sibling is walked past.
    fn clear_below(&mut self, top: usize)
        requires { has_place (links_of self.old.places.items) top ≡ true }
        ensures cleared { IsClearedBelow self.old.places.items self.new.places.items top }
        ensures leaf { (e : _) → entry_at self.new.places.items top ≡ Some e → e.first ≡ None }
        ensures room { is_some self.old.free ≡ true → is_some self.new.free ≡ true }
    {
        let mut at = top;
        'walk: loop {
            match self.entry(at).first {
                Some(child) => at = child,
                None => {
                    if at == top {
                        return;
                    }
                    let parent = self.entry(at).parent;
                    self.free_leaf(at, None);
                    at = parent;
                }
            }
        }
    }

    /// Frees a node with all below it.
    pub(crate) fn cut(&mut self, at: usize)
        requires there { has_place (links_of self.old.places.items) at ≡ true }
        requires below_root { place_of (links_of self.old.places.items) at ≢ [] }
        ensures nodes { nodes_of (links_of self.new.places.items) ≡ cut (place_of (links_of self.old.places.items) at) (nodes_of (links_of self.old.places.items)) }
        ensures kept { KeepNodes self.old.places.items self.new.places.items }
        ensures removes { Removes (place_of (links_of self.old.places.items) at) (λ (s : ASpot). has_place (links_of self.old.places.items) s.index) (λ s. has_place (links_of self.new.places.items) s.index) (λ s. place_of (links_of self.old.places.items) s.index) (λ s. place_of (links_of self.new.places.items) s.index) }
        ensures room { is_some self.new.free ≡ true }
    {
        self.clear_below(at);
        let near = self.hints.behind(&self.places, at);
        self.hints.take(&self.places, at);
        self.free_leaf(at, near);
    }
}
