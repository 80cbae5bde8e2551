// To move a node, with all below it.
ghost use Rattle.std.specs.Prelude.{◌≡◌, ◌≢◌, None, true, false, [], ◌∷◌, ◌++◌};
ghost use Rattle.std.specs.Prelude.{map as list_map};
ghost use Rattle.std.specs.FinMap as map;
ghost use Rattle.nn_base.specs.Paths.{is_under};
ghost use Rattle.nn_tree.specs.declared.spot.Spot.{Spot as ASpot};
ghost use Rattle.nn_tree.specs.Namespace.{is_dir_at};
ghost use Rattle.nn_tree.specs.Links.{nodes_of, has_place, place_of, slots};
ghost use Rattle.nn_tree.specs.Slots.{rekey_slot};
ghost use Rattle.nn_tree.specs.Changes.{move, moved};
ghost use Rattle.nn_tree.specs.Spots.{Keeps};
ghost use Rattle.nn_arena.specs.Places.{links_of};
ghost use Rattle.nn_arena.specs.Changes.{KeepNodes};

use crate::arena::Arena;
use crate::link;
use nn_base::Name;

impl Arena {
    /// Moves a node, with all below it, into a directory under a name.
    pub(crate) fn relink(&mut self, at: usize, parent: usize, name: Name)
        requires there { has_place (links_of self.old.places.items) at ≡ true }
        requires below_root { place_of (links_of self.old.places.items) at ≢ [] }
        requires to { has_place (links_of self.old.places.items) parent ≡ true }
        requires in_dir { is_dir_at (nodes_of (links_of self.old.places.items)) (place_of (links_of self.old.places.items) parent) ≡ true }
        requires outside { is_under (place_of (links_of self.old.places.items) at) (place_of (links_of self.old.places.items) parent) ≡ false }
        requires free { map.get (nodes_of (links_of self.old.places.items)) (place_of (links_of self.old.places.items) parent ++ name ∷ []) ≡ None }
        ensures nodes { nodes_of (links_of self.new.places.items) ≡ move (place_of (links_of self.old.places.items) at) (place_of (links_of self.old.places.items) parent ++ name ∷ []) (nodes_of (links_of self.old.places.items)) }
        ensures slots { slots (links_of self.new.places.items) ≡ list_map (rekey_slot (moved (place_of (links_of self.old.places.items) at) (place_of (links_of self.old.places.items) parent ++ name ∷ []))) (slots (links_of self.old.places.items)) }
        ensures kept { KeepNodes self.old.places.items self.new.places.items }
        ensures keeps { Keeps (λ (s : ASpot). has_place (links_of self.old.places.items) s.index) (λ s. has_place (links_of self.new.places.items) s.index) (λ s. place_of (links_of self.old.places.items) s.index) (λ s. place_of (links_of self.new.places.items) s.index) (moved (place_of (links_of self.old.places.items) at) (place_of (links_of self.old.places.items) parent ++ name ∷ [])) }
        ensures room { self.new.free ≡ self.old.free }
    {
        let _bytes = name.bytes();
        let near = self.hints.behind(&self.places, at);
        self.hints.take(&self.places, at);
        let mut moving = link::take(&mut self.places, at, near);
        moving.parent = parent;
        moving.name = Some(name);
        let near = self.hints.near(&self.places, parent, moving.name());
        link::put(&mut self.places, at, moving, near);
        self.hints.put(&self.places, at);
    }
}
