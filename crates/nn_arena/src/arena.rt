// The arena: the linked places, their free list and how many blocks there are.
ghost use Rattle.std.specs.Prelude.{◌≡◌, ◌<◌, ℕ, Some, None, true, [], ◌∷◌, ◌++◌, length, slice_get, is_some, IfOk, OnOk};
ghost use Rattle.std.specs.FinMap as map;
ghost use Rattle.nn_tree.specs.declared.spot.Spot.{Spot as ASpot};
ghost use Rattle.nn_tree.specs.Namespace.{block_count, root_node, is_dir_at};
ghost use Rattle.nn_tree.specs.Links.{IsTree, nodes_of, has_place, place_of, path_at};
ghost use Rattle.nn_tree.specs.Limits.{IsWithinLimits};
ghost use Rattle.nn_tree.specs.Spots.{Keeps};
ghost use Rattle.nn_arena.specs.declared.place.Place.TheVariants.{Free};
ghost use Rattle.nn_arena.specs.Places.{links_of, entry_at, AreAlikeBut};
ghost use Rattle.nn_arena.specs.Children.{AreLinked, AreLinked-prop};
ghost use Rattle.nn_arena.specs.FreeList.{IsFreeList};

use crate::hints::Hints;
use crate::link;
use crate::place::{Entry, Place, entry_in};
use nn_base::{Name, NoMemory};
use nn_quota::Usage;
use nn_tree::Node;
use std::alloc::Global;

/// The places of a tree. Their usages are the caller's: they are as the calls leave them.
#[derive(Drop)]
pub(crate) struct Arena {
    pub(crate) places: Vec<Place>,
    /// The first free place.
    pub(crate) free: Option<usize>,
    /// How many blocks all files have.
    pub(crate) blocks: u64,
    pub(crate) hints: Hints,
    ghost tree: { IsTree (links_of places.items) },
    ghost linked: { AreLinked places.items } by { AreLinked-prop places.items },
    ghost free_list: { ∥ IsFreeList places.items free ∥₁ },
    ghost counted: { blocks ≡ block_count (nodes_of (links_of places.items)) },
    ghost limits: { IsWithinLimits (nodes_of (links_of places.items)) },
}

impl Arena {
    /// The root alone.
    pub(crate) fn new(alloc: Global) -> Result<Arena, NoMemory>
        ensures nodes { IfOk result (λ a. nodes_of (links_of a.places.items) ≡ map.insert map.empty [] root_node) }
        ensures usages { IfOk result (λ a. (i : ℕ) (e : _) → entry_at a.places.items i ≡ Some e → e.usage ≡ record { names = 1; space = 0 }) }
    {
        let mut hints = Hints::new(alloc);
        hints.grow()?;
        let mut places = Vec::new(alloc);
        places.push(Place::Used(Entry::root()))?;
        Ok(Arena {
            places,
            free: None,
            blocks: 0,
            hints,
        })
    }

    pub(crate) fn entry(&self, at: usize) -> &Entry
        requires { has_place (links_of self.now.places.items) at ≡ true }
        ensures { entry_at self.now.places.items at ≡ Some result.now }
    {
        entry_in(&self.places, at)
    }

    /// Sees to a free place: where there is none, one more makes it.
    pub(crate) fn grow(&mut self) -> Result<(), NoMemory>
        ensures free { OnOk result (is_some self.new.free ≡ true) }
        ensures same { (j : ℕ) → entry_at self.new.places.items j ≡ entry_at self.old.places.items j }
        ensures path { path_at (links_of self.new.places.items) ≡ path_at (links_of self.old.places.items) }
        ensures nodes { nodes_of (links_of self.new.places.items) ≡ nodes_of (links_of self.old.places.items) }
    {
        if self.free.is_some() {
            return Ok(());
        }
        let at = self.places.len();
        self.hints.grow()?;
        self.places.push(Place::Free { next: None })?;
        self.free = Some(at);
        Ok(())
    }

    /// The place that is free after one.
    fn next_free(&self, at: usize) -> Option<usize>
        requires { self.now.free ≡ Some at }
        ensures { slice_get self.now.places.items at ≡ Some (Free result) }
    {
        match &self.places[at] {
            Place::Free { next } => *next,
            Place::Used(_) => unreachable!(),
        }
    }

    /// Puts a new node into a directory, at the first free place.
    pub(crate) fn fill(&mut self, parent: usize, name: Name, node: Node, usage: Usage) -> usize
        requires there { has_place (links_of self.old.places.items) parent ≡ true }
        requires in_dir { is_dir_at (nodes_of (links_of self.old.places.items)) (place_of (links_of self.old.places.items) parent) ≡ true }
        requires free { map.get (nodes_of (links_of self.old.places.items)) (place_of (links_of self.old.places.items) parent ++ name ∷ []) ≡ None }
        requires limits { IsWithinLimits (map.insert (nodes_of (links_of self.old.places.items)) (place_of (links_of self.old.places.items) parent ++ name ∷ []) node) }
        requires room { is_some self.old.free ≡ true }
        ensures nodes { nodes_of (links_of self.new.places.items) ≡ map.insert (nodes_of (links_of self.old.places.items)) (place_of (links_of self.old.places.items) parent ++ name ∷ []) node }
        ensures alike { AreAlikeBut self.old.places.items self.new.places.items result }
        ensures here { (e : _) → entry_at self.new.places.items result ≡ Some e → e.usage ≡ usage }
        ensures spot { has_place (links_of self.new.places.items) result ≡ true }
        ensures at { place_of (links_of self.new.places.items) result ≡ place_of (links_of self.old.places.items) parent ++ name ∷ [] }
        ensures keeps { Keeps (λ (s : ASpot). has_place (links_of self.old.places.items) s.index) (λ s. has_place (links_of self.new.places.items) s.index) (λ s. place_of (links_of self.old.places.items) s.index) (λ s. place_of (links_of self.new.places.items) s.index) (λ p. p) }
        ensures was_free { entry_at self.old.places.items result ≡ None }
    {
        // That the name is one is told by its bytes.
        let bytes = name.bytes();
        let near = self.hints.near(&self.places, parent, bytes);
        let at = match self.free {
            Some(at) => at,
            None => unreachable!(),
        };
        self.free = self.next_free(at);
        self.blocks += node.kind.block_count() as u64;
        let new = Entry {
            parent,
            first: None,
            next: None,
            name: Some(name),
            node,
            usage,
        };
        link::put(&mut self.places, at, new, near);
        self.hints.clear(at);
        self.hints.put(&self.places, at);
        at
    }
}
