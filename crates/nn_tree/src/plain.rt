// The plain tree: one vector of entries, and each question a scan.
ghost use Rattle.std.specs.Prelude.{◌≡◌, ◌≤◌, length, take, vec_len};
ghost use Rattle.nn_tree.specs.Limits.{IsWithinLimits, IsCounters};
ghost use Rattle.nn_tree.specs.Links.{IsTree, nodes_of, meaning_of, has_place, place_of};
ghost use Rattle.nn_tree.specs.Walks.{IsWalk};
ghost use Rattle.nn_tree.specs.Spots.{IsSound};
ghost use Rattle.nn_tree.specs.Plain.{links_of};

use crate::entry::{self, Entry};
use crate::{Block, Change, Counters, Node, Spot, Tree, Walk};
use nn_base::{Name, NoMemory, Path};
use nn_quota::Usage;
use std::alloc::Global;

/// The namespace in its plainest form, for small trees and as the measure of faster ones: a question looks at every entry. A place that was freed is used again.
#[derive(Drop)]
pub struct PlainTree {
    entries: Vec<Entry>,
    counters: Counters,
    room: Vec<Block>,
    ghost tree: { IsTree (links_of entries.items) },
    ghost limits: { IsWithinLimits (nodes_of (links_of entries.items)) },
    ghost in_range: { IsCounters counters },
    ghost empty: { vec_len room ≡ 0 },
}

impl PlainTree {
    // Walks along the first names of a path.
    fn walk(&self, path: &Path, levels: usize) -> Walk
        requires { levels ≤ length path.now }
        ensures walk { IsWalk result (λ s. has_place (links_of self.now.entries.items) s.index) (λ s. place_of (links_of self.now.entries.items) s.index) (nodes_of (links_of self.now.entries.items)) (take levels path.now) }
        ensures sound { IsSound (meaning_of (links_of self.now.entries.items) self.now.counters) (λ s. has_place (links_of self.now.entries.items) s.index) (λ s. place_of (links_of self.now.entries.items) s.index) }
    {
        let mut names = path.components();
        let mut at = 0;
        for _k in 0..levels {
            if !self.entries[at].node.kind.is_dir() {
                return Walk::ThroughFile;
            }
            match entry::child(&self.entries, at, names.take_name()) {
                None => return Walk::Missing,
                Some(next) => at = next,
            }
        }
        Walk::Found(Spot { index: at })
    }
}

impl Tree for PlainTree {
    ghost use Rattle.std.specs.Prelude.{vec_capacity};
    ghost use Rattle.nn_tree.specs.Links.{meaning_of, has_place, place_of};
    ghost use Rattle.nn_tree.specs.Plain.{links_of, is_free, has_block_room};
    ghost use Rattle.std.specs.List.{list_any};

    ghost meaning = { λ t. meaning_of (links_of t.entries.items) t.counters };

    ghost has = { λ t s. has_place (links_of t.entries.items) s.index };

    ghost place = { λ t s. place_of (links_of t.entries.items) s.index };

    ghost spare = { λ t. record { node = list_any is_free t.entries.items; block = λ s. has_block_room t.entries.items (vec_capacity t.room) s.index } };

    fn new(alloc: Global) -> Result<Self, NoMemory> {
        let mut entries = Vec::new(alloc);
        entries.push(Entry::root())?;
        Ok(PlainTree {
            entries,
            counters: Counters {
                inode: 16385,
                block: 1_073_741_824,
                stamp: 1000,
            },
            room: Vec::new(alloc),
        })
    }

    fn find(&self, path: &Path) -> Walk {
        self.walk(path, path.depth())
    }

    fn find_above(&self, path: &Path) -> Walk {
        self.walk(path, path.depth() - 1)
    }

    fn node(&self, at: Spot) -> &Node {
        &self.entries[at.index].node
    }

    fn name(&self, at: Spot) -> &[u8] {
        self.entries[at.index].name()
    }

    fn usage(&self, at: Spot) -> Usage {
        let mut names: u64 = 0;
        let mut space: u128 = 0;
        for i in 0..self.entries.len() {
            let share = entry::share_of(&self.entries, at.index, i);
            names += share.names;
            space += share.space;
        }
        Usage { names, space }
    }

    fn blocks(&self) -> u64 {
        let mut count: u64 = 0;
        for i in 0..self.entries.len() {
            count += entry::blocks_of(&self.entries, i);
        }
        count
    }

    fn parent(&self, at: Spot) -> Option<Spot> {
        if at.index == 0 {
            None
        } else {
            Some(Spot {
                index: self.entries[at.index].parent,
            })
        }
    }

    fn first_child(&self, at: Spot) -> Option<Spot> {
        match entry::least_child(&self.entries, at.index, b"") {
            Some(index) => Some(Spot { index }),
            None => None,
        }
    }

    fn next_sibling(&self, at: Spot) -> Option<Spot> {
        if at.index == 0 {
            return None;
        }
        let entry = &self.entries[at.index];
        match entry::least_child(&self.entries, entry.parent, entry.name()) {
            Some(index) => Some(Spot { index }),
            None => None,
        }
    }

    fn counters(&self) -> Counters {
        self.counters
    }

    fn set_counters(&mut self, to: Counters) {
        self.counters = to;
    }

    fn reserve(&mut self, at: Spot) -> Result<(), NoMemory> {
        let node = &self.entries[at.index].node;
        let count = node.kind.block_count();
        let label = node.owner;
        self.room.reserve(count + 1)?;
        entry::ensure_free(&mut self.entries, label)?;
        Ok(())
    }

    fn insert(&mut self, parent: Spot, name: Name, node: Node) -> Spot {
        match entry::free_place(&self.entries) {
            Some(free) => {
                self.entries[free] = Entry::used(parent.index, name, node);
                Spot { index: free }
            }
            None => unreachable!(),
        }
    }

    fn add_block(&mut self, at: Spot, block: Block) {
        self.entries[at.index]
            .node
            .kind
            .add_block(block, &mut self.room);
    }

    fn change(&mut self, at: Spot, change: Change) {
        self.entries[at.index].node.change(change);
    }

    fn remove(&mut self, at: Spot) {
        entry::cut_below(&mut self.entries, at.index);
    }

    fn relink(&mut self, at: Spot, parent: Spot, name: Name) {
        // That the name is one is told by its bytes.
        let _bytes = name.bytes();
        let entry = &mut self.entries[at.index];
        entry.parent = parent.index;
        entry.name = Some(name);
    }
}
