// The linked tree.
ghost use Rattle.std.specs.Prelude.{◌≡◌, ◌<◌, ◌≤◌, ◌^◌, true, length, take, vec_len, vec_capacity, OnOk};
ghost use Rattle.nn_tree.specs.Limits.{IsKind, IsCounters};
ghost use Rattle.nn_arena.specs.Totals.{AreTotals, own_usage};
ghost use Rattle.nn_arena.specs.Places.{links_of};
ghost use Rattle.nn_tree.specs.Links.{nodes_of, meaning_of, has_place, place_of};
ghost use Rattle.nn_tree.specs.Walks.{IsWalk};
ghost use Rattle.nn_tree.specs.Spots.{IsSound};
ghost use Rattle.nn_tree.specs.Changes.{changed};
ghost use Rattle.nn_tree.specs.Nodes.{space_of};

use crate::arena::Arena;
use crate::gap;
use nn_base::{Name, NoMemory, Path};
use nn_quota::Usage;
use nn_tree::{Block, Change, Counters, Node, Spot, Tree, Walk};
use std::alloc::Global;

/// The namespace in one vector, whose nodes name their parent, first child and next sibling by number and keep the usage of what stands at and below them: usage, neighbours and the count of blocks are looked up, a change carries its usage up to the root, and a place that was freed is used again.
#[derive(Drop)]
pub struct ArenaTree {
    arena: Arena,
    counters: Counters,
    room: Vec<Block>,
    ghost totals: { AreTotals arena.places.items },
    ghost in_range: { IsCounters counters },
    ghost empty: { vec_len room ≡ 0 },
}

/// What a node adds to the usage of each place above it.
fn own(node: &Node) -> Usage
    requires { IsKind node.now.kind }
    ensures { result ≡ own_usage node.now }
{
    Usage {
        names: 1,
        space: u128::from(node.kind.space()),
    }
}

/// Whether a change leaves the space of its node, so that no usage changes.
fn keeps_space(change: &Change) -> bool
    ensures { result ≡ true → (node : _) → space_of (changed change.now node).kind ≡ space_of node.kind }
{
    match change {
        Change::Replication(_) => false,
        Change::Time(_) => true,
        Change::Mode(_) => true,
        Change::Owner { .. } => true,
        Change::Quota(_) => true,
        Change::Closed => true,
    }
}

/// Makes an empty list take one block more than a file has. Most files have one block, and take no more memory than it
/// needs.
fn make_room(room: &mut Vec<Block>, count: usize) -> Result<(), NoMemory>
    requires empty { vec_len room.old ≡ 0 }
    requires few { count < 2 ^ 32 }
    ensures enough { OnOk result (count < vec_capacity room.new) }
    ensures empty { vec_len room.new ≡ 0 }
{
    if count == 0 {
        room.reserve_exact(1)?;
    } else {
        room.reserve(count + 1)?;
    }
    Ok(())
}

impl ArenaTree {
    // Walks along the first names of a path.
    fn walk(&self, path: &Path, levels: usize) -> Walk
        requires { levels ≤ length path.now }
        ensures walk { IsWalk result (λ s. has_place (links_of self.now.arena.places.items) s.index) (λ s. place_of (links_of self.now.arena.places.items) s.index) (nodes_of (links_of self.now.arena.places.items)) (take levels path.now) }
        ensures sound { IsSound (meaning_of (links_of self.now.arena.places.items) self.now.counters) (λ s. has_place (links_of self.now.arena.places.items) s.index) (λ s. place_of (links_of self.now.arena.places.items) s.index) }
    {
        let mut names = path.components();
        let mut at = 0;
        for _k in 0..levels {
            if !self.arena.entry(at).node.kind.is_dir() {
                return Walk::ThroughFile;
            }
            let name = names.take_name();
            match gap::child(&self.arena.places, &self.arena.hints, at, name) {
                None => return Walk::Missing,
                Some(next) => at = next,
            }
        }
        Walk::Found(Spot { index: at })
    }
}

impl Tree for ArenaTree {
    ghost use Rattle.std.specs.Prelude.{vec_capacity, is_some};
    ghost use Rattle.nn_tree.specs.Links.{meaning_of, has_place, place_of};
    ghost use Rattle.nn_arena.specs.Places.{links_of};
    ghost use Rattle.nn_arena.specs.Room.{has_block_room};

    ghost meaning = { λ t. meaning_of (links_of t.arena.places.items) t.counters };

    ghost has = { λ t s. has_place (links_of t.arena.places.items) s.index };

    ghost place = { λ t s. place_of (links_of t.arena.places.items) s.index };

    ghost spare = { λ t. record { node = is_some t.arena.free; block = λ s. has_block_room t.arena.places.items (vec_capacity t.room) s.index } };

    fn new(alloc: Global) -> Result<Self, NoMemory> {
        let arena = Arena::new(alloc)?;
        Ok(ArenaTree {
            arena,
            counters: Counters {
                inode: 16385,
                block: 1_073_741_824,
                stamp: 1000,
            },
            room: Vec::new(alloc),
        })
    }

    fn find(&self, path: &Path) -> Walk {
        self.walk(path, path.depth())
    }

    fn find_above(&self, path: &Path) -> Walk {
        self.walk(path, path.depth() - 1)
    }

    fn node(&self, at: Spot) -> &Node {
        &self.arena.entry(at.index).node
    }

    fn name(&self, at: Spot) -> &[u8] {
        self.arena.entry(at.index).name()
    }

    fn usage(&self, at: Spot) -> Usage {
        self.arena.entry(at.index).usage
    }

    fn blocks(&self) -> u64 {
        self.arena.blocks
    }

    fn parent(&self, at: Spot) -> Option<Spot> {
        if at.index == 0 {
            None
        } else {
            Some(Spot {
                index: self.arena.entry(at.index).parent,
            })
        }
    }

    fn first_child(&self, at: Spot) -> Option<Spot> {
        match self.arena.entry(at.index).first {
            Some(index) => Some(Spot { index }),
            None => None,
        }
    }

    fn next_sibling(&self, at: Spot) -> Option<Spot> {
        if at.index == 0 {
            return None;
        }
        match self.arena.entry(at.index).next {
            Some(index) => Some(Spot { index }),
            None => None,
        }
    }

    fn counters(&self) -> Counters {
        self.counters
    }

    fn set_counters(&mut self, to: Counters) {
        self.counters = to;
    }

    fn reserve(&mut self, at: Spot) -> Result<(), NoMemory> {
        let count = self.arena.entry(at.index).node.kind.block_count();
        make_room(&mut self.room, count)?;
        self.arena.grow()?;
        Ok(())
    }

    fn insert(&mut self, parent: Spot, name: Name, node: Node) -> Spot {
        let usage = own(&node);
        self.arena.add_up(parent.index, usage);
        let index = self.arena.fill(parent.index, name, node, usage);
        Spot { index }
    }

    fn add_block(&mut self, at: Spot, block: Block) {
        let old = self.arena.entry(at.index).node.kind.space();
        self.arena.add_block(at.index, block, &mut self.room);
        self.arena.weigh(at.index, old);
    }

    fn change(&mut self, at: Spot, change: Change) {
        if keeps_space(&change) {
            self.arena.change(at.index, change);
            return;
        }
        let old = self.arena.entry(at.index).node.kind.space();
        self.arena.change(at.index, change);
        self.arena.weigh(at.index, old);
    }

    fn remove(&mut self, at: Spot) {
        let entry = self.arena.entry(at.index);
        let parent = entry.parent;
        let usage = entry.usage;
        self.arena.take_up(parent, usage);
        self.arena.cut(at.index);
    }

    fn relink(&mut self, at: Spot, parent: Spot, name: Name) {
        let entry = self.arena.entry(at.index);
        let above = entry.parent;
        let usage = entry.usage;
        self.arena.take_up(above, usage);
        self.arena.relink(at.index, parent.index, name);
        self.arena.add_up(parent.index, usage);
    }
}
