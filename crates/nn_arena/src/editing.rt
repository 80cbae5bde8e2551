// To change a node where it stands, and to carry its usage up to the root.
ghost use Rattle.std.specs.Prelude.{◌≡◌, ◌+◌, ◌<◌, ◌≤◌, ◌^◌, ℕ, Some, true, vec_len, vec_capacity};
ghost use Rattle.nn_base.specs.Paths.{is_under};
ghost use Rattle.nn_tree.specs.Namespace.{is_file_at};
ghost use Rattle.nn_tree.specs.Nodes.{space_of};
ghost use Rattle.nn_tree.specs.Links.{nodes_of, has_place, place_of, path_at};
ghost use Rattle.nn_tree.specs.Limits.{IsWithinLimits};
ghost use Rattle.nn_tree.specs.Changes.{change_at, changed, with_block, takes_change};
ghost use Rattle.nn_arena.specs.declared.place.Place.TheVariants.{Used};
ghost use Rattle.nn_arena.specs.Places.{links_of, entry_at, in_use, IsWith};
ghost use Rattle.nn_arena.specs.Room.{has_block_room};
ghost use Rattle.nn_arena.specs.Totals.{IsClimbed, plus, less, reweighed};

use crate::arena::Arena;
use crate::climb;
use crate::place::Place;
use nn_quota::Usage;
use nn_tree::{Block, Change};

/// Makes a change of the node at a place in use.
fn change_in(places: &mut [Place], at: usize, change: Change)
    requires { in_use places.old at ≡ true }
    ensures { (e : _) → entry_at places.old at ≡ Some e → IsWith places.old places.new at (Used (record e { node = changed change e.node })) }
{
    match &mut places[at] {
        Place::Used(entry) => entry.node.change(change),
        Place::Free { .. } => {}
    }
}

/// Puts a block behind those of the file at a place in use.
fn add_block_in(places: &mut [Place], at: usize, block: Block, room: &mut Vec<Block>)
    requires there { in_use places.old at ≡ true }
    requires enough { has_block_room places.old (vec_capacity room.old) at ≡ true }
    requires empty { vec_len room.old ≡ 0 }
    ensures with { (e : _) → entry_at places.old at ≡ Some e → IsWith places.old places.new at (Used (record e { node = with_block block e.node })) }
    ensures empty { vec_len room.new ≡ 0 }
{
    match &mut places[at] {
        Place::Used(entry) => entry.node.kind.add_block(block, room),
        Place::Free { .. } => {}
    }
}

impl Arena {
    /// Adds to the usage of a place, and of each one above it.
    pub(crate) fn add_up(&mut self, at: usize, more: Usage)
        requires there { has_place (links_of self.old.places.items) at ≡ true }
        requires names { (i : ℕ) (e : _) → entry_at self.old.places.items i ≡ Some e → e.usage.names + more.names < 2 ^ 64 }
        requires space { (i : ℕ) (e : _) → entry_at self.old.places.items i ≡ Some e → e.usage.space + more.space < 2 ^ 128 }
        ensures climbed { IsClimbed self.old.places.items self.new.places.items (place_of (links_of self.old.places.items) at) (plus more) }
        ensures room { self.new.free ≡ self.old.free }
    {
        climb::add_up(&mut self.places, at, more);
    }

    /// Takes from the usage of a place, and of each one above it.
    pub(crate) fn take_up(&mut self, at: usize, gone: Usage)
        requires there { has_place (links_of self.old.places.items) at ≡ true }
        requires names { (i : ℕ) (e : _) → entry_at self.old.places.items i ≡ Some e → is_under (place_of (links_of self.old.places.items) i) (place_of (links_of self.old.places.items) at) ≡ true → gone.names ≤ e.usage.names }
        requires space { (i : ℕ) (e : _) → entry_at self.old.places.items i ≡ Some e → is_under (place_of (links_of self.old.places.items) i) (place_of (links_of self.old.places.items) at) ≡ true → gone.space ≤ e.usage.space }
        ensures climbed { IsClimbed self.old.places.items self.new.places.items (place_of (links_of self.old.places.items) at) (less gone) }
        ensures room { self.new.free ≡ self.old.free }
    {
        climb::take_up(&mut self.places, at, gone);
    }

    /// Carries a change of a node's own space up to the root: it was `old` before.
    pub(crate) fn weigh(&mut self, at: usize, old: u64)
        requires there { has_place (links_of self.old.places.items) at ≡ true }
        requires names { (i : ℕ) (e : _) → entry_at self.old.places.items i ≡ Some e → e.usage.names < 2 ^ 64 }
        requires space { (i : ℕ) (e : _) → entry_at self.old.places.items i ≡ Some e → e.usage.space + 2 ^ 64 ≤ 2 ^ 128 }
        requires enough { (i : ℕ) (e : _) → entry_at self.old.places.items i ≡ Some e → is_under (place_of (links_of self.old.places.items) i) (place_of (links_of self.old.places.items) at) ≡ true → old ≤ e.usage.space }
        ensures climbed { (e : _) → entry_at self.old.places.items at ≡ Some e → IsClimbed self.old.places.items self.new.places.items (place_of (links_of self.old.places.items) at) (reweighed old (space_of e.node.kind)) }
        ensures room { self.new.free ≡ self.old.free }
    {
        let new = self.entry(at).node.kind.space();
        if new < old {
            let gone = u128::from(old - new);
            self.take_up(
                at,
                Usage {
                    names: 0,
                    space: gone,
                },
            );
        } else if old < new {
            let more = u128::from(new - old);
            self.add_up(
                at,
                Usage {
                    names: 0,
                    space: more,
                },
            );
        }
    }

    /// Makes a change of one node. Its usage, and that of the directories above, is left to `weigh`.
    pub(crate) fn change(&mut self, at: usize, change: Change)
        requires there { has_place (links_of self.old.places.items) at ≡ true }
        requires takes { takes_change (nodes_of (links_of self.old.places.items)) (place_of (links_of self.old.places.items) at) change ≡ true }
        requires limits { IsWithinLimits (change_at (place_of (links_of self.old.places.items) at) (changed change) (nodes_of (links_of self.old.places.items))) }
        ensures with { (e : _) → entry_at self.old.places.items at ≡ Some e → IsWith self.old.places.items self.new.places.items at (Used (record e { node = changed change e.node })) }
        ensures nodes { nodes_of (links_of self.new.places.items) ≡ change_at (place_of (links_of self.old.places.items) at) (changed change) (nodes_of (links_of self.old.places.items)) }
        ensures path { path_at (links_of self.new.places.items) ≡ path_at (links_of self.old.places.items) }
        ensures room { self.new.free ≡ self.old.free }
    {
        change_in(&mut self.places, at, change);
    }

    /// Puts a block behind those of a file, in the room that is ready for it. Usages are left to `weigh`.
    pub(crate) fn add_block(&mut self, at: usize, block: Block, room: &mut Vec<Block>)
        requires there { has_place (links_of self.old.places.items) at ≡ true }
        requires file { is_file_at (nodes_of (links_of self.old.places.items)) (place_of (links_of self.old.places.items) at) ≡ true }
        requires limits { IsWithinLimits (change_at (place_of (links_of self.old.places.items) at) (with_block block) (nodes_of (links_of self.old.places.items))) }
        requires enough { has_block_room self.old.places.items (vec_capacity room.old) at ≡ true }
        requires empty { vec_len room.old ≡ 0 }
        ensures with { (e : _) → entry_at self.old.places.items at ≡ Some e → IsWith self.old.places.items self.new.places.items at (Used (record e { node = with_block block e.node })) }
        ensures nodes { nodes_of (links_of self.new.places.items) ≡ change_at (place_of (links_of self.old.places.items) at) (with_block block) (nodes_of (links_of self.old.places.items)) }
        ensures path { path_at (links_of self.new.places.items) ≡ path_at (links_of self.old.places.items) }
        ensures room { self.new.free ≡ self.old.free }
        ensures empty { vec_len room.new ≡ 0 }
    {
        add_block_in(&mut self.places, at, block, room);
        self.blocks += 1;
    }
}
