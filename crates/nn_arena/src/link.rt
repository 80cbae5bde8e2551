// To take a node out of its directory, and to put one in.
ghost use Rattle.std.specs.Prelude.{◌≡◌, ◌≢◌, ◌<◌, ℕ, Some, None, true, false, length, slice_get, [], ◌∷◌};
ghost use Rattle.nn_base.specs.Paths as paths;
ghost use Rattle.nn_tree.specs.Links.{IsTree};
ghost use Rattle.nn_tree.specs.Plain.{is_child, IsLeast};
ghost use Rattle.nn_arena.specs.Places.{in_use, entry_at, links_of, name_of, IsWith};
ghost use Rattle.nn_arena.specs.Children.{AreLinked, AreNamed, AreApart};
ghost use Rattle.nn_arena.specs.Changes.{IsTaken, IsPut};
ghost use Rattle.nn_arena.specs.declared.place.Place.TheVariants.{Used};

use crate::gap::find_gap;
use crate::place::{Entry, Place, entry_in};
use std::mem;

fn set_first(places: &mut [Place], at: usize, first: Option<usize>)
    requires { in_use places.old at ≡ true }
    ensures { (e : _) → entry_at places.old at ≡ Some e → IsWith places.old places.new at (Used (record e { first = first })) }
{
    match &mut places[at] {
        Place::Used(entry) => entry.first = first,
        Place::Free { .. } => {}
    }
}

fn set_next(places: &mut [Place], at: usize, next: Option<usize>)
    requires { in_use places.old at ≡ true }
    ensures { (e : _) → entry_at places.old at ≡ Some e → IsWith places.old places.new at (Used (record e { next = next })) }
{
    match &mut places[at] {
        Place::Used(entry) => entry.next = next,
        Place::Free { .. } => {}
    }
}

/// Links a place, or none, behind a child of a directory, or as its first.
fn set_behind(places: &mut [Place], parent: usize, before: Option<usize>, to: Option<usize>)
    requires parent { in_use places.old parent ≡ true }
    requires before { (i : ℕ) → before ≡ Some i → in_use places.old i ≡ true }
    ensures first { before ≡ None → (e : _) → entry_at places.old parent ≡ Some e → IsWith places.old places.new parent (Used (record e { first = to })) }
    ensures next { (i : ℕ) → before ≡ Some i → (e : _) → entry_at places.old i ≡ Some e → IsWith places.old places.new i (Used (record e { next = to })) }
{
    match before {
        None => set_first(places, parent, to),
        Some(at) => set_next(places, at, to),
    }
}

/// Takes a node out of its directory: its siblings are linked without it, and its place is left free. A sibling before it may be told, near it.
pub(crate) fn take(places: &mut [Place], at: usize, near: Option<usize>) -> Entry
    requires tree { IsTree (links_of places.old) }
    requires linked { AreLinked places.old }
    requires there { in_use places.old at ≡ true }
    requires below_root { 0 < at }
    ensures entry { entry_at places.old at ≡ Some result }
    ensures taken { IsTaken places.old places.new at result }
{
    let taken = entry_in(places, at);
    let parent = taken.parent;
    let next = taken.next;
    let gap = find_gap(places, parent, taken.name(), near);
    set_behind(places, parent, gap.before, next);
    match mem::replace(&mut places[at], Place::Free { next: None }) {
        Place::Used(entry) => entry,
        Place::Free { .. } => unreachable!(),
    }
}

/// Puts a node into a directory, at a free place. No other child has its name. A child with a name below it may be told, near it.
pub(crate) fn put(places: &mut [Place], at: usize, entry: Entry, near: Option<usize>)
    requires linked { AreLinked places.old }
    requires named { AreNamed (links_of places.old) }
    requires apart { AreApart (links_of places.old) }
    requires within { at < length places.old }
    requires below_root { 0 < at }
    requires free { entry_at places.old at ≡ None }
    requires parent { in_use places.old entry.parent ≡ true }
    requires name { paths.is_name (name_of entry) ≡ true }
    requires children { IsLeast (links_of places.old) at [] (length places.old) entry.first }
    requires new { (k : ℕ) → k < length places.old → is_child (links_of places.old) entry.parent (name_of entry) k ≡ false }
    ensures { IsPut places.old places.new at entry }
{
    let mut entry = entry;
    let gap = find_gap(places, entry.parent, entry.name(), near);
    set_behind(places, entry.parent, gap.before, Some(at));
    entry.next = gap.after;
    places[at] = Place::Used(entry);
}
