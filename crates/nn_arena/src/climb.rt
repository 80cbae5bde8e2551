// The climb that carries a usage up to the root.
ghost use Rattle.std.specs.Prelude.{◌≡◌, ◌+◌, ◌<◌, ◌≤◌, ◌^◌, ℕ, Some, true};
ghost use Rattle.nn_base.specs.Paths.{is_under};
ghost use Rattle.nn_tree.specs.Links.{IsTree, has_place, place_of};
ghost use Rattle.nn_arena.specs.Places as places_of;
ghost use Rattle.nn_arena.specs.Totals.{IsClimbed, plus, less};
ghost use Rattle.nn_arena.specs.declared.place.Entry.{Entry as AnEntry};
ghost use Rattle.nn_arena.specs.declared.place.Place.TheVariants.{Used};

use crate::place::{Place, entry_in};
use nn_quota::Usage;

fn add_at(places: &mut [Place], at: usize, more: Usage)
    requires there { places_of.in_use places.old at ≡ true }
    requires names { (e : AnEntry) → places_of.entry_at places.old at ≡ Some e → e.usage.names + more.names < 2 ^ 64 }
    requires space { (e : AnEntry) → places_of.entry_at places.old at ≡ Some e → e.usage.space + more.space < 2 ^ 128 }
    ensures { (e : AnEntry) → places_of.entry_at places.old at ≡ Some e → places_of.IsWith places.old places.new at (Used (record e { usage = plus more e.usage })) }
{
    match &mut places[at] {
        Place::Used(entry) => {
            entry.usage.names += more.names;
            entry.usage.space += more.space;
        }
        Place::Free { .. } => {}
    }
}

fn take_at(places: &mut [Place], at: usize, gone: Usage)
    requires there { places_of.in_use places.old at ≡ true }
    requires names { (e : AnEntry) → places_of.entry_at places.old at ≡ Some e → gone.names ≤ e.usage.names }
    requires space { (e : AnEntry) → places_of.entry_at places.old at ≡ Some e → gone.space ≤ e.usage.space }
    ensures { (e : AnEntry) → places_of.entry_at places.old at ≡ Some e → places_of.IsWith places.old places.new at (Used (record e { usage = less gone e.usage })) }
{
    match &mut places[at] {
        Place::Used(entry) => {
            entry.usage.names -= gone.names;
            entry.usage.space -= gone.space;
        }
        Place::Free { .. } => {}
    }
}

/// Adds to the usage of a place, and of each one above it.
pub(crate) fn add_up(places: &mut [Place], at: usize, more: Usage)
    requires tree { IsTree (places_of.links_of places.old) }
    requires there { has_place (places_of.links_of places.old) at ≡ true }
    requires names { (i : ℕ) (e : AnEntry) → places_of.entry_at places.old i ≡ Some e → e.usage.names + more.names < 2 ^ 64 }
    requires space { (i : ℕ) (e : AnEntry) → places_of.entry_at places.old i ≡ Some e → e.usage.space + more.space < 2 ^ 128 }
    ensures { IsClimbed places.old places.new (place_of (places_of.links_of places.old) at) (plus more) }
{
    let mut at = at;
    add_at(places, at, more);
    'climb: while at != 0 {
        at = entry_in(places, at).parent;
        add_at(places, at, more);
    }
}

/// Takes from the usage of a place, and of each one above it.
pub(crate) fn take_up(places: &mut [Place], at: usize, gone: Usage)
    requires tree { IsTree (places_of.links_of places.old) }
    requires there { has_place (places_of.links_of places.old) at ≡ true }
    requires names { (i : ℕ) (e : AnEntry) → places_of.entry_at places.old i ≡ Some e → is_under (place_of (places_of.links_of places.old) i) (place_of (places_of.links_of places.old) at) ≡ true → gone.names ≤ e.usage.names }
    requires space { (i : ℕ) (e : AnEntry) → places_of.entry_at places.old i ≡ Some e → is_under (place_of (places_of.links_of places.old) i) (place_of (places_of.links_of places.old) at) ≡ true → gone.space ≤ e.usage.space }
    ensures { IsClimbed places.old places.new (place_of (places_of.links_of places.old) at) (less gone) }
{
    let mut at = at;
    take_at(places, at, gone);
    'climb: while at != 0 {
        at = entry_in(places, at).parent;
        take_at(places, at, gone);
    }
}
