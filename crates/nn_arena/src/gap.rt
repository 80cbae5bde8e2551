// The one walk over siblings.
ghost use Rattle.std.specs.Prelude.{◌≡◌, ◌<◌, ℕ, Some, None, true, false, length, [], IfSome, IfNone};
ghost use Rattle.std.specs.declared.cmp.Ordering.TheVariants.{Less};
ghost use Rattle.nn_base.specs.Paths as paths;
ghost use Rattle.nn_base.specs.Paths.{name_cmp};
ghost use Rattle.nn_tree.specs.Plain.{is_child, is_later, name_at};
ghost use Rattle.nn_arena.specs.Places.{in_use, links_of};
ghost use Rattle.nn_arena.specs.Children.{AreLinked, IsGap, IsWalked};

use crate::hints::{Hints, child_at};
use crate::place::{Place, entry_in};

/// Where a name belongs among the children of a directory, in byte order.
#[derive(Clone, Copy)]
pub(crate) struct Gap {
    /// The last child with a name below it.
    pub(crate) before: Option<usize>,
    /// The first of the others: the child with the name, where there is one.
    pub(crate) after: Option<usize>,
}

/// A child of a directory whose name is below another, where the one near it is.
fn passed(places: &[Place], parent: usize, name: &[u8], near: Option<usize>) -> Option<usize>
    ensures { IfSome result (λ i. (is_later (links_of places.now) parent [] i ≡ true) × (name_cmp (name_at (links_of places.now) i) name.now ≡ Less)) }
{
    let at = near?;
    let child = child_at(places, parent, at)?;
    if child.name().is_empty() {
        return None;
    }
    if child.name().cmp(name).is_lt() {
        Some(at)
    } else {
        None
    }
}

/// Where a walk begins: behind that child, or at the head of the directory.
fn begin(places: &[Place], parent: usize, name: &[u8], near: Option<usize>) -> Gap
    requires linked { AreLinked places.now }
    requires there { in_use places.now parent ≡ true }
    ensures { IsWalked places.now parent name.now result.before result.after }
{
    match passed(places, parent, name, near) {
        Some(at) => Gap {
            before: Some(at),
            after: entry_in(places, at).next,
        },
        None => Gap {
            before: None,
            after: entry_in(places, parent).first,
        },
    }
}

/// Walks over the children of a directory, up to the first one whose name isn't below another.
pub(crate) fn find_gap(places: &[Place], parent: usize, name: &[u8], near: Option<usize>) -> Gap
    requires linked { AreLinked places.now }
    requires there { in_use places.now parent ≡ true }
    ensures { IsGap places.now parent name.now result }
{
    let start = begin(places, parent, name, near);
    let mut before = start.before;
    let mut after = start.after;
    'walk: while let Some(at) = after {
        let child = entry_in(places, at);
        if !child.name().cmp(name).is_lt() {
            return Gap { before, after };
        }
        before = after;
        after = child.next;
    }
    Gap { before, after }
}

/// Whether a place is the child of a directory that has a name.
fn has_name(places: &[Place], parent: usize, name: &[u8], at: usize) -> bool
    ensures child { result ≡ true → is_child (links_of places.now) parent name.now at ≡ true }
    ensures within { result ≡ true → at < length places.now }
{
    match child_at(places, parent, at) {
        Some(child) => child.name() == name,
        None => false,
    }
}

/// The child of a directory that has a name.
pub(crate) fn child(places: &[Place], hints: &Hints, parent: usize, name: &[u8]) -> Option<usize>
    requires linked { AreLinked places.now }
    requires there { in_use places.now parent ≡ true }
    requires name { paths.is_name name.now ≡ true }
    ensures found { IfSome result (λ i. is_child (links_of places.now) parent name.now i ≡ true) }
    ensures within { IfSome result (λ i. i < length places.now) }
    ensures none { IfNone result ((k : ℕ) → k < length places.now → is_child (links_of places.now) parent name.now k ≡ false) }
{
    let last = hints.last(parent);
    if has_name(places, parent, name, last) {
        return Some(last);
    }
    let near = hints.near(places, parent, name);
    let at = find_gap(places, parent, name, near).after?;
    if entry_in(places, at).name() == name {
        Some(at)
    } else {
        None
    }
}
