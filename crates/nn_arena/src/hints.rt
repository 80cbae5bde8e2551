// Hints: where a walk over the children of a directory may begin. Nothing rests on them: each is looked at before it is used, so a wrong one costs time and no more.
ghost use Rattle.std.specs.Prelude.{◌≡◌, ◌≢◌, ℕ, IfSome, Some};
ghost use Rattle.nn_arena.specs.Places.{entry_at};

use crate::place::{Entry, Place};
use nn_base::NoMemory;
use std::alloc::Global;

/// More steps than a search takes: it is about twice as deep as the logarithm of what it has.
const MOST_STEPS: u32 = 200;

/// What is remembered at a place. The root's number, 0, stands for no place: it is nobody's child.
#[derive(Clone, Copy)]
struct Hint {
    /// Of a directory: the child that was put last, there or somewhere below.
    last: u32,
    /// Of a directory: the top of a search tree by name over an eighth of its children.
    top: u32,
    /// Of a child in such a tree: those with names below its own, and those above.
    below: u32,
    above: u32,
}

const NONE: Hint = Hint {
    last: 0,
    top: 0,
    below: 0,
    above: 0,
};

/// A link of a search tree.
#[derive(Clone, Copy)]
enum Link {
    Top(usize),
    Below(usize),
    Above(usize),
}

/// The hints of all places. The search trees are treaps: a child stands above those of a lower rank, so they are as deep as random ones, whatever the order of names.
#[derive(Drop)]
pub(crate) struct Hints {
    of: Vec<Hint>,
}

/// The entry of a place, where it is a child of a directory.
pub(crate) fn child_at(places: &[Place], dir: usize, at: usize) -> Option<&Entry>
    ensures { IfSome result (λ e. (at ≢ 0) × (entry_at places.now at ≡ Some e.now) × (e.now.parent ≡ dir)) }
{
    if at == 0 {
        return None;
    }
    match places.get(at) {
        Some(Place::Used(entry)) if entry.parent == dir => Some(entry),
        _ => None,
    }
}

/// The number of a place with its bits mixed (the finalizer of MurmurHash3), so that the ranks of any run of places are as random.
fn rank(at: usize) -> u64 {
    let mixed = at as u64;
    let mixed = (mixed ^ mixed >> 33).wrapping_mul(0xff51_afd7_ed55_8ccd);
    let mixed = (mixed ^ mixed >> 33).wrapping_mul(0xc4ce_b9fe_1a85_ec53);
    mixed ^ mixed >> 33
}

/// The number of a place as it is remembered: past 2^32 none is.
fn number(at: usize) -> u32 {
    u32::try_from(at).unwrap_or(0)
}

fn is_searched(at: usize) -> bool {
    rank(at) >> 61 == 0
}

impl Hints {
    pub(crate) fn new(alloc: Global) -> Hints {
        Hints {
            of: Vec::new(alloc),
        }
    }

    /// Makes room for the hints of one place more.
    pub(crate) fn grow(&mut self) -> Result<(), NoMemory> {
        self.of.push(NONE)?;
        Ok(())
    }

    fn get(&self, at: usize) -> Hint {
        match self.of.get(at) {
            Some(hint) => *hint,
            None => NONE,
        }
    }

    /// The child that was put last into a directory.
    pub(crate) fn last(&self, dir: usize) -> usize {
        self.get(dir).last as usize
    }

    fn follow(&self, link: Link) -> usize {
        let to = match link {
            Link::Top(at) => self.get(at).top,
            Link::Below(at) => self.get(at).below,
            Link::Above(at) => self.get(at).above,
        };
        to as usize
    }

    fn set(&mut self, link: Link, to: usize) {
        let (Link::Top(at) | Link::Below(at) | Link::Above(at)) = link;
        let to = number(to);
        if let Some(hint) = self.of.get_mut(at) {
            match link {
                Link::Top(_) => hint.top = to,
                Link::Below(_) => hint.below = to,
                Link::Above(_) => hint.above = to,
            }
        }
    }

    /// A child of a directory with a name below another, where one is remembered: the last one that was put, if the name belongs behind it, or else what a search finds.
    pub(crate) fn near(&self, places: &[Place], dir: usize, name: &[u8]) -> Option<usize> {
        let last = self.last(dir);
        if is_just_below(places, dir, name, last) {
            return Some(last);
        }
        let mut near = None;
        let mut at = self.follow(Link::Top(dir));
        'search: for _ in 0..MOST_STEPS {
            match child_at(places, dir, at) {
                None => break,
                Some(entry) => {
                    if entry.name().cmp(name).is_lt() {
                        near = Some(at);
                        at = self.follow(Link::Above(at));
                    } else {
                        at = self.follow(Link::Below(at));
                    }
                }
            }
        }
        near
    }

    /// The same for a node where it stands.
    pub(crate) fn behind(&self, places: &[Place], at: usize) -> Option<usize> {
        match places.get(at) {
            Some(Place::Used(entry)) => self.near(places, entry.parent, entry.name()),
            _ => None,
        }
    }

    /// Remembers a node that was put into its directory.
    pub(crate) fn put(&mut self, places: &[Place], at: usize) {
        if let Some(Place::Used(entry)) = places.get(at) {
            let _changed = self.pass(entry.parent, at);
            self.lead(places, entry.parent);
            if is_searched(at) {
                self.plant(places, entry.parent, at, entry.name());
            }
        }
    }

    /// Remembers the last child of a directory, and tells whether it was another one.
    fn pass(&mut self, dir: usize, at: usize) -> bool {
        let at = number(at);
        match self.of.get_mut(dir) {
            Some(hint) if hint.last != at => {
                hint.last = at;
                true
            }
            _ => false,
        }
    }

    /// Remembers the way to a directory in those above it, up to one that has it already.
    fn lead(&mut self, places: &[Place], dir: usize) {
        let mut at = dir;
        'way: for _ in 0..MOST_STEPS {
            if at == 0 {
                break;
            }
            match places.get(at) {
                Some(Place::Used(entry)) => {
                    if !self.pass(entry.parent, at) {
                        break;
                    }
                    at = entry.parent;
                }
                _ => break,
            }
        }
    }

    /// Puts a child into the search tree of its directory: above those of a lower rank, which are parted by its name.
    fn plant(&mut self, places: &[Place], dir: usize, at: usize, name: &[u8]) {
        let mut link = Link::Top(dir);
        let mut next = self.follow(Link::Top(dir));
        'down: for _ in 0..MOST_STEPS {
            match child_at(places, dir, next) {
                None => break,
                Some(entry) => {
                    if rank(next) < rank(at) {
                        break;
                    }
                    link = if entry.name().cmp(name).is_lt() {
                        Link::Above(next)
                    } else {
                        Link::Below(next)
                    };
                    next = self.follow(link);
                }
            }
        }
        self.set(link, at);
        self.part(places, dir, at, next, name);
    }

    /// Parts a search tree by a name: what is below it, and what is above it.
    fn part(&mut self, places: &[Place], dir: usize, at: usize, top: usize, name: &[u8]) {
        let mut below = Link::Below(at);
        let mut above = Link::Above(at);
        let mut next = top;
        'parts: for _ in 0..MOST_STEPS {
            match child_at(places, dir, next) {
                None => break,
                Some(entry) => {
                    if entry.name().cmp(name).is_lt() {
                        self.set(below, next);
                        below = Link::Above(next);
                        next = self.follow(below);
                    } else {
                        self.set(above, next);
                        above = Link::Below(next);
                        next = self.follow(above);
                    }
                }
            }
        }
        self.set(below, 0);
        self.set(above, 0);
    }

    /// Forgets a node, before it is taken out of its directory.
    pub(crate) fn take(&mut self, places: &[Place], at: usize) {
        if is_searched(at) {
            if let Some(Place::Used(entry)) = places.get(at) {
                self.uproot(places, entry.parent, at, entry.name());
            }
        }
    }

    /// Takes a child out of the search tree of its directory.
    fn uproot(&mut self, places: &[Place], dir: usize, at: usize, name: &[u8]) {
        let mut link = Link::Top(dir);
        let mut next = self.follow(Link::Top(dir));
        'down: for _ in 0..MOST_STEPS {
            if next == at {
                self.join(link, at);
                break;
            }
            match child_at(places, dir, next) {
                None => break,
                Some(entry) => {
                    link = if entry.name().cmp(name).is_lt() {
                        Link::Above(next)
                    } else {
                        Link::Below(next)
                    };
                    next = self.follow(link);
                }
            }
        }
    }

    /// Joins what is below a child and what is above it, in its stead.
    fn join(&mut self, link: Link, at: usize) {
        let mut link = link;
        let mut below = self.follow(Link::Below(at));
        let mut above = self.follow(Link::Above(at));
        'joins: for _ in 0..MOST_STEPS {
            if below == 0 {
                break;
            }
            if above == 0 {
                break;
            }
            if rank(above) < rank(below) {
                self.set(link, below);
                link = Link::Above(below);
                below = self.follow(link);
            } else {
                self.set(link, above);
                link = Link::Below(above);
                above = self.follow(link);
            }
        }
        self.set(link, if below == 0 { above } else { below });
    }

    /// Forgets what was remembered at a place when it was last in use.
    pub(crate) fn clear(&mut self, at: usize) {
        if let Some(hint) = self.of.get_mut(at) {
            *hint = NONE;
        }
    }
}

/// Whether a place is a child of a directory, with a name below another and no sibling between them.
fn is_just_below(places: &[Place], dir: usize, name: &[u8], at: usize) -> bool {
    match child_at(places, dir, at) {
        None => false,
        Some(entry) => {
            if !entry.name().cmp(name).is_lt() {
                return false;
            }
            match entry.next {
                None => true,
                Some(next) => match child_at(places, dir, next) {
                    None => false,
                    Some(sibling) => !sibling.name().cmp(name).is_lt(),
                },
            }
        }
    }
}
