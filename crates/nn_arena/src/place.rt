// The places of the arena.
ghost use Rattle.std.specs.Prelude.{◌≡◌, ◌<◌, Some, None, true, length, slice_get};
ghost use Rattle.nn_base.specs.Paths as paths;
ghost use Rattle.nn_tree.specs.Namespace.{root_node};
ghost use Rattle.nn_arena.specs.Places as arena;

use nn_base::{Label, Name};
use nn_quota::{Quota, Usage};
use nn_tree::{Kind, Node};

/// A node in use, with its name and its links. The root stands at 0 and has no name.
#[derive(Drop)]
pub(crate) struct Entry {
    pub(crate) parent: usize,
    /// The child whose name comes first.
    pub(crate) first: Option<usize>,
    /// The sibling whose name comes next.
    pub(crate) next: Option<usize>,
    pub(crate) name: Option<Name>,
    pub(crate) node: Node,
    /// What stands at and below it.
    pub(crate) usage: Usage,
}

/// One place of the arena. A free place holds nothing of the node that stood there, but the place that is free next.
#[derive(Drop)]
pub(crate) enum Place {
    Free { next: Option<usize> },
    Used(Entry),
}

impl Entry {
    /// The root of the empty namespace.
    pub(crate) fn root() -> Entry
        ensures first { result.first ≡ None }
        ensures name { result.name ≡ None }
        ensures node { result.node ≡ root_node }
        ensures usage { result.usage ≡ record { names = 1; space = 0 } }
    {
        match (Label::of(b"hdfs"), Label::of(b"supergroup")) {
            (Some(owner), Some(group)) => Entry {
                parent: 0,
                first: None,
                next: None,
                name: None,
                node: Node {
                    id: 16385,
                    owner,
                    group,
                    mode: 0o755,
                    time: 0,
                    kind: Kind::Dir {
                        quota: Quota {
                            names: None,
                            space: None,
                        },
                    },
                },
                usage: Usage { names: 1, space: 0 },
            },
            _ => unreachable!(),
        }
    }

    pub(crate) fn name(&self) -> &[u8]
        ensures { result.now ≡ arena.name_of self.now }
    {
        match &self.name {
            Some(name) => name.bytes(),
            None => b"",
        }
    }
}

/// The entry of a place in use.
pub(crate) fn entry_in(places: &[Place], at: usize) -> &Entry
    requires { arena.in_use places.now at ≡ true }
    ensures entry { arena.entry_at places.now at ≡ Some result.now }
    ensures within { at < length places.now }
{
    match &places[at] {
        Place::Used(entry) => entry,
        Place::Free { .. } => unreachable!(),
    }
}
