// The entries of the plain tree, and the scans over them.
ghost use Rattle.std.specs.Prelude.{◌≡◌, ◌+◌, ◌<◌, ◌≤◌, ◌^◌, ℕ, Some, None, true, false, [], length, slice_get, position, IfSome, IfNone, OnOk};
ghost use Rattle.std.specs.List.{list_any};
ghost use Rattle.nn_base.specs.Paths as paths;
ghost use Rattle.nn_tree.specs.Namespace.{root_node, name_share, space_share};
ghost use Rattle.nn_tree.specs.Limits.{IsWithinLimits};
ghost use Rattle.nn_tree.specs.Slots.{slot_share};
ghost use Rattle.nn_tree.specs.Links.{IsTree, nodes_of, has_place, place_of, slot};
ghost use Rattle.nn_tree.specs.Nodes as nodes;
ghost use Rattle.nn_tree.specs.Plain as plain;

use crate::{Kind, Node};
use nn_base::{Label, Name, NoMemory};
use nn_quota::{Quota, Usage};

/// One place of the plain tree: a node, its name and the place of its parent. The root has no name; a place that isn't live is free.
#[derive(Drop)]
pub(crate) struct Entry {
    pub(crate) live: bool,
    pub(crate) parent: usize,
    pub(crate) name: Option<Name>,
    pub(crate) node: Node,
}

impl Entry {
    /// The root of the empty namespace.
    pub(crate) fn root() -> Entry
        ensures live { result.live ≡ true }
        ensures name { result.name ≡ None }
        ensures node { result.node ≡ root_node }
    {
        match (Label::of(b"hdfs"), Label::of(b"supergroup")) {
            (Some(owner), Some(group)) => Entry {
                live: true,
                parent: 0,
                name: None,
                node: Node {
                    id: 16385,
                    owner,
                    group,
                    mode: 0o755,
                    time: 0,
                    kind: no_quota(),
                },
            },
            _ => unreachable!(),
        }
    }

    /// A free place.
    pub(crate) fn free(label: Label) -> Entry
        ensures { result.live ≡ false }
    {
        Entry {
            live: false,
            parent: 0,
            name: None,
            node: Node {
                id: 0,
                owner: label,
                group: label,
                mode: 0,
                time: 0,
                kind: no_quota(),
            },
        }
    }

    /// A place in use. That the name is one is told by its bytes.
    pub(crate) fn used(parent: usize, name: Name, node: Node) -> Entry
        ensures value { result ≡ record { live = true; parent = parent; name = Some name; node = node } }
        ensures name { paths.is_name name ≡ true }
    {
        let _bytes = name.bytes();
        Entry {
            live: true,
            parent,
            name: Some(name),
            node,
        }
    }

    pub(crate) fn name(&self) -> &[u8]
        ensures { result.now ≡ plain.name_of self.now }
    {
        match &self.name {
            Some(name) => name.bytes(),
            None => b"",
        }
    }

    /// Whether it is the child of a place that has a name.
    fn is_child(&self, at: usize, parent: usize, name: &[u8]) -> bool
        ensures { result ≡ plain.is_child_link at (plain.link_of self.now) parent name.now }
    {
        self.live && at != 0 && self.parent == parent && self.name() == name
    }

    /// Whether it is a child of a place with a name above the bound.
    fn is_later(&self, at: usize, parent: usize, bound: &[u8]) -> bool
        ensures { result ≡ plain.is_later_link at (plain.link_of self.now) parent bound.now }
    {
        self.live && at != 0 && self.parent == parent && bound.cmp(self.name()).is_lt()
    }
}

fn no_quota() -> Kind
    ensures { result ≡ root_node.kind }
{
    Kind::Dir {
        quota: Quota {
            names: None,
            space: None,
        },
    }
}

/// The first free place.
pub(crate) fn free_place(entries: &[Entry]) -> Option<usize>
    ensures found { IfSome result (λ i. IfSome (slice_get entries.now i) (λ e. e.live ≡ false)) }
    ensures within { IfSome result (λ i. i < length entries.now) }
    ensures is { result ≡ position plain.is_free entries.now }
{
    entries.iter().position(|e| !e.live)
}

pub(crate) fn has_free(entries: &[Entry]) -> bool
    ensures { result ≡ list_any plain.is_free entries.now }
{
    entries.iter().any(|e| !e.live)
}

/// Sees to a free place: where there is none, one more entry makes it.
pub(crate) fn ensure_free(entries: &mut Vec<Entry>, label: Label) -> Result<(), NoMemory>
    ensures ok { OnOk result (list_any plain.is_free entries.new.items ≡ true) }
    ensures more { plain.IsMoreOf entries.old.items entries.new.items }
{
    if has_free(entries) {
        return Ok(());
    }
    entries.push(Entry::free(label))?;
    Ok(())
}

/// The child of a place that has a name.
pub(crate) fn child(entries: &[Entry], parent: usize, name: &[u8]) -> Option<usize>
    ensures found { IfSome result (λ i. plain.is_child (plain.links_of entries.now) parent name.now i ≡ true) }
    ensures within { IfSome result (λ i. i < length entries.now) }
    ensures none { IfNone result ((k : ℕ) → k < length entries.now → plain.is_child (plain.links_of entries.now) parent name.now k ≡ false) }
{
    for i in 0..entries.len() {
        if entries[i].is_child(i, parent, name) {
            return Some(i);
        }
    }
    None
}

/// The better one of the best place so far and a further one.
fn better(
    entries: &[Entry],
    parent: usize,
    bound: &[u8],
    best: Option<usize>,
    i: usize,
) -> Option<usize>
    requires within { i < length entries.now }
    requires best { IfSome best (λ b. b < length entries.now) }
    requires least { plain.IsLeast (plain.links_of entries.now) parent bound.now i best }
    ensures best { IfSome result (λ b. b < length entries.now) }
    ensures least { plain.IsLeast (plain.links_of entries.now) parent bound.now (i + 1) result }
{
    let entry = &entries[i];
    if !entry.is_later(i, parent, bound) {
        return best;
    }
    match best {
        None => Some(i),
        Some(b) => {
            if entry.name().cmp(entries[b].name()).is_lt() {
                Some(i)
            } else {
                Some(b)
            }
        }
    }
}

/// The child of a place that has the least name above the bound.
pub(crate) fn least_child(entries: &[Entry], parent: usize, bound: &[u8]) -> Option<usize>
    ensures { plain.IsLeast (plain.links_of entries.now) parent bound.now (length entries.now) result }
{
    let mut best = None;
    for i in 0..entries.len() {
        best = better(entries, parent, bound, best, i);
    }
    best
}

/// Whether a climb of at most `steps` from a place reaches another.
fn climbs_to(entries: &[Entry], above: usize, steps: usize, at: usize) -> bool
    ensures { result ≡ plain.climbs_to entries.now above steps at }
{
    if at == above {
        return true;
    }
    if steps == 0 || at == 0 || entries.len() <= at {
        return false;
    }
    climbs_to(entries, above, steps - 1, entries[at].parent)
}

/// Frees a place, and all below it.
pub(crate) fn cut_below(entries: &mut [Entry], above: usize)
    ensures { plain.IsCutOf entries.old entries.new above }
{
    let count = entries.len();
    for i in 0..count {
        if climbs_to(entries, above, count, i) {
            entries[i].live = false;
        }
    }
}

/// What the entry at a place adds to the usage of another.
pub(crate) fn share_of(entries: &[Entry], above: usize, i: usize) -> Usage
    requires tree { IsTree (plain.links_of entries.now) }
    requires limits { IsWithinLimits (nodes_of (plain.links_of entries.now)) }
    requires there { has_place (plain.links_of entries.now) above ≡ true }
    requires within { i < length entries.now }
    ensures names { result.names ≡ slot_share (name_share (place_of (plain.links_of entries.now) above)) (slot (plain.links_of entries.now) i) }
    ensures space { result.space ≡ slot_share (space_share (place_of (plain.links_of entries.now) above)) (slot (plain.links_of entries.now) i) }
    ensures one { result.names ≤ 1 }
    ensures little { result.space < 2 ^ 64 }
{
    let entry = &entries[i];
    if !entry.live {
        return Usage { names: 0, space: 0 };
    }
    if !climbs_to(entries, above, entries.len(), i) {
        return Usage { names: 0, space: 0 };
    }
    Usage {
        names: 1,
        space: u128::from(entry.node.kind.space()),
    }
}

/// How many blocks the entry at a place adds to those of the tree.
pub(crate) fn blocks_of(entries: &[Entry], i: usize) -> u64
    requires tree { IsTree (plain.links_of entries.now) }
    requires within { i < length entries.now }
    ensures { result ≡ slot_share (λ p node. length (nodes.blocks_of node.kind)) (slot (plain.links_of entries.now) i) }
{
    let entry = &entries[i];
    if entry.live {
        entry.node.kind.block_count() as u64
    } else {
        0
    }
}
