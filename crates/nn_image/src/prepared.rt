// The next node of an image, before it is put into the tree.
ghost use Rattle.std.specs.Prelude.{◌≡◌, ◌≢◌, ◌+◌, ◌<◌, ◌≤◌, ◌⊎◌, Bool, true, false, List, ◌∷◌, [], ◌++◌, length, All, Err, IfOk, Some, None, IfSome, MatchOption};
ghost use Rattle.nn_base.specs.Labels.{IsLabel};
ghost use Rattle.nn_base.specs.Limits.{most_levels, most_path, most_nodes, most_blocks};
ghost use Rattle.nn_base.specs.Paths.{Bytes, is_name};
ghost use Rattle.nn_tree.specs.declared.spot.Spot.{Spot};
ghost use Rattle.nn_tree.specs.Nodes.{blocks_of};
ghost use Rattle.nn_tree.specs.Namespace.{node_count, block_count};
ghost use Rattle.nn_image.specs.declared.unmade.Unmade.TheVariants.{Tree};
ghost use Rattle.nn_message.specs.Messages.{Inode, IsInode};
ghost use Rattle.nn_message.specs.Views.{IsInodeView};
ghost use Rattle.nn_image.specs.Assembly.{Level, Partial, waiting, placed, has_room, add_inode};
ghost use Rattle.nn_image.specs.Building.{IsOpen, AreOpen, IsPrepared};

use crate::node::node_from;
use crate::noted::Noted;
use crate::open_dir::{OpenDir, next_child, take_waiting};
use crate::owners::owners_of;
use crate::unmade::Unmade;
use nn_base::Name;
use nn_base::limits::{MOST_BLOCKS, MOST_LEVELS, MOST_NODES, MOST_PATH};
use nn_message::InodeView;
use nn_strtab::Names;
use nn_tree::{Kind, Node};
use std::alloc::Global;

/// A node with its name and its parent, which has it as the newest child.
#[derive(Drop)]
pub(crate) struct Prepared<'a> {
    pub(crate) parent: OpenDir<'a>,
    /// How many names its path has, and how many bytes the text of the path.
    pub(crate) names: usize,
    pub(crate) text: usize,
    pub(crate) name: Name,
    pub(crate) node: Node,
    /// How many names of the string table are used with it.
    pub(crate) used: u32,
}

/// How many names the path of a child has, and how many bytes its text, where these aren't too many.
fn child_path(parent: &OpenDir<'_>, name: &[u8]) -> Option<(usize, usize)>
    ensures none { result ≡ None → most_levels < parent.now.names + 1 ⊎ most_path < parent.now.text + (1 + length name.now) }
    ensures some { IfSome result (λ path. (path.0 ≡ parent.now.names + 1) × (path.1 ≡ parent.now.text + (1 + length name.now)) ×
        (path.0 ≤ most_levels) × (path.1 ≤ most_path)) }
{
    if parent.names >= MOST_LEVELS {
        return None;
    }
    if parent.text >= MOST_PATH {
        return None;
    }
    let text = parent.text + 1 + name.len();
    if text > MOST_PATH {
        return None;
    }
    Some((parent.names + 1, text))
}

/// Whether one node more, and its blocks, are not too many.
fn are_few(noted: &Noted, kind: &Kind) -> bool
    ensures yes { result ≡ true → (length noted.now.inodes.items < most_nodes) × (length noted.now.blocks.items + length (blocks_of kind.now) ≤ most_blocks) }
    ensures no { result ≡ false → most_nodes ≤ length noted.now.inodes.items ⊎ most_blocks < length noted.now.blocks.items + length (blocks_of kind.now) }
{
    if noted.inodes.len() as u64 >= MOST_NODES {
        return false;
    }
    let blocks = kind.block_count() as u64;
    if blocks > MOST_BLOCKS {
        return false;
    }
    if noted.blocks.len() as u64 > MOST_BLOCKS - blocks {
        return false;
    }
    true
}

/// The directory in which a node of this id and name comes next, once it has it as its newest child.
fn stand<'a>(dirs: &mut Vec<OpenDir<'a>>, id: u64, name: &'a [u8]) -> Option<OpenDir<'a>>
    requires { is_name name.now ≡ true }
    ensures { (has : Spot → Bool) (place : Spot → List Bytes) (levels : List Level) (inode : Inode) →
        inode.id ≡ id → inode.name ≡ name.now → AreOpen has place dirs.old.items levels →
        MatchOption result (placed (waiting levels) inode ≡ None) (λ dir. ((level : Level) × (outer : List Level) ×
        (placed (waiting levels) inode ≡ Some (record { path = level.path ++ inode.name ∷ []; levels = level ∷ outer })) ×
        IsOpen has place dir level × AreOpen has place dirs.new.items outer)) }
{
    let dir = take_waiting(dirs)?;
    next_child(&dir, id, name)
}

/// The next node, where it has its owner and its group, its place and room. The directories inside its parent are taken
/// away from those that are open, and so is the parent itself.
pub(crate) fn prepare<'a>(
    alloc: Global,
    names: &Names,
    used: u32,
    dirs: &mut Vec<OpenDir<'a>>,
    noted: &Noted,
    view: &InodeView<'a>,
) -> Result<Prepared<'a>, Unmade>
    requires { All IsLabel names.now }
    ensures ok { (has : Spot → Bool) (place : Spot → List Bytes) (h : Partial) (inode : Inode) →
        IsInode inode → IsInodeView view.now inode → used ≡ h.used → AreOpen has place dirs.old.items h.levels →
        length noted.now.inodes.items ≡ node_count h.nodes → length noted.now.blocks.items ≡ block_count h.nodes →
        IfOk result (λ p. IsPrepared p dirs.new.items has place names.now h inode) }
    ensures tree { (has : Spot → Bool) (place : Spot → List Bytes) (h : Partial) (inode : Inode) →
        IsInode inode → IsInodeView view.now inode → used ≡ h.used → AreOpen has place dirs.old.items h.levels →
        length noted.now.inodes.items ≡ node_count h.nodes → length noted.now.blocks.items ≡ block_count h.nodes →
        result ≡ Err Tree → add_inode names.now h inode ≡ None }
{
    let Some(owners) = owners_of(names, used, &view.attributes) else {
        return Err(Unmade::Tree);
    };
    let Some(name) = Name::of(alloc, view.name)? else {
        return Err(Unmade::Tree);
    };
    let Some(parent) = stand(dirs, view.id, view.name) else {
        return Err(Unmade::Tree);
    };
    let Some((names, text)) = child_path(&parent, view.name) else {
        return Err(Unmade::Tree);
    };
    let node = node_from(alloc, view, &owners)?;
    if !are_few(noted, &node.kind) {
        return Err(Unmade::Tree);
    }
    Ok(Prepared {
        parent,
        names,
        text,
        name,
        node,
        used: owners.used,
    })
}
