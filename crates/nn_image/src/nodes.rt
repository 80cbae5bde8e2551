// The nodes of INODE, put into a tree one after the other.
ghost use Rattle.std.specs.Prelude.{◌≡◌, ◌≢◌, Bool, true, List, ◌∷◌, [], ◌++◌, All, Err, IfOk, OnOk, Some, None};
ghost use Rattle.nn_base.specs.Labels.{IsLabel};
ghost use Rattle.nn_base.specs.Paths.{Bytes};
ghost use Rattle.nn_tree.specs.declared.spot.Spot.{Spot};
ghost use Rattle.nn_tree.specs.Nodes as nodes;
ghost use Rattle.nn_image.specs.declared.unmade.Unmade.TheVariants as unmade;
ghost use Rattle.nn_message.specs.Messages.{Inode, DirEntry, IsInode, IsDirEntry};
ghost use Rattle.nn_message.specs.Views.{IsInodeView};
ghost use Rattle.nn_image.specs.Assembly.{Partial, listing, opened, add_inodes, add_root};
ghost use Rattle.nn_image.specs.Building.{AreOpen, IsNoted, entries_text, inodes_text, IsHalf};

use crate::half::{Half, add_node, enter};
use crate::noted::Noted;
use crate::open_dir::OpenDir;
use crate::owners::owners_of;
use crate::seed::new_tree;
use crate::unmade::Unmade;
use nn_message::{InodeView, KindView, take_inode};
use nn_strtab::Names;
use nn_tree::{Spot, Tree};
use std::alloc::Global;

/// The id of the root, HDFS's `INodeId.ROOT_INODE_ID`.
const ROOT: u64 = 16_385;

/// What goes with a tree of the root alone.
fn begin<'a>(
    alloc: Global,
    directories: &'a [u8],
    root: Spot,
    used: u32,
) -> Result<Half<'a>, Unmade>
    ensures ok { (has : Spot → Bool) (place : Spot → List Bytes) (inode : Inode) (entries : List DirEntry) → inode.id ≡ 16385 → nodes.is_dir inode.kind ≡ true →
        All IsDirEntry entries → directories.now ≡ entries_text entries → has root ≡ true → place root ≡ [] →
        IfOk result (λ half. (half.used ≡ used) × IsNoted half.noted (inode ∷ []) ×
        AreOpen has place half.dirs.items (opened inode.kind [] (listing inode entries).children []) ×
        (half.directories.now ≡ entries_text (listing inode entries).rest) × All IsDirEntry (listing inode entries).rest) }
    ensures tree { (inode : Inode) (entries : List DirEntry) → inode.id ≡ 16385 → nodes.is_dir inode.kind ≡ true →
        All IsDirEntry entries → directories.now ≡ entries_text entries → result ≢ Err unmade.Tree }
{
    let mut noted = Noted::new(alloc);
    noted.inodes.push(ROOT)?;
    let mut dirs = Vec::new(alloc);
    let mut directories = directories;
    let dir = OpenDir {
        spot: root,
        names: 0,
        text: 0,
        newest: &[],
        children: &[],
    };
    match enter(&mut dirs, &mut directories, &dir, ROOT, true) {
        Ok(()) => Ok(Half {
            dirs,
            directories,
            used,
            noted,
        }),
        Err(unmade) => Err(unmade),
    }
}

/// A tree of the first node, which is the root.
pub(crate) fn add_first<'a, T: Tree>(
    alloc: Global,
    names: &Names,
    directories: &'a [u8],
    view: &InodeView<'a>,
) -> Result<(T, Half<'a>), Unmade>
    requires labels { All IsLabel names.now }
    requires view { ((inode : Inode) × IsInode inode × IsInodeView view.now inode) }
    ensures ok { (entries : List DirEntry) (inode : Inode) → All IsDirEntry entries → directories.now ≡ entries_text entries → IsInode inode → IsInodeView view.now inode →
        IfOk result (λ made. ((g : Partial) × (add_root names.now entries inode ≡ Some g) ×
        IsHalf made.1 (T.meaning made.0) (T.has made.0) (T.place made.0) names.now entries (inode ∷ []) g)) }
    ensures tree { (entries : List DirEntry) (inode : Inode) → All IsDirEntry entries → directories.now ≡ entries_text entries → IsInode inode → IsInodeView view.now inode →
        result ≡ Err unmade.Tree → add_root names.now entries inode ≡ None }
{
    if !view.name.is_empty() {
        return Err(Unmade::Tree);
    }
    if view.id != ROOT {
        return Err(Unmade::Tree);
    }
    let quota = match view.kind {
        KindView::File { .. } => return Err(Unmade::Tree),
        KindView::Dir { quota } => quota,
    };
    let Some(owners) = owners_of(names, 0, &view.attributes) else {
        return Err(Unmade::Tree);
    };
    let (tree, root) = new_tree(alloc, &view.attributes, &owners, quota)?;
    match begin(alloc, directories, root, owners.used) {
        Ok(half) => Ok((tree, half)),
        Err(unmade) => Err(unmade),
    }
}

/// Puts the nodes of these messages into the tree.
pub(crate) fn add_nodes<'a, T: Tree>(
    alloc: Global,
    tree: &mut T,
    half: &mut Half<'a>,
    names: &Names,
    inodes: &'a [u8],
) -> Result<(), Unmade>
    requires labels { All IsLabel names.now }
    requires half { ((entries : List DirEntry) × (done : List Inode) × (h : Partial) ×
        IsHalf half.old (T.meaning tree.old) (T.has tree.old) (T.place tree.old) names.now entries done h) }
    ensures ok { (entries : List DirEntry) (done rest : List Inode) (h : Partial) → All IsInode rest → inodes.now ≡ inodes_text rest →
        IsHalf half.old (T.meaning tree.old) (T.has tree.old) (T.place tree.old) names.now entries done h →
        OnOk result ((g : Partial) × (add_inodes names.now h rest ≡ Some g) ×
        IsHalf half.new (T.meaning tree.new) (T.has tree.new) (T.place tree.new) names.now entries (done ++ rest) g) }
    ensures tree { (entries : List DirEntry) (done rest : List Inode) (h : Partial) → All IsInode rest → inodes.now ≡ inodes_text rest →
        IsHalf half.old (T.meaning tree.old) (T.has tree.old) (T.place tree.old) names.now entries done h →
        result ≡ Err unmade.Tree → add_inodes names.now h rest ≡ None }
{
    let mut rest = inodes;
    'nodes: while !rest.is_empty() {
        let Some(view) = take_inode(&mut rest) else {
            return Err(Unmade::Tree);
        };
        match add_node(alloc, tree, half, names, &view) {
            Ok(()) => {}
            Err(unmade) => return Err(unmade),
        }
    }
    Ok(())
}
