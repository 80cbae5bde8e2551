// The tree of an image as far as it is built, a node at a time.
ghost use Rattle.std.specs.Prelude.{◌≡◌, ◌≢◌, Bool, true, List, ◌∷◌, [], ◌++◌, length, All, Err, OnOk, Some, None};
ghost use Rattle.nn_base.specs.Labels.{IsLabel};
ghost use Rattle.nn_base.specs.Paths.{Bytes};
ghost use Rattle.nn_tree.specs.declared.spot.Spot.{Spot};
ghost use Rattle.nn_tree.specs.Nodes as nodes;
ghost use Rattle.nn_image.specs.declared.unmade.Unmade.TheVariants as unmade;
ghost use Rattle.nn_message.specs.Messages.{Inode, DirEntry, IsInode, IsDirEntry};
ghost use Rattle.nn_message.specs.Views.{IsInodeView};
ghost use Rattle.nn_image.specs.Assembly.{Level, Partial, listing, opened, add_inode};
ghost use Rattle.nn_image.specs.Building.{IsOpen, AreOpen, IsListed, entries_text, IsPrepared, IsMade, IsHalf};

use crate::listing::take_listing;
use crate::noted::Noted;
use crate::open_dir::OpenDir;
use crate::prepared::{Prepared, prepare};
use crate::unmade::Unmade;
use nn_message::InodeView;
use nn_strtab::Names;
use nn_tree::Tree;
use std::alloc::Global;

/// What goes with a tree that is being built.
#[derive(Drop)]
pub(crate) struct Half<'a> {
    /// The directories above the next node, the innermost last.
    pub(crate) dirs: Vec<OpenDir<'a>>,
    /// The entries of INODE_DIR to come.
    pub(crate) directories: &'a [u8],
    /// How many names of the string table were used.
    pub(crate) used: u32,
    pub(crate) noted: Noted,
}

/// Takes the children of a node that was put into the tree, and opens it where it is a directory.
pub(crate) fn enter<'a>(
    dirs: &mut Vec<OpenDir<'a>>,
    directories: &mut &'a [u8],
    dir: &OpenDir<'a>,
    id: u64,
    is_dir: bool,
) -> Result<(), Unmade>
    ensures ok { (has : Spot → Bool) (place : Spot → List Bytes) (levels : List Level) (path : List Bytes) (inode : Inode) (entries : List DirEntry) →
        inode.id ≡ id → nodes.is_dir inode.kind ≡ is_dir → All IsDirEntry entries → directories.old.now ≡ entries_text entries →
        AreOpen has place dirs.old.items levels → IsOpen has place dir.now (record { path = path; newest = []; children = [] }) →
        OnOk result (AreOpen has place dirs.new.items (opened inode.kind path (listing inode entries).children levels) ×
        (directories.new.now ≡ entries_text (listing inode entries).rest) × All IsDirEntry (listing inode entries).rest) }
    ensures tree { (inode : Inode) (entries : List DirEntry) →
        inode.id ≡ id → nodes.is_dir inode.kind ≡ is_dir → All IsDirEntry entries → directories.old.now ≡ entries_text entries →
        result ≢ Err unmade.Tree }
{
    let Some(children) = take_listing(directories, id, is_dir) else {
        return Err(Unmade::Tree);
    };
    if is_dir {
        dirs.push(OpenDir { children, ..*dir })?;
    }
    Ok(())
}

/// Puts a prepared node of this id into the tree.
fn put<'a, T: Tree>(
    tree: &mut T,
    half: &mut Half<'a>,
    next: Prepared<'a>,
    id: u64,
) -> Result<(), Unmade>
    requires { ((table : List Bytes) × (entries : List DirEntry) × (done : List Inode) × (h : Partial) × (inode : Inode) ×
        IsInode inode × IsMade half.old (T.meaning tree.old) table entries done h ×
        IsPrepared next half.old.dirs.items (T.has tree.old) (T.place tree.old) table h inode) }
    ensures ok { (table : List Bytes) (entries : List DirEntry) (done : List Inode) (h : Partial) (inode : Inode) →
        inode.id ≡ id → IsInode inode → IsMade half.old (T.meaning tree.old) table entries done h →
        IsPrepared next.entry half.old.dirs.items (T.has tree.old) (T.place tree.old) table h inode →
        OnOk result ((g : Partial) × (add_inode table h inode ≡ Some g) ×
        IsHalf half.new (T.meaning tree.new) (T.has tree.new) (T.place tree.new) table entries (done ++ inode ∷ []) g) }
    ensures tree { (table : List Bytes) (entries : List DirEntry) (done : List Inode) (h : Partial) (inode : Inode) →
        inode.id ≡ id → IsInode inode → IsMade half.old (T.meaning tree.old) table entries done h →
        IsPrepared next.entry half.old.dirs.items (T.has tree.old) (T.place tree.old) table h inode →
        result ≢ Err unmade.Tree }
{
    half.noted.note(&next.node)?;
    half.used = next.used;
    half.dirs.push(next.parent)?;
    tree.reserve(next.parent.spot)?;
    let is_dir = next.node.kind.is_dir();
    let spot = tree.insert(next.parent.spot, next.name, next.node);
    let dir = OpenDir {
        spot,
        names: next.names,
        text: next.text,
        newest: &[],
        children: &[],
    };
    enter(&mut half.dirs, &mut half.directories, &dir, id, is_dir)
}

/// The next node of INODE, put where it belongs.
pub(crate) fn add_node<'a, T: Tree>(
    alloc: Global,
    tree: &mut T,
    half: &mut Half<'a>,
    names: &Names,
    view: &InodeView<'a>,
) -> Result<(), Unmade>
    requires labels { All IsLabel names.now }
    requires half { ((entries : List DirEntry) × (done : List Inode) × (h : Partial) ×
        IsHalf half.old (T.meaning tree.old) (T.has tree.old) (T.place tree.old) names.now entries done h) }
    requires view { ((inode : Inode) × IsInode inode × IsInodeView view.now inode) }
    ensures ok { (entries : List DirEntry) (done : List Inode) (h : Partial) (inode : Inode) → IsInode inode → IsInodeView view.now inode →
        IsHalf half.old (T.meaning tree.old) (T.has tree.old) (T.place tree.old) names.now entries done h →
        OnOk result ((g : Partial) × (add_inode names.now h inode ≡ Some g) ×
        IsHalf half.new (T.meaning tree.new) (T.has tree.new) (T.place tree.new) names.now entries (done ++ inode ∷ []) g) }
    ensures tree { (entries : List DirEntry) (done : List Inode) (h : Partial) (inode : Inode) → IsInode inode → IsInodeView view.now inode →
        IsHalf half.old (T.meaning tree.old) (T.has tree.old) (T.place tree.old) names.now entries done h →
        result ≡ Err unmade.Tree → add_inode names.now h inode ≡ None }
{
    let next = prepare(alloc, names, half.used, &mut half.dirs, &half.noted, view)?;
    put(tree, half, next, view.id)
}
