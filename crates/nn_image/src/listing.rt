// The children that INODE_DIR has for a node.
ghost use Rattle.std.specs.Prelude.{◌≡◌, List, All, Some};
ghost use Rattle.std.specs.List.{flat_map};
ghost use Rattle.std.specs.Borrow.{Bor};
ghost use Rattle.nn_base.specs.Limits.{IsLong};
ghost use Rattle.nn_wire.specs.Varint.{varint};
ghost use Rattle.nn_tree.specs.Nodes as nodes;
ghost use Rattle.nn_message.specs.Messages.{Inode, DirEntry, IsDirEntry};
ghost use Rattle.nn_message.specs.Spelling.{delimited, dir_entry};
ghost use Rattle.nn_image.specs.Assembly.{listing};
ghost use Rattle.nn_image.specs.Building.{entries_text, IsListing};

use nn_message::take_dir_entry;

/// The ids of a node's children. The next entry is the node's own, or it has no children.
pub(crate) fn take_listing<'a>(
    directories: &mut &'a [u8],
    id: u64,
    is_dir: bool,
) -> Option<&'a [u8]>
    ensures { (inode : Inode) (entries : List DirEntry) → inode.id ≡ id → nodes.is_dir inode.kind ≡ is_dir →
        All IsDirEntry entries → directories.old.now ≡ entries_text entries →
        IsListing result directories.new.now (listing inode entries) }
{
    if !is_dir {
        return Some(&[]);
    }
    if directories.is_empty() {
        return Some(&[]);
    }
    let mut rest = *directories;
    let entry = take_dir_entry(&mut rest)?;
    if entry.parent != id {
        return Some(&[]);
    }
    if entry.children.is_empty() {
        return Some(&[]);
    }
    *directories = rest;
    Some(entry.children)
}
