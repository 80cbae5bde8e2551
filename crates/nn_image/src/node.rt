// A node of an image, with its blocks in memory of its own.
ghost use Rattle.std.specs.Prelude.{◌≡◌, ◌≢◌, List, [], All, IfOk, Err};
ghost use Rattle.nn_tree.specs.declared.node.Block.{Block};
ghost use Rattle.nn_tree.specs.Limits.{IsBlock};
ghost use Rattle.nn_image.specs.declared.unmade.Unmade.TheVariants.{Tree};
ghost use Rattle.nn_message.specs.Messages.{Inode, IsInode};
ghost use Rattle.nn_message.specs.Spelling.{blocks_field};
ghost use Rattle.nn_message.specs.Views.{IsInodeView};
ghost use Rattle.nn_image.specs.Assembly.{node_of};

use crate::owners::Owners;
use crate::unmade::Unmade;
use nn_base::NoMemory;
use nn_message::{InodeView, KindView, take_block};
use nn_tree::{Block, Blocks, Kind, Node};
use std::alloc::Global;

/// A list for the blocks in these bytes. Most files have one, and take no more memory than it needs.
fn first_room(alloc: Global, bytes: &[u8]) -> Result<Vec<Block>, NoMemory>
    ensures { IfOk result (λ list. list.items ≡ []) }
{
    let count = usize::from(!bytes.is_empty());
    let list = Vec::with_capacity(alloc, count)?;
    Ok(list)
}

fn read_blocks(alloc: Global, bytes: &[u8]) -> Result<Blocks, Unmade>
    ensures ok { (blocks : List Block) → All IsBlock blocks → bytes.now ≡ blocks_field blocks → IfOk result (λ read. read ≡ blocks) }
    ensures tree { (blocks : List Block) → All IsBlock blocks → bytes.now ≡ blocks_field blocks → result ≢ Err Tree }
{
    let mut list = first_room(alloc, bytes)?;
    let mut rest = bytes;
    'fields: while !rest.is_empty() {
        match take_block(&mut rest) {
            Some(block) => list.push(block)?,
            None => return Err(Unmade::Tree),
        }
    }
    Ok(Blocks { list })
}

/// The node that a message shows.
pub(crate) fn node_from(
    alloc: Global,
    view: &InodeView<'_>,
    owners: &Owners,
) -> Result<Node, Unmade>
    ensures ok { (inode : Inode) → IsInode inode → IsInodeView view.now inode → IfOk result (λ node.
        node ≡ node_of (record { owner = owners.now.owner; group = owners.now.group; used = owners.now.used }) inode) }
    ensures tree { (inode : Inode) → IsInode inode → IsInodeView view.now inode → result ≢ Err Tree }
{
    let kind = match view.kind {
        KindView::File {
            replication,
            is_open,
            blocks,
        } => Kind::File {
            replication,
            is_open,
            blocks: read_blocks(alloc, blocks)?,
        },
        KindView::Dir { quota } => Kind::Dir { quota },
    };
    Ok(Node {
        id: view.id,
        owner: owners.owner,
        group: owners.group,
        mode: view.attributes.mode,
        time: view.attributes.time,
        kind,
    })
}
