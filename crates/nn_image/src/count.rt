// How many messages stand one after the other, and whether there are too many blocks in them.
ghost use Rattle.std.specs.Prelude.{◌≡◌, ◌<◌, ◌≤◌, ◌↔◌, ◌++◌, List, All, length, IsTrue, IfSome, MatchOption};
ghost use Rattle.std.specs.List.{flat_map};
ghost use Rattle.nn_base.specs.Limits.{most_blocks};
ghost use Rattle.nn_base.specs.Paths.{Bytes};
ghost use Rattle.nn_tree.specs.declared.node.Block.{Block};
ghost use Rattle.nn_tree.specs.declared.node.Kind.{Kind};
ghost use Rattle.nn_tree.specs.Limits.{IsBlock};
ghost use Rattle.nn_tree.specs.Nodes as nodes;
ghost use Rattle.nn_message.specs.Messages.{Inode, IsInode};
ghost use Rattle.nn_message.specs.Spelling.{delimited, blocks_field};
ghost use Rattle.nn_message.specs.Views.{IsKindView};
ghost use Rattle.nn_image.specs.Building.{inodes_text, blocks_among};

use nn_base::limits::MOST_BLOCKS;
use nn_message::{KindView, take_block, take_inode};
use nn_wire::varint_get;

/// What stands behind the first message.
fn behind_first(bytes: &[u8]) -> Option<&[u8]>
    ensures some { (message after : Bytes) → bytes.now ≡ delimited message ++ after → MatchOption result ⊥ (λ rest. rest.now ≡ after) }
    ensures shorter { IfSome result (λ rest. length rest.now < length bytes.now) }
{
    let (len, size) = varint_get(bytes)?;
    let (_, behind) = bytes.split_at(size);
    if len > behind.len() as u64 {
        return None;
    }
    let (_, after) = behind.split_at(len as usize);
    Some(after)
}

/// How many messages these are, each with its length before it. Only the lengths are read, and no memory is asked for.
pub(crate) fn count_messages(bytes: &[u8]) -> u64
    ensures { (messages : List Bytes) → bytes.now ≡ flat_map delimited messages → result ≡ length messages }
{
    let mut rest = bytes;
    let mut count = 0;
    'messages: while let Some(behind) = behind_first(rest) {
        rest = behind;
        count += 1;
    }
    count
}

/// How many blocks these fields spell.
fn count_blocks(bytes: &[u8]) -> u64
    ensures { (blocks : List Block) → All IsBlock blocks → bytes.now ≡ blocks_field blocks → result ≡ length blocks }
{
    let mut rest = bytes;
    let mut count = 0;
    'fields: while let Some(_) = take_block(&mut rest) {
        count += 1;
    }
    count
}

fn blocks_of(kind: &KindView<'_>) -> u64
    ensures { (k : Kind) → All IsBlock (nodes.blocks_of k) → IsKindView kind.now k → result ≡ length (nodes.blocks_of k) }
{
    match kind {
        KindView::File { blocks, .. } => count_blocks(blocks),
        KindView::Dir { .. } => 0,
    }
}

/// Whether these nodes have together no more blocks than a namespace, by a count of them. The messages are read once more,
/// since no memory is asked for.
fn have_few_counted(inodes: &[u8]) -> bool
    ensures { (all : List Inode) → All IsInode all → inodes.now ≡ inodes_text all → IsTrue result ↔ length (blocks_among all) ≤ most_blocks }
{
    let mut rest = inodes;
    let mut room = MOST_BLOCKS;
    'nodes: while let Some(view) = take_inode(&mut rest) {
        let blocks = blocks_of(&view.kind);
        if blocks > room {
            return false;
        }
        room -= blocks;
    }
    true
}

/// The fewest bytes of a block in its file: its key, its length, and three fields of two bytes.
const LEAST_BLOCK: u64 = 8;

/// Whether these nodes have together no more blocks than a namespace. Only a section of more than 64 MiB can have more, so
/// that the blocks of others aren't counted.
pub(crate) fn have_few_blocks(inodes: &[u8]) -> bool
    ensures { (all : List Inode) → All IsInode all → inodes.now ≡ inodes_text all → IsTrue result ↔ length (blocks_among all) ≤ most_blocks }
{
    if inodes.len() as u64 <= LEAST_BLOCK * MOST_BLOCKS {
        return true;
    }
    have_few_counted(inodes)
}
