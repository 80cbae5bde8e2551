// Reads a file: its replication, its blocks, and whether it is open.
ghost use Rattle.std.specs.Prelude.{◌≡◌, ◌<◌, ◌^◌};
ghost use Rattle.nn_tree.specs.declared.node.Block.{Block};
ghost use Rattle.nn_tree.specs.Limits.{IsBlock};
ghost use Rattle.nn_wire.specs.Field.{bytes_field};
ghost use Rattle.nn_message.specs.Spelling as spelling;
ghost use Rattle.nn_message.specs.Reading as reading;
ghost use Rattle.nn_message.specs.MessageReading as messages;
ghost use Rattle.nn_message.specs.Views as views;

use crate::message::Attributes;
use crate::reading::fields::{is_next, take_bytes, take_long, take_number};
use crate::view::KindView;
use nn_base::limits::{MOST_BLOCK_LENGTH, MOST_BLOCKS_OF_FILE, MOST_MODE, MOST_REPLICATION};
use nn_tree::Block;

/// The key of a block in a file: a field of bytes, of number 6.
const BLOCK: u8 = 50;

/// The key of the mark that a file is open: a number, of field 7.
const OPEN: u8 = 56;

#[tactic(auto, unfolding(crate::specs::MessageReading::block_length_at))]
fn take_length(rest: &mut &[u8]) -> Option<u64>
    ensures { reading.Gives result rest.new.now (messages.block_length_at rest.old.now) }
{
    let length = take_number(3, rest)?;
    if length == 0 {
        return None;
    }
    if length > MOST_BLOCK_LENGTH {
        return None;
    }
    Some(length)
}

#[tactic(auto, unfolding(crate::specs::MessageReading::block_at))]
fn read_block(message: &[u8]) -> Option<Block>
    ensures { result ≡ reading.whole messages.block_at message.now }
{
    let mut rest = message;
    let id = take_long(1, &mut rest)?;
    let stamp = take_long(2, &mut rest)?;
    let length = take_length(&mut rest)?;
    if !rest.is_empty() {
        return None;
    }
    Some(Block { id, stamp, length })
}

#[tactic(auto, unfolding(crate::specs::MessageReading::block_field_at))]
fn next_block(rest: &mut &[u8]) -> Option<Block>
    ensures { reading.Gives result rest.new.now (messages.block_field_at rest.old.now) }
{
    let message = take_bytes(6, rest)?;
    read_block(message)
}

/// Takes a block off the front of a file's blocks, as one of its fields, `INodeFile.blocks`. After `None` nothing is known
/// of what is left.
pub fn take_block(rest: &mut &[u8]) -> Option<Block>
    ensures { reading.Takes (λ v b. v ≡ b) IsBlock
        (λ b. bytes_field 6 (spelling.block b)) result rest.old.now rest.new.now }
{
    next_block(rest)
}

/// All blocks of a file, as their fields.
fn take_blocks<'a>(rest: &mut &'a [u8]) -> Option<&'a [u8]>
    ensures { reading.Shows views.IsBlocksView result rest.new.now (messages.blocks_at rest.old.now) }
{
    let bytes = *rest;
    let mut left = bytes;
    let mut count = 0;
    'fields: while is_next(BLOCK, left) {
        next_block(&mut left)?;
        count += 1;
    }
    if count > MOST_BLOCKS_OF_FILE {
        return None;
    }
    *rest = left;
    Some(&bytes[..bytes.len() - left.len()])
}

#[tactic(auto, unfolding(crate::specs::MessageReading::mode_at))]
fn take_mode(number: u32, rest: &mut &[u8]) -> Option<u16>
    ensures { reading.Gives result rest.new.now (messages.mode_at number rest.old.now) }
{
    let mode = take_number(number, rest)?;
    if mode > u64::from(MOST_MODE) {
        return None;
    }
    Some(mode as u16)
}

/// Owner, group and mode, as the fields from `first` on.
#[tactic(auto, unfolding(crate::specs::MessageReading::access_at))]
pub(crate) fn take_access(first: u32, rest: &mut &[u8]) -> Option<(u64, u64, u16)>
    requires { first < 2 ^ 29 }
    ensures { reading.Shows views.IsAccess result rest.new.now (messages.access_at first rest.old.now) }
{
    let owner = take_number(first, rest)?;
    let group = take_number(first + 1, rest)?;
    let mode = take_mode(first + 2, rest)?;
    Some((owner, group, mode))
}

/// The mark of an open file. There is no other mark than 1.
#[tactic(auto, unfolding(crate::specs::MessageReading::open_at))]
fn take_open(rest: &mut &[u8]) -> Option<bool>
    ensures { reading.Gives result rest.new.now (messages.open_at rest.old.now) }
{
    if !is_next(OPEN, rest) {
        return Some(false);
    }
    let mark = take_number(7, rest)?;
    if mark != 1 {
        return None;
    }
    Some(true)
}

#[tactic(auto, unfolding(crate::specs::MessageReading::replication_at))]
fn take_replication(rest: &mut &[u8]) -> Option<u16>
    ensures { reading.Gives result rest.new.now (messages.replication_at rest.old.now) }
{
    let replication = take_number(1, rest)?;
    if replication == 0 {
        return None;
    }
    if replication > u64::from(MOST_REPLICATION) {
        return None;
    }
    Some(replication as u16)
}

/// A file and its attributes.
#[tactic(auto, unfolding(crate::specs::MessageReading::file_at))]
pub(crate) fn read_file<'a>(message: &'a [u8]) -> Option<(KindView<'a>, Attributes)>
    ensures { reading.ShowsAll views.IsNodeView result (reading.whole messages.file_at message.now) }
{
    let mut rest = message;
    let replication = take_replication(&mut rest)?;
    let time = take_long(2, &mut rest)?;
    let (owner, group, mode) = take_access(3, &mut rest)?;
    let blocks = take_blocks(&mut rest)?;
    let is_open = take_open(&mut rest)?;
    if !rest.is_empty() {
        return None;
    }
    let kind = KindView::File {
        replication,
        is_open,
        blocks,
    };
    let attributes = Attributes {
        time,
        owner,
        group,
        mode,
    };
    Some((kind, attributes))
}
