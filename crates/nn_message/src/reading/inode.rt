// Reads the messages of INODE: how many nodes there are, and each node.
ghost use Rattle.std.specs.Prelude.{◌≡◌, ℕ, ◌≤◌, Some, None, IfSome, IfNone};
ghost use Rattle.nn_base.specs.Limits.{IsLong};
ghost use Rattle.nn_message.specs.Messages.{IsInode};
ghost use Rattle.nn_message.specs.Spelling as spelling;
ghost use Rattle.nn_message.specs.Reading as reading;
ghost use Rattle.nn_message.specs.MessageReading as messages;
ghost use Rattle.nn_message.specs.Views as views;

use crate::message::Attributes;
use crate::reading::directory::read_directory;
use crate::reading::fields::{take_bytes, take_delimited, take_long, take_number};
use crate::reading::file::read_file;
use crate::view::{InodeView, KindView};
use nn_base::Name;
use nn_base::limits::MOST_NODES;

/// The numbers of the two kinds of node, and the keys of their fields, which hold bytes.
const FILE: u64 = 1;

const FILE_KEY: u64 = 34;

const DIRECTORY: u64 = 2;

const DIRECTORY_KEY: u64 = 42;

#[tactic(auto, unfolding(crate::specs::MessageReading::count_at))]
fn take_count(rest: &mut &[u8]) -> Option<u64>
    ensures { reading.Gives result rest.new.now (messages.count_at rest.old.now) }
{
    let count = take_number(2, rest)?;
    if count > MOST_NODES {
        return None;
    }
    Some(count)
}

#[tactic(auto, unfolding(crate::specs::MessageReading::inodes_at))]
fn read_inodes(message: &[u8]) -> Option<(u64, u64)>
    ensures { result ≡ reading.whole messages.inodes_at message.now }
{
    let mut rest = message;
    let last = take_long(1, &mut rest)?;
    let count = take_count(&mut rest)?;
    if !rest.is_empty() {
        return None;
    }
    Some((last, count))
}

pub(super) fn next_inodes(rest: &mut &[u8]) -> Option<(u64, u64)>
    ensures { reading.Gives result rest.new.now
        (reading.inside messages.inodes_at rest.old.now) }
{
    let message = take_delimited(rest)?;
    read_inodes(message)
}

/// Takes what INODE begins with, `INodeSection`: the last inode id given, and how many nodes it says that it has. After
/// `None` nothing is known of what is left.
pub fn take_inodes_head(rest: &mut &[u8]) -> Option<(u64, u64)>
    ensures { reading.Takes (λ v x. v ≡ x) views.AreInodes
        (λ x. spelling.delimited (spelling.inodes x.0 x.1)) result rest.old.now rest.new.now }
{
    next_inodes(rest)
}

/// The name of a node, or none for the root.
#[tactic(auto, unfolding(crate::specs::MessageReading::name_at))]
fn take_name<'a>(rest: &mut &'a [u8]) -> Option<&'a [u8]>
    ensures some { IfSome result (λ name. messages.name_at rest.old.now ≡ Some (name.now, rest.new.now)) }
    ensures none { IfNone result (messages.name_at rest.old.now ≡ None) }
{
    let name = take_bytes(3, rest)?;
    if name.is_empty() {
        return Some(name);
    }
    if !Name::is(name) {
        return None;
    }
    Some(name)
}

/// What a node of this kind is, with its attributes.
#[tactic(auto, unfolding(crate::specs::MessageReading::kind_at))]
fn take_kind<'a>(number: u64, rest: &mut &'a [u8]) -> Option<(KindView<'a>, Attributes)>
    ensures { reading.Shows views.IsNodeView result rest.new.now (messages.kind_at number rest.old.now) }
{
    match number {
        FILE => {
            let message = take_bytes(4, rest)?;
            read_file(message)
        }
        DIRECTORY => {
            let message = take_bytes(5, rest)?;
            read_directory(message)
        }
        _ => None,
    }
}

#[tactic(auto, unfolding(crate::specs::MessageReading::inode_at))]
fn read_inode<'a>(message: &'a [u8]) -> Option<InodeView<'a>>
    ensures { reading.ShowsAll views.IsInodeView result (reading.whole messages.inode_at message.now) }
{
    let mut rest = message;
    let number = take_number(1, &mut rest)?;
    let id = take_long(2, &mut rest)?;
    let name = take_name(&mut rest)?;
    let (kind, attributes) = take_kind(number, &mut rest)?;
    if !rest.is_empty() {
        return None;
    }
    Some(InodeView {
        id,
        name,
        attributes,
        kind,
    })
}

pub(super) fn next_inode<'a>(rest: &mut &'a [u8]) -> Option<InodeView<'a>>
    ensures { reading.Shows views.IsInodeView result rest.new.now
        (reading.inside messages.inode_at rest.old.now) }
{
    let message = take_delimited(rest)?;
    read_inode(message)
}

/// Takes a node off the front of INODE, `INodeSection.INode`. After `None` nothing is known of what is left.
pub fn take_inode<'a>(rest: &mut &'a [u8]) -> Option<InodeView<'a>>
    ensures { reading.Takes views.IsInodeView IsInode
        (λ i. spelling.delimited (spelling.inode i)) result rest.old.now rest.new.now }
{
    next_inode(rest)
}
