// Reads a directory: its quotas, and the ids of its children.
ghost use Rattle.std.specs.Prelude.{◌≡◌, is_some, Some, None, IfSome, IfNone};
ghost use Rattle.nn_message.specs.Messages.{IsDirEntry};
ghost use Rattle.nn_message.specs.Spelling as spelling;
ghost use Rattle.nn_message.specs.Reading as reading;
ghost use Rattle.nn_message.specs.MessageReading as messages;
ghost use Rattle.nn_message.specs.Views as views;

use crate::message::Attributes;
use crate::reading::fields::{LONGS, is_next, take_bytes, take_delimited, take_long, take_varint};
use crate::reading::file::take_access;
use crate::view::{DirView, KindView};
use nn_quota::Quota;

/// The keys of the quotas, which are numbers, of fields 2 and 3.
const NAMES: u8 = 16;

const SPACE: u8 = 24;

/// A quota of names, which lets at least the directory itself be.
#[tactic(auto, unfolding(crate::specs::MessageReading::names_at, crate::specs::MessageReading::long_at))]
fn take_names(rest: &mut &[u8]) -> Option<Option<u64>>
    ensures { reading.Gives result rest.new.now (reading.maybe 16 messages.names_at rest.old.now) }
{
    if !is_next(NAMES, rest) {
        return Some(None);
    }
    let names = take_long(2, rest)?;
    if names == 0 {
        return None;
    }
    Some(Some(names))
}

fn take_space(rest: &mut &[u8]) -> Option<Option<u64>>
    ensures { reading.Gives result rest.new.now (reading.maybe 24 (messages.long_at 3) rest.old.now) }
{
    if !is_next(SPACE, rest) {
        return Some(None);
    }
    let space = take_long(3, rest)?;
    Some(Some(space))
}

/// A directory and its attributes.
#[tactic(auto, unfolding(crate::specs::MessageReading::directory_at))]
pub(crate) fn read_directory<'a>(message: &'a [u8]) -> Option<(KindView<'a>, Attributes)>
    ensures { reading.ShowsAll views.IsNodeView result (reading.whole messages.directory_at message.now) }
{
    let mut rest = message;
    let time = take_long(1, &mut rest)?;
    let names = take_names(&mut rest)?;
    let space = take_space(&mut rest)?;
    let (owner, group, mode) = take_access(4, &mut rest)?;
    if !rest.is_empty() {
        return None;
    }
    let kind = KindView::Dir {
        quota: Quota { names, space },
    };
    let attributes = Attributes {
        time,
        owner,
        group,
        mode,
    };
    Some((kind, attributes))
}

#[tactic(auto, unfolding(crate::specs::MessageReading::child_at))]
fn next_child(rest: &mut &[u8]) -> Option<u64>
    ensures { reading.Gives result rest.new.now (messages.child_at rest.old.now) }
{
    let id = take_varint(rest)?;
    if id >= LONGS {
        return None;
    }
    Some(id)
}

/// Whether bytes are ids of children, one after the other.
fn are_children(bytes: &[u8]) -> bool
    ensures { result ≡ is_some (reading.whole messages.children_at bytes.now) }
{
    let mut rest = bytes;
    'children: while !rest.is_empty() {
        if next_child(&mut rest).is_none() {
            return false;
        }
    }
    true
}

#[tactic(auto, unfolding(crate::specs::MessageReading::dir_entry_at))]
fn read_dir_entry<'a>(message: &'a [u8]) -> Option<DirView<'a>>
    ensures { reading.ShowsAll views.IsDirView result (reading.whole messages.dir_entry_at message.now) }
{
    let mut rest = message;
    let parent = take_long(1, &mut rest)?;
    let children = take_bytes(2, &mut rest)?;
    if !are_children(children) {
        return None;
    }
    if !rest.is_empty() {
        return None;
    }
    Some(DirView { parent, children })
}

pub(super) fn next_dir_entry<'a>(rest: &mut &'a [u8]) -> Option<DirView<'a>>
    ensures { reading.Shows views.IsDirView result rest.new.now
        (reading.inside messages.dir_entry_at rest.old.now) }
{
    let message = take_delimited(rest)?;
    read_dir_entry(message)
}

/// Takes an entry of INODE_DIR off the front, `INodeDirectorySection.DirEntry`: a directory and its children. After `None`
/// nothing is known of what is left.
pub fn take_dir_entry<'a>(rest: &mut &'a [u8]) -> Option<DirView<'a>>
    ensures { reading.Takes views.IsDirView IsDirEntry
        (λ d. spelling.delimited (spelling.dir_entry d)) result rest.old.now rest.new.now }
{
    next_dir_entry(rest)
}
