// Whether each message of four sections is whole.
ghost use Rattle.std.specs.Prelude.{◌≡◌, ◌≢◌, true, false, is_some};
ghost use Rattle.nn_message.specs.Messages.{Content, IsContent};
ghost use Rattle.nn_message.specs.Frame.{sections_of};
ghost use Rattle.nn_message.specs.Reading.{inside, is_some_byte, many, whole};
ghost use Rattle.nn_message.specs.MessageReading as messages;

use crate::reading::directory::next_dir_entry;
use crate::reading::info::read_section;
use crate::reading::inode::{next_inode, next_inodes};
use crate::reading::strings::{next_string, next_strings};

fn is_info(section: &[u8]) -> bool
    ensures { result ≡ is_some (whole messages.info_section_at section.now) }
{
    read_section(section).is_some()
}

fn are_texts(bytes: &[u8]) -> bool
    ensures { result ≡ is_some (whole (many is_some_byte (inside messages.string_at)) bytes.now) }
{
    let mut rest = bytes;
    'texts: while !rest.is_empty() {
        if next_string(&mut rest).is_none() {
            return false;
        }
    }
    true
}

fn are_strings(section: &[u8]) -> bool
    ensures { result ≡ is_some (whole messages.strings_section_at section.now) }
{
    let mut rest = section;
    if next_strings(&mut rest).is_none() {
        return false;
    }
    are_texts(rest)
}

fn are_nodes(bytes: &[u8]) -> bool
    ensures { result ≡ is_some (whole (many is_some_byte (inside messages.inode_at)) bytes.now) }
{
    let mut rest = bytes;
    'nodes: while !rest.is_empty() {
        if next_inode(&mut rest).is_none() {
            return false;
        }
    }
    true
}

fn are_inodes(section: &[u8]) -> bool
    ensures { result ≡ is_some (whole messages.inodes_section_at section.now) }
{
    let mut rest = section;
    if next_inodes(&mut rest).is_none() {
        return false;
    }
    are_nodes(rest)
}

fn are_directories(section: &[u8]) -> bool
    ensures { result ≡ is_some (whole messages.directories_section_at section.now) }
{
    let mut rest = section;
    'directories: while !rest.is_empty() {
        if next_dir_entry(&mut rest).is_none() {
            return false;
        }
    }
    true
}

/// Whether NS_INFO, STRING_TABLE, INODE and INODE_DIR are whole messages, each in its ranges. How they go together isn't
/// asked, nor how many there are.
pub fn check_messages(info: &[u8], strings: &[u8], inodes: &[u8], directories: &[u8]) -> bool
    ensures yes { result ≡ true → (content : Content) × IsContent content × (record {
      info = info.now;
      strings = strings.now;
      inodes = inodes.now;
      directories = directories.now;
    } ≡ sections_of content) }
    ensures no { result ≡ false → (content : Content) → IsContent content → sections_of content ≢ record {
      info = info.now;
      strings = strings.now;
      inodes = inodes.now;
      directories = directories.now;
    } }
{
    if !is_info(info) {
        return false;
    }
    if !are_strings(strings) {
        return false;
    }
    if !are_inodes(inodes) {
        return false;
    }
    are_directories(directories)
}
