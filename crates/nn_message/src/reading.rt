// Messages of an image as they are read: views into its bytes, with no memory of their own.
mod check;
mod directory;
mod fields;
mod file;
mod info;
mod inode;
mod strings;

pub use check::check_messages;
pub use directory::take_dir_entry;
pub(crate) use fields::{take_bytes, take_number};
pub use file::take_block;
pub use info::read_ns_info;
pub use inode::{take_inode, take_inodes_head};
pub use strings::{take_string, take_strings_head};
