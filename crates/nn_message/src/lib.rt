//! The messages of an image, in the spelling of HDFS's `fsimage.proto`: each is written in its one spelling, and read exactly where it stands.
//! It knows nothing of a namespace, of how its messages go together, or of files.
#![tactic(auto)]

mod field;
mod frame;
mod inode;
mod message;
mod places;
mod reading;
mod sections;
mod summary;
mod view;

pub use field::{delimit, put_key, put_number};
pub use frame::{Framed, unended};
pub use inode::put_inode;
pub use message::{Attributes, put_inodes, put_ns_info, put_string, put_strings};
pub use places::{SummaryView, summary_in};
pub use reading::{
    check_messages, read_ns_info, take_block, take_dir_entry, take_inode, take_inodes_head,
    take_string, take_strings_head,
};
pub use sections::{SectionBytes, cut_sections};
pub use summary::{Lengths, put_end};
pub use view::{DirView, InfoView, InodeView, KindView};
