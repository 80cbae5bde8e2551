//! The three small files beside an image and its journal, VERSION, `seen_txid` and the MD5 file: a value comes exactly where
//! the text has it, a fault is the first of its order, and what is written reads back as itself.
//! It knows nothing of folders or disks.
#![tactic(auto)]

mod digest;
mod fault;
mod key;
pub mod laws;
mod line_check;
mod lines;
mod seen;
mod version;
mod version_reading;
mod version_writing;

pub use digest::{md5_read, md5_text};
pub use fault::VersionFault;
pub use key::Key;
pub use seen::{seen_read, seen_text};
pub use version::Version;
pub use version_reading::version_read;
pub use version_writing::version_text;
