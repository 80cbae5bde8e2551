//! The words of a name directory: its number, transaction ids, subfolders and the names of files; and those of the namespace: names, paths, owners and groups.
//! It knows nothing of what a folder or a file holds, nor of any disk.
#![tactic(auto)]

pub mod decimal;
mod dir_set;
mod file_name;
mod ids;
mod label;
pub mod limits;
mod name;
mod path;
mod sub;
mod word;

pub use dir_set::DirSet;
pub use file_name::FileName;
pub use ids::{DirNo, FirstTxid, NoMemory, OutOfMemory, Span, Txid};
pub use label::Label;
pub use name::Name;
pub use path::{Components, Path, PathFault};
pub use sub::Sub;
pub use word::Word;
