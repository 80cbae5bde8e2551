//! A host and a source in memory that tell everything: just those calls fail that a list names or that find no memory,
//! and of the calls of the host there is a record. It knows nothing of real folders, nor of what the bytes mean.
#![tactic(auto)]

mod asked;
mod counts;
mod dirs;
mod kept;
mod mem;
mod names;
mod past;
mod source;
mod stop;

pub use mem::MemHost;
pub use past::Part;
pub use source::MemSource;
pub use stop::{Choice, Keep, StopFault};
