//! Small files: one is written so that a stop at any moment leaves the old file or the new one, and one is read whole.
//! It knows nothing of what the bytes mean.
#![tactic(auto)]

mod read;
mod write;

pub use read::{ReadAll, read_all};
pub use write::write_small;
