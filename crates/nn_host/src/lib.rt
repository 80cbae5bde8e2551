//! The outside as one trait: the name directories and the output, with all that a stop at any moment may leave of them.
//! It knows nothing of what the files mean. The bytes of a script come by a second trait, `Source`.
#![tactic(auto)]

mod host;
mod source;

pub use host::{Failed, Host, ListFault, MOST_SAID};
pub use source::Source;
