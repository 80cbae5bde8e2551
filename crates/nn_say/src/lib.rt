//! What answers to a script's lines say, and in which calls of the output: an answer goes out in one, a longer listing in
//! several, straight from the tree. It takes no memory once a `Speech` is there. It knows nothing of lines or directories.
#![tactic(auto)]

mod answering;
mod listing;
mod speech;

pub use answering::{say_dirs, say_list};
pub use speech::Speech;
