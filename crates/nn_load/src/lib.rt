//! Loading a folder: its newest intact image with the records of its segments replayed over it, into any tree.
//! It knows nothing of which folder serves, nor of several directories.
#![tactic(auto)]

mod chain;
mod fault;
mod held;
mod loading;
mod newest;
mod queue;
mod replaying;
mod segment;

pub use fault::ChainFault;
pub use loading::load_dir;
