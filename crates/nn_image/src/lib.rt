//! Images of the namespace, in the messages of HDFS's `fsimage.proto`: what `save` begins and `Saver::next` gives, piece by piece, is the one image of a namespace.
//! What `load` reads is that image, or the first fault of the bytes.
//! It knows nothing of files, digests or folders, nor of how a namespace changes.
#![tactic(auto)]

mod advance;
mod assemble;
mod count;
mod directory;
mod fault;
mod frame;
mod given;
mod half;
mod listing;
mod loading;
mod node;
mod nodes;
mod noted;
mod open_dir;
mod owners;
mod prepared;
mod saver;
mod sections;
mod seed;
mod step;
mod string_table;
mod task;
mod unmade;

pub use fault::ImageFault;
pub use loading::{Loaded, load};
pub use saver::{Saver, save};
