//! The namespace as a tree: the trait `Tree`, each of whose calls changes a finite map from paths to nodes as its name says, `next_below`, which walks any tree in the order of paths, and `PlainTree`, which answers each question by a scan.
//! It knows nothing of commands, quotas in force, records or images.
#![tactic(auto)]

mod below;
mod entry;
mod node;
mod plain;
mod spot;
mod tree;

pub use below::next_below;
pub use node::{Block, Blocks, Change, Counters, Kind, Node};
pub use plain::PlainTree;
pub use spot::{Spot, Walk};
pub use tree::Tree;
