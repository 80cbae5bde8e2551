// What is saved, and how far it is.
use nn_base::Txid;
use nn_message::Lengths;
use nn_tree::{Counters, Spot};

/// What an image says of itself and of its namespace, and where the walk over the tree begins.
#[derive(Clone, Copy)]
pub(crate) struct Task {
    pub(crate) namespace: u32,
    pub(crate) id: Txid,
    /// Without its sign.
    pub(crate) layout: u32,
    pub(crate) counters: Counters,
    /// How many nodes there are.
    pub(crate) nodes: u64,
    pub(crate) root: Spot,
}

/// What comes next in an image.
#[derive(Clone, Copy)]
pub(crate) enum Stage {
    /// The mark, NS_INFO and the head of STRING_TABLE
    Front,
    /// The string of this number, or the head of INODE behind the last
    Strings(u32),
    /// The node here, or INODE_DIR behind the last
    Inodes(Option<Spot>),
    /// The children of the node here, or the summary behind the last
    Directories(Option<Spot>),
    /// Nothing
    Done,
}

/// A stage, and what was counted of each section before it.
#[derive(Clone, Copy)]
pub(crate) struct Progress {
    pub(crate) stage: Stage,
    pub(crate) lengths: Lengths,
}
