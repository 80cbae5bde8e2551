// Places of a tree.

/// Names a node of one tree, and goes on naming it wherever the node moves, until it is removed. A tree makes its spots; a spot of another tree means nothing here.
#[derive(Clone, Copy, Debug, PartialEq, Eq)]
pub struct Spot {
    pub index: usize,
}

/// What a walk along a path finds.
#[derive(Clone, Copy, Debug, PartialEq, Eq)]
pub enum Walk {
    /// The node at the path
    Found(Spot),
    /// There is no node at the path, and no file in the way
    Missing,
    /// A file stands where a directory is needed
    ThroughFile,
}
