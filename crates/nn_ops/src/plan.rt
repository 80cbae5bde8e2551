// What a command that was taken will do.
ghost use Rattle.std.specs.Prelude.{◌≡◌};

use nn_base::Name;
use nn_record::Op;
use nn_tree::{Node, Spot};

/// What a plan works on.
#[derive(Drop)]
pub(crate) enum Target {
    /// A new node, and the free name in a directory that it gets
    New {
        parent: Spot,
        name: Name,
        node: Node,
    },
    /// A node that is there
    At {
        at: Spot,
    },
    /// A node that is there, and where it goes
    Move {
        at: Spot,
        parent: Spot,
        name: Name,
    },
}

/// A command that is taken: its record body, and what it works on in a tree with room for it. It is for the tree that it was made with, as long as nothing else changes that tree.
#[derive(Drop)]
pub struct Plan {
    pub(crate) op: Op,
    pub(crate) target: Target,
}

impl Plan {
    /// The body for the edit log.
    pub fn op(&self) -> &Op
        ensures { result.now ≡ self.now.op }
    {
        &self.op
    }
}
