// What is kept of the nodes of an image to see that nothing in it was given twice.
ghost use Rattle.std.specs.Prelude.{◌≡◌, ℕ, ◌++◌, ◌&&◌, [], ◌∷◌, List, map, nat_le, OnOk};
ghost use Rattle.std.specs.List.{list_all};
ghost use Rattle.nn_tree.specs.Nodes.{blocks_of};
ghost use Rattle.nn_message.specs.Messages.{Inode};
ghost use Rattle.nn_image.specs.Building.{IsNoted};

use nn_base::NoMemory;
use nn_tree::{Block, Kind, Node};
use std::alloc::Global;

/// The ids of all nodes and blocks so far, and the greatest stamp of a block.
#[derive(Drop)]
pub(crate) struct Noted {
    pub(crate) inodes: Vec<u64>,
    pub(crate) blocks: Vec<u64>,
    pub(crate) stamp: u64,
}

impl Noted {
    pub(crate) fn new(alloc: Global) -> Noted
        ensures { IsNoted result [] }
    {
        Noted {
            inodes: Vec::new(alloc),
            blocks: Vec::new(alloc),
            stamp: 0,
        }
    }

    fn note_blocks(&mut self, blocks: &[Block]) -> Result<(), NoMemory>
        ensures ids { OnOk result (self.new.blocks.items ≡ self.old.blocks.items ++ map (λ b. b.id) blocks.now) }
        ensures stamp { OnOk result ((last : ℕ) → nat_le self.new.stamp last ≡
            (nat_le self.old.stamp last && list_all (λ b. nat_le b.stamp last) blocks.now)) }
        ensures inodes { OnOk result (self.new.inodes.items ≡ self.old.inodes.items) }
    {
        for block in blocks {
            self.blocks.push(block.id)?;
            self.stamp = self.stamp.max(block.stamp);
        }
        Ok(())
    }

    /// One node more.
    pub(crate) fn note(&mut self, node: &Node) -> Result<(), NoMemory>
        ensures { (done : List Inode) (inode : Inode) → inode.id ≡ node.now.id → inode.kind ≡ node.now.kind →
            IsNoted self.old done → OnOk result (IsNoted self.new (done ++ inode ∷ [])) }
    {
        self.inodes.push(node.id)?;
        match &node.kind {
            Kind::File { blocks, .. } => self.note_blocks(&blocks.list),
            Kind::Dir { .. } => Ok(()),
        }
    }
}
