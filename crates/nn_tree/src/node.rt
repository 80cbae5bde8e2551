// Nodes, and what may be changed in one.
ghost use Rattle.std.specs.Prelude.{◌≡◌, ◌==◌, ◌+◌, ◌*◌, ◌<◌, ◌≤◌, ◌^◌, [], ◌∷◌, ◌++◌, length, vec_len, vec_capacity};
ghost use Rattle.nn_tree.specs.Nodes as nodes;
ghost use Rattle.nn_tree.specs.Changes as changes;
ghost use Rattle.nn_tree.specs.Limits.{IsKind};

use nn_base::Label;
use nn_quota::Quota;
use std::marker::Model;
use std::mem;

/// A block of a file, by the fields of HDFS's `Block`.
#[derive(Clone, Copy, Debug, PartialEq, Eq)]
pub struct Block {
    /// Its id, below 2^63.
    pub id: u64,
    /// Its generation stamp, below 2^63.
    pub stamp: u64,
    /// Its length in bytes, 1 to 2^40.
    pub length: u64,
}

/// The blocks of a file, first to last.
#[derive(Drop)]
pub struct Blocks {
    pub list: Vec<Block>,
}

impl Model for Blocks {
    ghost use Rattle.std.specs.Prelude.{List};
    ghost use Rattle.nn_tree.specs.declared.node.Block.{Block};

    ghost Value = { List Block };

    ghost view = { λ a. a.list.items };
}

impl Blocks {
    /// How many there are.
    pub fn len(&self) -> usize
        ensures { result ≡ length self.now }
    {
        self.list.len()
    }

    pub fn is_empty(&self) -> bool
        ensures { result ≡ (length self.now == 0) }
    {
        self.list.is_empty()
    }

    /// The sum of their lengths, in bytes.
    pub fn length(&self) -> u64
        requires { nodes.length_of self.now < 2 ^ 64 }
        ensures { result ≡ nodes.length_of self.now }
    {
        self.list.iter().map(|b| b.length).sum()
    }

    /// Adds a block and takes no memory: where the list is full, its blocks move into `room`, which becomes the list, and the old list is left as room.
    pub fn push(&mut self, block: Block, room: &mut Vec<Block>)
        requires empty { vec_len room.old ≡ 0 }
        requires enough { length self.old < vec_capacity room.old }
        ensures list { self.new ≡ self.old ++ block ∷ [] }
        ensures empty { vec_len room.new ≡ 0 }
    {
        if self.list.len() == self.list.capacity() {
            move_all(&mut self.list, room);
        }
        push_within(&mut self.list, block);
    }
}

/// Moves all blocks into an empty list with room for one more.
fn move_all(list: &mut Vec<Block>, room: &mut Vec<Block>)
    requires empty { vec_len room.old ≡ 0 }
    requires enough { vec_len list.old < vec_capacity room.old }
    ensures same { list.new.items ≡ list.old.items }
    ensures grown { vec_len list.new < vec_capacity list.new }
    ensures empty { vec_len room.new ≡ 0 }
{
    if room.extend_from_slice(list).is_err() {
        unreachable!();
    }
    mem::swap(list, room);
    room.clear();
}

/// Adds a block to a list that has room for it.
fn push_within(list: &mut Vec<Block>, block: Block)
    requires { vec_len list.old < vec_capacity list.old }
    ensures { list.new.items ≡ list.old.items ++ block ∷ [] }
{
    if list.push(block).is_err() {
        unreachable!();
    }
}

/// What a node is.
#[derive(Drop)]
pub enum Kind {
    /// A file
    File {
        /// How many replicas of each block there should be, 1 to 512.
        replication: u16,
        /// Whether blocks may still be added.
        is_open: bool,
        blocks: Blocks,
    },
    /// A directory
    Dir {
        quota: Quota,
    },
}

impl Kind {
    pub fn is_dir(&self) -> bool
        ensures { result ≡ nodes.is_dir self.now }
    {
        match self {
            Kind::File { .. } => false,
            Kind::Dir { .. } => true,
        }
    }

    /// The quota of a directory; a file has none.
    pub fn quota(&self) -> Quota
        ensures { result ≡ nodes.quota_of self.now }
    {
        match self {
            Kind::File { .. } => Quota {
                names: None,
                space: None,
            },
            Kind::Dir { quota } => *quota,
        }
    }

    /// How many blocks it has.
    pub fn block_count(&self) -> usize
        ensures { result ≡ length (nodes.blocks_of self.now) }
    {
        match self {
            Kind::File { blocks, .. } => blocks.len(),
            Kind::Dir { .. } => 0,
        }
    }

    /// The bytes that it takes, replicas counted.
    pub fn space(&self) -> u64
        requires { IsKind self.now }
        ensures { result ≡ nodes.space_of self.now }
    {
        match self {
            Kind::File {
                replication,
                blocks,
                ..
            } => u64::from(*replication) * blocks.length(),
            Kind::Dir { .. } => 0,
        }
    }

    /// Adds a block to a file, as `Blocks::push` does.
    pub fn add_block(&mut self, block: Block, room: &mut Vec<Block>)
        requires empty { vec_len room.old ≡ 0 }
        requires enough { length (nodes.blocks_of self.old) < vec_capacity room.old }
        ensures added { self.new ≡ changes.add_block block self.old }
        ensures empty { vec_len room.new ≡ 0 }
    {
        match self {
            Kind::File { blocks, .. } => blocks.push(block, room),
            Kind::Dir { .. } => {}
        }
    }
}

/// A node of the namespace: the attributes of HDFS's `INodeFile` and `INodeDirectory` that are kept.
#[derive(Drop)]
pub struct Node {
    /// Its inode id, below 2^63.
    pub id: u64,
    pub owner: Label,
    pub group: Label,
    /// Its permission bits, at most 1777 (octal).
    pub mode: u16,
    /// When it was last modified, in milliseconds, below 2^63.
    pub time: u64,
    pub kind: Kind,
}

/// A change of one node that leaves its place, its id and its blocks as they are.
#[derive(Clone, Copy)]
pub enum Change {
    /// The time of its last modification, in milliseconds
    Time(u64),
    /// Its permission bits
    Mode(u16),
    Owner { owner: Label, group: Label },
    /// Both quotas of a directory
    Quota(Quota),
    /// The replication of a file
    Replication(u16),
    /// A file is no longer open
    Closed,
}

impl Node {
    /// Makes a change.
    pub fn change(&mut self, change: Change)
        ensures { self.new ≡ changes.changed change self.old }
    {
        match change {
            Change::Time(time) => self.time = time,
            Change::Mode(mode) => self.mode = mode,
            Change::Owner { owner, group } => {
                self.owner = owner;
                self.group = group;
            }
            Change::Quota(new) => self.kind.set_quota(new),
            Change::Replication(new) => self.kind.set_replication(new),
            Change::Closed => self.kind.close(),
        }
    }
}

impl Kind {
    fn set_quota(&mut self, new: Quota)
        ensures { self.new ≡ changes.with_quota new self.old }
    {
        match self {
            Kind::File { .. } => {}
            Kind::Dir { quota } => *quota = new,
        }
    }

    fn set_replication(&mut self, new: u16)
        ensures { self.new ≡ changes.with_replication new self.old }
    {
        match self {
            Kind::File { replication, .. } => *replication = new,
            Kind::Dir { .. } => {}
        }
    }

    fn close(&mut self)
        ensures { self.new ≡ changes.closed self.old }
    {
        match self {
            Kind::File { is_open, .. } => *is_open = false,
            Kind::Dir { .. } => {}
        }
    }
}

/// The numbers that were given last; each is below 2^63.
#[derive(Clone, Copy, Debug, PartialEq, Eq)]
pub struct Counters {
    /// The last inode id.
    pub inode: u64,
    /// The last block id.
    pub block: u64,
    /// The last generation stamp.
    pub stamp: u64,
}
