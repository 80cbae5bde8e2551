// The message of a node: a file with its blocks, or a directory with its quotas.
ghost use Rattle.std.specs.Prelude.{◌≡◌, ◌<◌, ◌^◌, ◌+◌, ◌++◌, OnOk};
ghost use Rattle.nn_message.specs.Spelling as spelling;

use crate::field::{delimit, put_bytes, put_key, put_number, put_optional};
use crate::message::Attributes;
use nn_base::NoMemory;
use nn_quota::Quota;
use nn_tree::{Block, Blocks, Kind, Node};

#[tactic(auto, using(crate::proofs::PutLemmas::closed), unfolding(crate::specs::Spelling::block))]
fn put_block(block: &Block, out: &mut Vec<u8>) -> Result<(), NoMemory>
    ensures ok { OnOk result (out.new.items ≡ out.old.items ++ spelling.delimited (spelling.block block.now)) }
{
    let at = out.len();
    put_number(1, block.id, out)?;
    put_number(2, block.stamp, out)?;
    put_number(3, block.length, out)?;
    delimit(at, out)
}

#[tactic(auto, unfolding(crate::specs::Spelling::blocks_field, crate::specs::Spelling::delimited))]
fn put_blocks(blocks: &Blocks, out: &mut Vec<u8>) -> Result<(), NoMemory>
    ensures ok { OnOk result (out.new.items ≡ out.old.items ++ spelling.blocks_field blocks.now) }
{
    for block in &blocks.list {
        put_key(6, out)?;
        put_block(block, out)?;
    }
    Ok(())
}

/// Owner, group and mode, as the fields from `first` on.
#[tactic(auto, unfolding(crate::specs::Spelling::access))]
fn put_access(first: u32, attributes: &Attributes, out: &mut Vec<u8>) -> Result<(), NoMemory>
    requires { first < 2 ^ 29 }
    ensures ok { OnOk result (out.new.items ≡ out.old.items ++ spelling.access first attributes.now) }
{
    put_number(first, attributes.owner, out)?;
    put_number(first + 1, attributes.group, out)?;
    put_number(first + 2, u64::from(attributes.mode), out)
}

#[tactic(auto, unfolding(crate::specs::Spelling::open_field))]
fn put_open(is_open: bool, out: &mut Vec<u8>) -> Result<(), NoMemory>
    ensures ok { OnOk result (out.new.items ≡ out.old.items ++ spelling.open_field is_open) }
{
    if is_open {
        put_number(7, 1, out)
    } else {
        Ok(())
    }
}

#[tactic(auto, using(crate::proofs::PutLemmas::closed), unfolding(crate::specs::Spelling::file))]
fn put_file(
    replication: u16,
    is_open: bool,
    blocks: &Blocks,
    attributes: &Attributes,
    out: &mut Vec<u8>,
) -> Result<(), NoMemory>
    ensures ok { OnOk result (out.new.items ≡ out.old.items ++
        spelling.delimited (spelling.file replication is_open blocks.now attributes.now)) }
{
    let at = out.len();
    put_number(1, u64::from(replication), out)?;
    put_number(2, attributes.time, out)?;
    put_access(3, attributes, out)?;
    put_blocks(blocks, out)?;
    put_open(is_open, out)?;
    delimit(at, out)
}

#[tactic(auto, using(crate::proofs::PutLemmas::closed), unfolding(crate::specs::Spelling::directory))]
fn put_directory(quota: &Quota, attributes: &Attributes, out: &mut Vec<u8>) -> Result<(), NoMemory>
    ensures ok { OnOk result (out.new.items ≡ out.old.items ++
        spelling.delimited (spelling.directory quota.now attributes.now)) }
{
    let at = out.len();
    put_number(1, attributes.time, out)?;
    put_optional(2, quota.names, out)?;
    put_optional(3, quota.space, out)?;
    put_access(4, attributes, out)?;
    delimit(at, out)
}

#[tactic(auto, unfolding(crate::specs::Spelling::kind_field, crate::specs::Spelling::delimited))]
fn put_kind(kind: &Kind, attributes: &Attributes, out: &mut Vec<u8>) -> Result<(), NoMemory>
    ensures ok { OnOk result (out.new.items ≡ out.old.items ++
        spelling.kind_field kind.now attributes.now) }
{
    match kind {
        Kind::File {
            replication,
            is_open,
            blocks,
        } => {
            put_key(4, out)?;
            put_file(*replication, *is_open, blocks, attributes, out)
        }
        Kind::Dir { quota } => {
            put_key(5, out)?;
            put_directory(quota, attributes, out)
        }
    }
}

/// The number of a kind of node in its message.
fn kind_number(kind: &Kind) -> u64
    ensures { result ≡ spelling.kind_number kind.now }
{
    match kind {
        Kind::File { .. } => 1,
        Kind::Dir { .. } => 2,
    }
}

/// Appends the message of a node, `INodeSection.INode`, with its length before it. Its name is the last of its path,
/// empty for the root.
#[tactic(auto, using(crate::proofs::PutLemmas::closed), unfolding(crate::specs::Spelling::inode))]
pub fn put_inode(
    name: &[u8],
    node: &Node,
    attributes: &Attributes,
    out: &mut Vec<u8>,
) -> Result<(), NoMemory>
    ensures ok { OnOk result (out.new.items ≡ out.old.items ++ spelling.delimited (spelling.inode
        (record { id = node.now.id; name = name.now; attributes = attributes.now; kind = node.now.kind }))) }
{
    let at = out.len();
    put_number(1, kind_number(&node.kind), out)?;
    put_number(2, node.id, out)?;
    put_bytes(3, name, out)?;
    put_kind(&node.kind, attributes, out)?;
    delimit(at, out)
}
