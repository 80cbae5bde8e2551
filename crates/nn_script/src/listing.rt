// The parts of a listing.
ghost use Rattle.std.specs.Prelude.{◌≡◌, ◌≤◌, ◌+◌, ◌∷◌, ◌++◌, length, vec_len, vec_capacity};
ghost use Rattle.nn_base.specs.Limits.{most_name};
ghost use Rattle.nn_tree.specs.Limits.{IsNode, IsKind};
ghost use Rattle.nn_script.specs.Spelling.{spaced, escaped};
ghost use Rattle.nn_script.specs.Listing.{mode_text, quota_text, open_text, sign_of, details};
ghost use Rattle.nn_script.specs.Listing.{attributes, node_words, block_line, max_part};
ghost use Rattle.std.specs.Fmt.{decimal};

use crate::append::{put, put_escaped, put_number, put_word};
use itoa::Buffer;
use nn_quota::Usage;
use nn_tree::{Block, Kind, Node};

/// The most bytes that a part of a listing has: what stands in a node's line before its path, one
/// name of the path, of which each byte may be spelled by three, or the line of a block.
pub const MAX_PART: usize = 768;

/// Appends what stands in a node's line before its path, to a buffer that has room for it. A directory's line has its usage; that of a file doesn't, so there any will do.
pub fn node_words(node: &Node, usage: Usage, out: &mut Vec<u8>)
    requires bounds { IsNode node.now }
    requires room { vec_len out.old + max_part ≤ vec_capacity out.old }
    ensures text { out.new.items ≡ out.old.items ++ node_words node.now usage }
    ensures size { vec_len out.new ≤ vec_len out.old + max_part }
    ensures room { vec_capacity out.old ≤ vec_capacity out.new }
{
    put(sign_of(&node.kind), out);
    put_attributes(node, out);
    put_details(&node.kind, usage, out);
    put(b" ", out);
}

/// Appends a name of a path as it is spelled there, to a buffer that has room for it.
pub fn name_text(name: &[u8], out: &mut Vec<u8>)
    requires short { length name.now ≤ most_name }
    requires room { vec_len out.old + max_part ≤ vec_capacity out.old }
    ensures text { out.new.items ≡ out.old.items ++ 47 ∷ escaped name.now }
    ensures size { vec_len out.new ≤ vec_len out.old + max_part }
    ensures room { vec_capacity out.old ≤ vec_capacity out.new }
{
    put(b"/", out);
    put_escaped(name, out);
}

/// Appends the line of a block, which follows that of its file, to a buffer that has room for it.
pub fn block_line(block: Block, out: &mut Vec<u8>)
    requires { vec_len out.old + max_part ≤ vec_capacity out.old }
    ensures text { out.new.items ≡ out.old.items ++ block_line block }
    ensures size { vec_len out.new ≤ vec_len out.old + max_part }
    ensures room { vec_capacity out.old ≤ vec_capacity out.new }
{
    put(b"b", out);
    put_number(block.id, out);
    put_number(block.stamp, out);
    put_number(block.length, out);
    put(b"\n", out);
}

fn sign_of(kind: &Kind) -> &'static [u8]
    ensures sign { result.now ≡ sign_of kind.now }
    ensures short { length result.now ≡ 1 }
{
    match kind {
        Kind::Dir { .. } => b"d",
        Kind::File { .. } => b"f",
    }
}

fn put_attributes(node: &Node, out: &mut Vec<u8>)
    requires bounds { IsNode node.now }
    requires room { vec_len out.old + 256 ≤ vec_capacity out.old }
    ensures text { out.new.items ≡ out.old.items ++ spaced (attributes node.now) }
    ensures size { vec_len out.new ≤ vec_len out.old + 256 }
    ensures room { vec_capacity out.old ≤ vec_capacity out.new }
{
    put_number(node.id, out);
    put_word(&octal(node.mode), out);
    put(b" ", out);
    put_escaped(node.owner.bytes(), out);
    put(b" ", out);
    put_escaped(node.group.bytes(), out);
    put_number(node.time, out);
}

fn octal(mode: u16) -> [u8; 4]
    ensures { result ≡ mode_text mode }
{
    [
        b'0' + (mode / 512 % 8) as u8,
        b'0' + (mode / 64 % 8) as u8,
        b'0' + (mode / 8 % 8) as u8,
        b'0' + (mode % 8) as u8,
    ]
}

fn put_details(kind: &Kind, usage: Usage, out: &mut Vec<u8>)
    requires bounds { IsKind kind.now }
    requires room { vec_len out.old + 128 ≤ vec_capacity out.old }
    ensures text { out.new.items ≡ out.old.items ++ spaced (details kind.now usage) }
    ensures size { vec_len out.new ≤ vec_len out.old + 128 }
    ensures room { vec_capacity out.old ≤ vec_capacity out.new }
{
    match kind {
        Kind::Dir { quota } => {
            put_quota(quota.names, out);
            put_quota(quota.space, out);
            put_number(usage.names, out);
            put_space(usage.space, out);
        }
        Kind::File {
            replication,
            is_open,
            blocks,
        } => {
            put_number(u64::from(*replication), out);
            put_word(open_word(*is_open), out);
            put_number(blocks.len() as u64, out);
            put_number(blocks.length(), out);
        }
    }
}

fn put_quota(quota: Option<u64>, out: &mut Vec<u8>)
    requires { vec_len out.old + 21 ≤ vec_capacity out.old }
    ensures text { out.new.items ≡ out.old.items ++ 32 ∷ quota_text quota }
    ensures size { vec_len out.new ≤ vec_len out.old + 21 }
    ensures room { vec_capacity out.old ≤ vec_capacity out.new }
{
    match quota {
        None => put_word(b"-", out),
        Some(bound) => put_number(bound, out),
    }
}

// A number of bytes below a directory, which may be above 64 bits.
fn put_space(space: u128, out: &mut Vec<u8>)
    requires { vec_len out.old + 41 ≤ vec_capacity out.old }
    ensures text { out.new.items ≡ out.old.items ++ 32 ∷ decimal space }
    ensures size { vec_len out.new ≤ vec_len out.old + 41 }
    ensures room { vec_capacity out.old ≤ vec_capacity out.new }
{
    let mut buffer = Buffer::new();
    put_word(buffer.format(space).as_bytes(), out);
}

fn open_word(is_open: bool) -> &'static [u8]
    ensures word { result.now ≡ open_text is_open }
    ensures short { length result.now ≤ 6 }
{
    if is_open { b"open" } else { b"closed" }
}
