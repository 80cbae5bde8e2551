// The small messages of an image, each appended with its length before it.
ghost use Rattle.std.specs.Prelude.{◌≡◌, ◌++◌, OnOk};
ghost use Rattle.nn_message.specs.Spelling as spelling;

use crate::field::{delimit, put_bytes, put_number};
use nn_base::{NoMemory, Txid};
use nn_tree::Counters;

/// What a file and a directory both have. Owner and group are the numbers of their names in STRING_TABLE.
#[derive(Clone, Copy)]
pub struct Attributes {
    /// When it was last modified, in milliseconds.
    pub time: u64,
    pub owner: u64,
    pub group: u64,
    /// Permission bits.
    pub mode: u16,
}

/// Appends the one message of NS_INFO, `fsimage.proto`'s `NameSystemSection`, with its length before it. Stamp and block
/// id are the last ones given.
#[tactic(auto, using(crate::proofs::PutLemmas::closed), unfolding(crate::specs::Spelling::ns_info))]
pub fn put_ns_info(
    namespace: u32,
    id: Txid,
    counters: &Counters,
    out: &mut Vec<u8>,
) -> Result<(), NoMemory>
    ensures ok { OnOk result (out.new.items ≡ out.old.items ++ spelling.delimited (spelling.ns_info
        (record { namespace = namespace; stamp = counters.now.stamp; block = counters.now.block; txid = id }))) }
{
    let at = out.len();
    put_number(1, u64::from(namespace), out)?;
    put_number(3, counters.stamp, out)?;
    put_number(5, counters.block, out)?;
    put_number(6, id.0, out)?;
    delimit(at, out)
}

/// Appends what STRING_TABLE begins with, `StringTableSection`, with its length before it: how many strings come.
#[tactic(auto, using(crate::proofs::PutLemmas::closed), unfolding(crate::specs::Spelling::strings))]
pub fn put_strings(count: u32, out: &mut Vec<u8>) -> Result<(), NoMemory>
    ensures ok { OnOk result (out.new.items ≡ out.old.items ++
        spelling.delimited (spelling.strings count)) }
{
    let at = out.len();
    put_number(1, u64::from(count), out)?;
    delimit(at, out)
}

/// Appends an entry of STRING_TABLE, `StringTableSection.Entry`, with its length before it.
#[tactic(auto, using(crate::proofs::PutLemmas::closed), unfolding(crate::specs::Spelling::string))]
pub fn put_string(number: u32, text: &[u8], out: &mut Vec<u8>) -> Result<(), NoMemory>
    ensures ok { OnOk result (out.new.items ≡ out.old.items ++
        spelling.delimited (spelling.string (record { number = number; text = text.now }))) }
{
    let at = out.len();
    put_number(1, u64::from(number), out)?;
    put_bytes(2, text, out)?;
    delimit(at, out)
}

/// Appends what INODE begins with, `INodeSection`, with its length before it: the last inode id given, and how many nodes
/// come.
#[tactic(auto, using(crate::proofs::PutLemmas::closed), unfolding(crate::specs::Spelling::inodes))]
pub fn put_inodes(last: u64, count: u64, out: &mut Vec<u8>) -> Result<(), NoMemory>
    ensures ok { OnOk result (out.new.items ≡ out.old.items ++
        spelling.delimited (spelling.inodes last count)) }
{
    let at = out.len();
    put_number(1, last, out)?;
    put_number(2, count, out)?;
    delimit(at, out)
}
