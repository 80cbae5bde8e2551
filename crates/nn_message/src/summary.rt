// The end of an image: where its sections are, and how long the summary itself is.
ghost use Rattle.std.specs.Prelude.{◌≡◌, ◌<◌, ◌≤◌, ◌^◌, ◌+◌, ◌++◌, length, OnOk};
ghost use Rattle.nn_wire.specs.Field.{bytes_field};
ghost use Rattle.nn_message.specs.Spelling.{delimited};
ghost use Rattle.nn_message.specs.Frame as frame;

use crate::field::{delimit, put_bytes, put_key, put_number};
use nn_base::NoMemory;

/// The lengths of the four sections, in bytes.
#[derive(Clone, Copy)]
pub struct Lengths {
    pub info: u64,
    pub strings: u64,
    pub inodes: u64,
    pub directories: u64,
}

/// Where the first section begins, behind the mark.
pub(crate) const FIRST: u64 = 8;

#[tactic(auto, using(crate::proofs::PutLemmas::closed), unfolding(crate::specs::Frame::section_message))]
fn put_place(name: &[u8], len: u64, offset: u64, out: &mut Vec<u8>) -> Result<(), NoMemory>
    ensures ok { OnOk result (out.new.items ≡ out.old.items ++ delimited (frame.section_message
        (record { name = name.now; length = len; offset = offset }))) }
{
    let at = out.len();
    put_bytes(1, name, out)?;
    put_number(2, len, out)?;
    put_number(3, offset, out)?;
    delimit(at, out)
}

#[tactic(auto, unfolding(crate::specs::Spelling::delimited))]
fn put_section(name: &[u8], len: u64, offset: u64, out: &mut Vec<u8>) -> Result<(), NoMemory>
    ensures ok { OnOk result (out.new.items ≡ out.old.items ++ bytes_field 4 (frame.section_message
        (record { name = name.now; length = len; offset = offset }))) }
{
    put_key(4, out)?;
    put_place(name, len, offset, out)
}

#[tactic(auto, unfolding(crate::specs::Frame::sections_field, crate::specs::Frame::places))]
fn put_sections(lengths: &Lengths, out: &mut Vec<u8>) -> Result<(), NoMemory>
    requires { lengths.now.info + lengths.now.strings + lengths.now.inodes < 2 ^ 63 }
    ensures ok { OnOk result (out.new.items ≡ out.old.items ++
        frame.sections_field (frame.places 8 (frame.named lengths.now))) }
{
    let strings = FIRST + lengths.info;
    let inodes = strings + lengths.strings;
    let directories = inodes + lengths.inodes;
    put_section(b"NS_INFO", lengths.info, FIRST, out)?;
    put_section(b"STRING_TABLE", lengths.strings, strings, out)?;
    put_section(b"INODE", lengths.inodes, inodes, out)?;
    put_section(b"INODE_DIR", lengths.directories, directories, out)
}

#[tactic(auto, using(crate::proofs::PutLemmas::closed), unfolding(crate::specs::Frame::summary_message, crate::specs::Frame::codec_field, crate::specs::Frame::summary_with))]
fn put_summary(layout: u32, lengths: &Lengths, out: &mut Vec<u8>) -> Result<(), NoMemory>
    requires { lengths.now.info + lengths.now.strings + lengths.now.inodes < 2 ^ 63 }
    ensures ok { OnOk result (out.new.items ≡ out.old.items ++
        delimited (frame.summary_message (frame.summary_with layout lengths.now))) }
{
    let at = out.len();
    put_number(1, 1, out)?;
    put_number(2, u64::from(layout), out)?;
    put_sections(lengths, out)?;
    delimit(at, out)
}

/// Appends the summary of sections of these lengths, `FileSummary`, and in four bytes its own length with the varint
/// before it, as `FSImageUtil.loadSummary` wants it. The layout comes without its sign.
#[tactic(auto, using(crate::proofs::SummaryLemmas::summary_is_small), unfolding(crate::specs::Frame::end))]
pub fn put_end(layout: u32, lengths: &Lengths, out: &mut Vec<u8>) -> Result<(), NoMemory>
    requires { lengths.now.info + lengths.now.strings + lengths.now.inodes < 2 ^ 63 }
    ensures ok { OnOk result (out.new.items ≡ out.old.items ++
        frame.end (frame.summary_message (frame.summary_with layout lengths.now))) }
{
    let at = out.len();
    put_summary(layout, lengths, out)?;
    let len = (out.len() - at) as u32;
    out.extend_from_slice(&len.to_be_bytes())?;
    Ok(())
}
