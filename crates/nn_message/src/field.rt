// Fields of a message, appended to what is there.
ghost use Rattle.std.specs.Prelude.{◌≡◌, ◌≤◌, ◌+◌, ◌*◌, ◌++◌, length, take, drop, vec_len, OnOk};
ghost use Rattle.nn_wire.specs.Varint.{varint};
ghost use Rattle.nn_wire.specs.Field.{varint_field, bytes_field};
ghost use Rattle.nn_message.specs.Spelling.{delimited, optional};

use nn_base::NoMemory;
use nn_wire::varint_put;

/// The kind of a field of bytes, in the key's lowest bits; that of a number is 0.
const BYTES: u64 = 2;

/// Appends a field of this number whose content is a number too: its key, and the content, as Protocol Buffers spell them.
pub fn put_number(number: u32, value: u64, out: &mut Vec<u8>) -> Result<(), NoMemory>
    ensures ok { OnOk result (out.new.items ≡ out.old.items ++ varint_field number value) }
{
    varint_put(8 * u64::from(number), out)?;
    varint_put(value, out)
}

#[tactic(auto, unfolding(crate::specs::Spelling::optional))]
pub(crate) fn put_optional(
    number: u32,
    value: Option<u64>,
    out: &mut Vec<u8>,
) -> Result<(), NoMemory>
    ensures ok { OnOk result (out.new.items ≡ out.old.items ++ optional number value) }
{
    match value {
        None => Ok(()),
        Some(value) => put_number(number, value, out),
    }
}

/// Appends the key of a field whose content comes next, and is delimited then.
pub fn put_key(number: u32, out: &mut Vec<u8>) -> Result<(), NoMemory>
    ensures ok { OnOk result (out.new.items ≡ out.old.items ++ varint (8 * number + 2)) }
{
    varint_put(8 * u64::from(number) + BYTES, out)
}

pub(crate) fn put_bytes(number: u32, content: &[u8], out: &mut Vec<u8>) -> Result<(), NoMemory>
    ensures ok { OnOk result (out.new.items ≡ out.old.items ++ bytes_field number content.now) }
{
    put_key(number, out)?;
    varint_put(content.len() as u64, out)?;
    out.extend_from_slice(content)?;
    Ok(())
}

/// Puts the length of what stands from a place on before it, in bytes. A message is as long as its numbers are, so its
/// length is known once it stands.
#[tactic(auto, unfolding(crate::specs::Spelling::delimited))]
pub fn delimit(at: usize, out: &mut Vec<u8>) -> Result<(), NoMemory>
    requires { at ≤ vec_len out.old }
    ensures ok { OnOk result (out.new.items ≡
        take at out.old.items ++ delimited (drop at out.old.items)) }
{
    let end = out.len();
    varint_put((end - at) as u64, out)?;
    match out.len() - end {
        // Most messages are short: one move makes room for their one byte.
        1 => out[at..].rotate_right(1),
        more => out[at..].rotate_right(more),
    }
    Ok(())
}
