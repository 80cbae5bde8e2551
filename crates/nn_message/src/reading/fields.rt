// Reads the fields of a message: each reader takes one off the front of what is left.
ghost use Rattle.std.specs.Prelude.{◌≡◌, ◌*◌, Some, None, IfSome, IfNone};
ghost use Rattle.nn_message.specs.Reading as reading;
ghost use Rattle.nn_message.specs.MessageReading as messages;

use nn_wire::varint_get;

/// Where Hadoop's signed numbers end.
pub(crate) const LONGS: u64 = 1 << 63;

/// The kind of a field of bytes, in the key's lowest bits; that of a number is 0.
const BYTES: u64 = 2;

#[inline(always)]
pub(crate) fn take_varint(rest: &mut &[u8]) -> Option<u64>
    ensures { reading.Gives result rest.new.now (reading.number_at rest.old.now) }
{
    let (value, len) = varint_get(rest)?;
    *rest = &rest[len..];
    Some(value)
}

/// A number of this field.
#[tactic(auto, unfolding(crate::specs::Reading::varint_field_at))]
#[inline(always)]
pub(crate) fn take_number(number: u32, rest: &mut &[u8]) -> Option<u64>
    ensures { reading.Gives result rest.new.now (reading.varint_field_at number rest.old.now) }
{
    let key = take_varint(rest)?;
    if key != 8 * u64::from(number) {
        return None;
    }
    take_varint(rest)
}

/// A time, an id, a stamp or a quota.
#[tactic(auto, unfolding(crate::specs::MessageReading::long_at))]
#[inline(always)]
pub(crate) fn take_long(number: u32, rest: &mut &[u8]) -> Option<u64>
    ensures { reading.Gives result rest.new.now (messages.long_at number rest.old.now) }
{
    let value = take_number(number, rest)?;
    if value >= LONGS {
        return None;
    }
    Some(value)
}

/// A length, and so many bytes.
#[tactic(auto, unfolding(crate::specs::Reading::delimited_at))]
#[inline(always)]
pub(crate) fn take_delimited<'a>(rest: &mut &'a [u8]) -> Option<&'a [u8]>
    ensures some { IfSome result (λ content. reading.delimited_at rest.old.now ≡ Some (content.now, rest.new.now)) }
    ensures none { IfNone result (reading.delimited_at rest.old.now ≡ None) }
{
    let len = take_varint(rest)?;
    if len > rest.len() as u64 {
        return None;
    }
    let (content, after) = rest.split_at(len as usize);
    *rest = after;
    Some(content)
}

/// The content of this field.
#[tactic(auto, unfolding(crate::specs::Reading::bytes_field_at))]
#[inline(always)]
pub(crate) fn take_bytes<'a>(number: u32, rest: &mut &'a [u8]) -> Option<&'a [u8]>
    ensures some { IfSome result (λ content. reading.bytes_field_at number rest.old.now ≡ Some (content.now, rest.new.now)) }
    ensures none { IfNone result (reading.bytes_field_at number rest.old.now ≡ None) }
{
    let key = take_varint(rest)?;
    if key != 8 * u64::from(number) + BYTES {
        return None;
    }
    take_delimited(rest)
}

/// Whether the key of one byte comes next.
pub(crate) fn is_next(key: u8, rest: &[u8]) -> bool
    ensures { result ≡ reading.has_key key rest.now }
{
    match rest {
        [first, ..] => *first == key,
        [] => false,
    }
}
