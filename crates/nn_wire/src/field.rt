// Fields: a key, and a varint or bytes.
ghost use Rattle.std.specs.Prelude.{◌≡◌, ◌↔◌, ◌+◌, ◌*◌, ◌%◌, ◌<◌, ◌≤◌, length, drop, slice_index, IfOk, IfErr, Ok, Err};
ghost use Rattle.nn_wire.specs.declared.fault.WireFault.{WireFault};
ghost use Rattle.nn_wire.specs.declared.fault.WireFault.TheVariants.{BadKey};
ghost use Rattle.nn_wire.specs.declared.field.Field.{Field};
ghost use Rattle.nn_wire.specs.Varint.{varint, Begins};
ghost use Rattle.nn_wire.specs.Field.{IsNumber, IsVarintAt, IsFieldAt, kind_code};
ghost use Rattle.nn_wire.specs.Fault.{IsVarintFault, IsKey, IsFieldFault};

use crate::fault::WireFault;
use crate::varint::varint_read;

/// A field as it was read. It doesn't tell a varint from bytes: the lowest three bits of the byte at its place do, 0
/// for a varint and 2 for bytes.
#[derive(Clone, Copy, Debug, PartialEq, Eq)]
pub struct Field {
    /// 1 to 2^29 - 1.
    pub number: u32,
    /// The varint, or the length in bytes.
    pub value: u64,
    /// The place of the first of the bytes; of a varint, the place after it.
    pub start: usize,
    /// The place after the field.
    pub end: usize,
}

/// What a key says of the value.
#[derive(Clone, Copy)]
enum Kind {
    Varint,
    Bytes,
}

const NUMBERS: u64 = 1 << 29;

fn key_of(key: u64) -> Result<(u32, Kind), WireFault>
    ensures ok { IfOk result (λ found. IsNumber found.0 × (key ≡ 8 * found.0 + kind_code found.1)) }
    ensures err { IfErr result (λ fault. (fault ≡ BadKey) × ¬ IsKey key) }
{
    let number = key / 8;
    if number == 0 {
        return Err(WireFault::BadKey);
    }
    if number >= NUMBERS {
        return Err(WireFault::BadKey);
    }
    match key % 8 {
        0 => Ok((number as u32, Kind::Varint)),
        2 => Ok((number as u32, Kind::Bytes)),
        _ => Err(WireFault::BadKey),
    }
}

// The varint at a place, and the place after it.
fn varint_at(bytes: &[u8], at: usize) -> Result<(u64, usize), WireFault>
    requires { at ≤ length bytes.now }
    ensures ok { IfOk result (λ found. Begins (drop at bytes.now) found.0 (drop found.1 bytes.now)) }
    ensures end { IfOk result (λ found. (found.1 ≡ at + length (varint found.0)) × (found.1 ≤ length bytes.now)) }
    ensures err { IfErr result (λ fault. IsVarintFault (drop at bytes.now) fault) }
{
    let (value, len) = varint_read(&bytes[at..])?;
    Ok((value, at + len))
}

// `field_get`, by what the rest of its contract follows from.
fn field_read(bytes: &[u8], at: usize) -> Result<Field, WireFault>
    requires { at ≤ length bytes.now }
    ensures ok { IfOk result (λ field. IsFieldAt bytes.now at field) }
    ensures err { IfErr result (λ fault. IsFieldFault (drop at bytes.now) fault) }
{
    let (key, after_key) = varint_at(bytes, at)?;
    let (number, kind) = key_of(key)?;
    let (value, start) = varint_at(bytes, after_key)?;
    match kind {
        Kind::Varint => Ok(Field {
            number,
            value,
            start,
            end: start,
        }),
        Kind::Bytes => {
            if value > (bytes.len() - start) as u64 {
                return Err(WireFault::Short);
            }
            Ok(Field {
                number,
                value,
                start,
                end: start + value as usize,
            })
        }
    }
}

/// The field at that place, and where its value is. An `Err` is the first fault from the left.
pub fn field_get(bytes: &[u8], at: usize) -> Result<Field, WireFault>
    requires { at ≤ length bytes.now }
    ensures ok { IfOk result (λ field. IsFieldAt bytes.now at field) }
    ensures err { IfErr result (λ fault. IsFieldFault (drop at bytes.now) fault) }
    ensures within { IfOk result (λ field. (at < field.start) × (field.start ≤ field.end) × (field.end ≤ length bytes.now)) }

    // Else it is bytes.
    ensures kind { IfOk result (λ field. (slice_index bytes.now at % 8 ≡ 0) ↔ IsVarintAt bytes.now at field) }

    // Where a field stands it is the answer, and where there is a fault, that is.
    ensures again { (field : Field) → IsFieldAt bytes.now at field → result ≡ Ok field }
    ensures cause { (fault : WireFault) → IsFieldFault (drop at bytes.now) fault → result ≡ Err fault }
{
    field_read(bytes, at)
}
