// Varints: numbers by seven bits a byte.
ghost use Rattle.std.specs.Prelude.{◌≡◌, ◌↔◌, ℕ, ◌+◌, ◌^◌, ◌<◌, ◌≤◌, ◌++◌, List, length, take, drop, OnOk, OnErr, IfOk, IfErr, IfSome, Some};
ghost use Rattle.nn_wire.specs.Varint.{IsVarint, varint, Begins};
ghost use Rattle.nn_wire.specs.Fault.{IsVarintFault};

use crate::fault::WireFault;
use nn_base::NoMemory;

/// The most bytes that a varint has.
const LONGEST: usize = 10;

/// The greatest that the last of so many may be: nine times seven bits leave one.
const GREATEST_LAST: u8 = 1;

fn spelled(value: u64) -> ([u8; LONGEST], usize)
    ensures text { take result.1 result.0 ≡ varint value }
    ensures len { result.1 ≤ LONGEST }
{
    let mut text = [0; LONGEST];
    let mut rest = value;
    let mut last = 0;
    while rest >= 128 {
        text[last] = (rest % 128) as u8 + 128;
        rest /= 128;
        last += 1;
    }
    text[last] = rest as u8;
    (text, last + 1)
}

fn put_spelled(value: u64, out: &mut Vec<u8>) -> Result<(), NoMemory>
    ensures ok { OnOk result (out.new.items ≡ out.old.items ++ varint value) }
    ensures err { OnErr result (out.new.items ≡ out.old.items) }
{
    let at = out.len();
    let (text, len) = spelled(value);
    // All ten bytes go out, as that is one move of a known size, and the room behind the varint is given back.
    out.extend_from_slice(&text)?;
    out.truncate(at + len);
    Ok(())
}

/// Appends the value's varint, 1 to 10 bytes: seven bits a byte, the lowest first, as in Protocol Buffers.
#[inline(always)]
pub fn varint_put(value: u64, out: &mut Vec<u8>) -> Result<(), NoMemory>
    ensures ok { OnOk result (out.new.items ≡ out.old.items ++ varint value) }
    ensures err { OnErr result (out.new.items ≡ out.old.items) }

    // It is the one text that the grammar gives the value.
    ensures grammar { (bytes : List ℕ) → IsVarint bytes value ↔ (bytes ≡ varint value) }
{
    // Keys, lengths and most counts have one byte.
    if value < 128 {
        out.push(value as u8)?;
        return Ok(());
    }
    put_spelled(value, out)
}

/// `varint_read`, byte by byte.
#[inline(always)]
fn scan(bytes: &[u8]) -> Result<(u64, usize), WireFault>
    ensures ok { IfOk result (λ found. Begins bytes.now found.0 (drop found.1 bytes.now)) }
    ensures len { IfOk result (λ found. (found.1 ≡ length (varint found.0)) × (found.1 ≤ length bytes.now)) }
    ensures err { IfErr result (λ fault. IsVarintFault bytes.now fault) }
{
    let mut value = 0;
    for (place, byte) in bytes.iter().enumerate() {
        if place == LONGEST - 1 && *byte > GREATEST_LAST {
            return Err(WireFault::NotCanonical);
        }
        value |= u64::from(*byte % 128) << (7 * place);
        if *byte < 128 {
            // After other bytes a 0 is needless.
            if place > 0 && *byte == 0 {
                return Err(WireFault::NotCanonical);
            }
            return Ok((value, place + 1));
        }
    }
    Err(WireFault::Short)
}

/// The varint at the front of the bytes, and how many bytes it has. Keys, lengths and most counts have one byte.
#[inline(always)]
pub(crate) fn varint_read(bytes: &[u8]) -> Result<(u64, usize), WireFault>
    ensures ok { IfOk result (λ found. Begins bytes.now found.0 (drop found.1 bytes.now)) }
    ensures len { IfOk result (λ found. (found.1 ≡ length (varint found.0)) × (found.1 ≤ length bytes.now)) }
    ensures err { IfErr result (λ fault. IsVarintFault bytes.now fault) }
{
    match bytes {
        [first, ..] if *first < 128 => Ok((u64::from(*first), 1)),
        _ => scan(bytes),
    }
}

/// The varint at the front of the bytes, and how many bytes it has. There is none where the bytes end early, where
/// its last byte is a needless 0, and where it is above 2^64 - 1.
#[inline(always)]
pub fn varint_get(bytes: &[u8]) -> Option<(u64, usize)>
    ensures some { IfSome result (λ found. Begins bytes.now found.0 (drop found.1 bytes.now)) }
    ensures len { IfSome result (λ found. (found.1 ≡ length (varint found.0)) × (found.1 ≤ length bytes.now)) }

    // It is what the grammar says of a front, and None exactly where that says nothing of any.
    ensures exact { (n len : ℕ) → (result ≡ Some (n, len)) ↔ ((len ≤ length bytes.now) × IsVarint (take len bytes.now) n) }

    // What was put is got again, whatever follows.
    ensures again { (n : ℕ) (rest : List ℕ) → Begins bytes.now n rest → result ≡ Some (n, length (varint n)) }
{
    varint_read(bytes).ok()
}
