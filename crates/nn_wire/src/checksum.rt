// CRC-32 by sixteen bytes at a time: each byte of a chunk goes by the table of its place.
ghost use Rattle.std.specs.Prelude.{◌≡◌, ◌+◌, ◌*◌, ◌%◌, ◌<◌, ◌∷◌, drop, fold};
ghost use Rattle.nn_wire.specs.Crc32.{next_bits, with_byte, crc32_of};

use crate::table::{SHIFTED, SLICES};

/// The bytes of the register.
const REGISTER_LEN: usize = 4;

// What is left of the register's low byte after `8 * (place + 1)` more bits.
#[inline(always)]
fn low_shifted(register: u32, place: usize) -> u32
    requires { place < SLICES }
    ensures { result ≡ next_bits (8 * (place + 1)) (register % 256) }
{
    SHIFTED[place][(register & 0xff) as usize]
}

#[inline(always)]
fn after_byte(register: u32, byte: u8) -> u32
    ensures { result ≡ with_byte register byte }
{
    low_shifted(register ^ u32::from(byte), 0) ^ (register >> 8)
}

// The register once the first bytes of a chunk have met it, all at once. Zeros come in their place.
#[inline(always)]
fn met(register: u32, chunk: &[u8; SLICES]) -> u32
    ensures { fold with_byte result (0 ∷ 0 ∷ 0 ∷ 0 ∷ drop 4 chunk.now) ≡ fold with_byte register chunk.now }
{
    register ^ u32::from_le_bytes([chunk[0], chunk[1], chunk[2], chunk[3]])
}

#[inline(always)]
fn after_chunk(register: u32, chunk: &[u8; SLICES]) -> u32
    ensures { result ≡ fold with_byte register chunk.now }
{
    let mut after = 0;
    // The later bytes don't meet the register, so these look-ups needn't wait for the chunk before.
    'later: for place in REGISTER_LEN..SLICES {
        after ^= low_shifted(u32::from(chunk[place]), SLICES - 1 - place);
    }
    let mut left = met(register, chunk);
    'first: for place in 0..REGISTER_LEN {
        after ^= low_shifted(left, SLICES - 1 - place);
        left >>= 8;
    }
    after
}

/// The CRC-32 of the bytes: polynomial 0xEDB88320 in reflected order, start and final exclusive-or all ones. It is
/// that of `java.util.zip.CRC32` and of zlib's `crc32`.
pub fn crc32(bytes: &[u8]) -> u32
    ensures { result ≡ crc32_of bytes.now }
{
    let mut register = u32::MAX;
    let mut rest = bytes;
    while let Some((chunk, after)) = rest.split_first_chunk::<SLICES>() {
        register = after_chunk(register, chunk);
        rest = after;
    }
    for byte in rest {
        register = after_byte(register, *byte);
    }
    register ^ u32::MAX
}
