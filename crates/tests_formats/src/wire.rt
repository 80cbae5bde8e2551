// Checksums, varints and fields against spellings from outside.
use nn_wire::{Field, WireFault, crc32, field_get, varint_get, varint_put};
use std::test::Fail;

// The values are those of zlib.
#[test]
fn the_checksum_is_that_of_zlib(rt: HostRuntime) {
    let mut rising = [0u8; 32];
    for i in 0..32 {
        rising[i] = i as u8;
    }
    let known: [(&[u8], u32); 6] = [
        (b"", 0),
        (b"a", 0xE8B7_BE43),
        (b"123456789", 0xCBF4_3926),
        (b"The quick brown fox jumps over the lazy dog", 0x414F_A339),
        (&[0; 32], 0x190A_55AD),
        (&rising, 0x9126_7E8A),
    ];
    for (bytes, want) in known {
        assert_eq!(rt; crc32(bytes), want, "of {bytes:?}");
    }
}

// The spellings are those of Protocol Buffers.
#[test]
fn a_varint_is_got_as_it_was_put(rt: HostRuntime) -> Result<(), Fail> {
    let known: [(u64, &[u8]); 7] = [
        (0, &[0]),
        (1, &[1]),
        (127, &[127]),
        (128, &[128, 1]),
        (300, &[172, 2]),
        (1 << 63, &[128, 128, 128, 128, 128, 128, 128, 128, 128, 1]),
        (u64::MAX, &[255, 255, 255, 255, 255, 255, 255, 255, 255, 1]),
    ];
    for (value, text) in known {
        let mut out = Vec::new(rt.alloc());
        varint_put(value, &mut out)?;
        assert_eq!(rt; out.as_slice(), text, "of {value}");
        out.push(0)?;
        assert_eq!(rt; varint_get(&out), Some((value, text.len())));
    }
    Ok(())
}

#[test]
fn no_other_text_is_a_varint(rt: HostRuntime) {
    let wrong: [&[u8]; 6] = [
        &[],
        &[128],
        &[128, 0],
        &[129, 128, 0],
        &[255, 255, 255, 255, 255, 255, 255, 255, 255, 2],
        &[128, 128, 128, 128, 128, 128, 128, 128, 128, 128, 1],
    ];
    for bytes in wrong {
        assert_eq!(rt; varint_get(bytes), None, "of {bytes:?}");
    }
}

fn field(number: u32, value: u64, start: usize, end: usize) -> Result<Field, WireFault> {
    Ok(Field {
        number,
        value,
        start,
        end,
    })
}

// The last field number of Protocol Buffers is 536,870,911.
#[test]
fn a_field_is_read_or_its_first_fault_is_named(rt: HostRuntime) {
    let cases: [(&[u8], usize, Result<Field, WireFault>); 17] = [
        (&[8, 150, 1], 0, field(1, 150, 3, 3)),
        (&[9, 8, 150, 1, 7], 1, field(1, 150, 4, 4)),
        (&[18, 2, 104, 105], 0, field(2, 2, 2, 4)),
        (&[18, 0], 0, field(2, 0, 2, 2)),
        (&[248, 255, 255, 255, 15, 0], 0, field(536_870_911, 0, 6, 6)),
        (&[], 0, Err(WireFault::Short)),
        (&[8], 1, Err(WireFault::Short)),
        (&[136], 0, Err(WireFault::Short)),
        (&[8], 0, Err(WireFault::Short)),
        (&[18, 3, 104, 105], 0, Err(WireFault::Short)),
        (&[136, 0, 1], 0, Err(WireFault::NotCanonical)),
        (&[8, 150, 0], 0, Err(WireFault::NotCanonical)),
        (&[128; 10], 0, Err(WireFault::NotCanonical)),
        (&[0, 1], 0, Err(WireFault::BadKey)),
        (&[128, 128, 128, 128, 16, 0], 0, Err(WireFault::BadKey)),
        (&[9], 0, Err(WireFault::BadKey)),
        (&[11, 128, 0], 0, Err(WireFault::BadKey)),
    ];
    for (bytes, at, want) in cases {
        if at <= bytes.len() {
            assert_eq!(rt; field_get(bytes, at), want, "of {bytes:?} at {at}");
        }
    }
}
