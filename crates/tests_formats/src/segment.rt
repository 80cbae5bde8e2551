// Segments against bytes that were spelled outside: their checksums are those of zlib.
ghost use Rattle.std.specs.Prelude.{◌<◌, ◌≤◌};

use nn_base::Txid;
use nn_segment::{Run, header_put, intact_run, next_record, records_in};
use std::alloc::Global;
use std::test::Fail;

const LAYOUT: i32 = -1001;

fn run(last: u32, end: usize) -> Run {
    let last = if last == 0 {
        None
    } else {
        Some(Txid(u64::from(last)))
    };
    Run { last, end }
}

#[test]
fn the_header_is_the_layout_and_four_zero_bytes(rt: HostRuntime) {
    for (layout, header) in [
        (-1001, b"\xFF\xFF\xFC\x17\0\0\0\0"),
        (-1002, b"\xFF\xFF\xFC\x16\0\0\0\0"),
        (1, b"\0\0\0\x01\0\0\0\0"),
    ] {
        assert!(rt; header_put(layout) == *header, "{layout}");
    }
}

#[test]
fn a_run_ends_where_the_next_record_isnt_whole_or_isnt_the_next(
    rt: HostRuntime,
) -> Result<(), Fail> {
    let alloc = rt.alloc();
    let cases = [
        (
            "a record that is cut off",
            b"\xFF\xFF\xFC\x17\0\0\0\0\x18\0\0\0\x0C\0\0\0\0\0\0\0\x01pC\xF0\xB7\x03\0\0\02\0\0\0\0\0\0\0\x02\0\0\0\0\0\0@\x02\0\x02/a\0\0\0\0\0\0\0\0\x04hdfs\x0Asupergroup\x01\xED\xD1,\x879\x17\0\0\0\x0C".as_slice(),
            -1001,
            Txid(1),
            run(2, 80),
        ),
        (
            "a record with another checksum",
            b"\xFF\xFF\xFC\x17\0\0\0\0\x18\0\0\0\x0C\0\0\0\0\0\0\0\x01pC\xF0\xB7\x03\0\0\02\0\0\0\0\0\0\0\x02\0\0\0\0\0\0@\x02\0\x02/a\0\0\0\0\0\0\0\0\x04hdfs\x0Asupergroup\x01\xED\xD1,\x878\x17\0\0\0\x0C".as_slice(),
            -1001,
            Txid(1),
            run(1, 25),
        ),
        (
            "another layout",
            b"\xFF\xFF\xFC\x17\0\0\0\0\x18\0\0\0\x0C\0\0\0\0\0\0\0\x01pC\xF0\xB7\x03\0\0\02\0\0\0\0\0\0\0\x02\0\0\0\0\0\0@\x02\0\x02/a\0\0\0\0\0\0\0\0\x04hdfs\x0Asupergroup\x01\xED\xD1,\x879\x17\0\0\0\x0C".as_slice(),
            -1002,
            Txid(1),
            run(0, 0),
        ),
        (
            "another first id",
            b"\xFF\xFF\xFC\x17\0\0\0\0\x18\0\0\0\x0C\0\0\0\0\0\0\0\x01pC\xF0\xB7\x03\0\0\02\0\0\0\0\0\0\0\x02\0\0\0\0\0\0@\x02\0\x02/a\0\0\0\0\0\0\0\0\x04hdfs\x0Asupergroup\x01\xED\xD1,\x879".as_slice(),
            -1001,
            Txid(2),
            run(0, 8),
        ),
        (
            "an id that is left out",
            b"\xFF\xFF\xFC\x17\0\0\0\0\x18\0\0\0\x0C\0\0\0\0\0\0\0\x01pC\xF0\xB7\x18\0\0\0\x0C\0\0\0\0\0\0\0\x03\x9EM\x91\x9B".as_slice(),
            -1001,
            Txid(1),
            run(1, 25),
        ),
        (
            "an id that comes again",
            b"\xFF\xFF\xFC\x17\0\0\0\0\x18\0\0\0\x0C\0\0\0\0\0\0\0\x01pC\xF0\xB7\x18\0\0\0\x0C\0\0\0\0\0\0\0\x01pC\xF0\xB7".as_slice(),
            -1001,
            Txid(1),
            run(1, 25),
        ),
        (
            "a first id of 0",
            b"\xFF\xFF\xFC\x17\0\0\0\0\x18\0\0\0\x0C\0\0\0\0\0\0\0\0\x07D\xC0!".as_slice(),
            -1001,
            Txid(0),
            run(0, 8),
        ),
        (
            "the greatest id",
            b"\xFF\xFF\xFC\x17\0\0\0\0\x18\0\0\0\x0C\x7F\xFF\xFF\xFF\xFF\xFF\xFF\xFF\x10\x19E\x8E\x18\0\0\0\x0C\x80\0\0\0\0\0\0\0T\x7FE\xFB".as_slice(),
            -1001,
            Txid(9223372036854775807),
            Run {
                last: Some(Txid(9223372036854775807)),
                end: 25,
            },
        ),
        (
            "no record",
            b"\xFF\xFF\xFC\x17\0\0\0\0".as_slice(),
            -1001,
            Txid(1),
            run(0, 8),
        ),
        (
            "half a header",
            b"\xFF\xFF\xFC\x17\0\0\0".as_slice(),
            -1001,
            Txid(1),
            run(0, 0),
        ),
        (
            "flags in the header",
            b"\xFF\xFF\xFC\x17\0\0\0\x01\x18\0\0\0\x0C\0\0\0\0\0\0\0\x01pC\xF0\xB7".as_slice(),
            -1001,
            Txid(1),
            run(0, 0),
        ),
        ("nothing", b"".as_slice(), -1001, Txid(1), run(0, 0)),
    ];
    for (what, bytes, layout, first, want) in cases {
        assert!(rt; intact_run(alloc, bytes, layout, first)? == want, "{what}");
    }
    Ok(())
}

/// Twelve records, of each opcode one.
const ALL: &[u8; 436] =
    b"\xFF\xFF\xFC\x17\0\0\0\0\x18\0\0\0\x0C\0\0\0\0\0\0\0\x01pC\xF0\xB7\x03\0\0\02\0\0\0\0\0\0\0\x02\0\0\0\0\0\0@\x02\0\x02/a\0\0\0\0\0\0\0\0\x04hdfs\x0Asupergroup\x01\xED\xD1,\x879\0\0\0\06\0\0\0\0\0\0\0\x03\0\0\0\0\0\0@\x03\0\x04/a/f\0\x03\0\0\0\0\0\0\0\x09\x04hdfs\x0Asupergroup\x01\xA4\xBD+\xFF\xEF!\0\0\0*\0\0\0\0\0\0\0\x04\0\x04/a/f\0\0\0\0@\0\0\x01\0\0\0\0\0\0\x03\xE9\0\0\0\0\0\0\0\x05-\x22b\xA3\x09\0\0\0\x1A\0\0\0\0\0\0\0\x05\0\x04/a/f\0\0\0\0\0\0\0\x0A#\x12\x19\xFA\x01\0\0\0\x1E\0\0\0\0\0\0\0\x06\0\x04/a/f\0\x02/b\0\0\0\0\0\0\0\x0B\xFD\x1E\x92r\x04\0\0\0\x12\0\0\0\0\0\0\0\x07\0\x02/b\xFF\xFFm\xC75d\x07\0\0\0\x11\0\0\0\0\0\0\0\x08\0\x01/\x03\xFF\x1CY@\xA8\x08\0\0\03\0\0\0\0\0\0\0\x09\0\x02/b\x01o ggggggggggggggggggggggggggggggggN5l\xF7\x0E\0\0\0 \0\0\0\0\0\0\0\x0A\0\x02/a\x7F\xFF\xFF\xFF\xFF\xFF\xFF\xFF\xFF\xFF\xFF\xFF\xFF\xFF\xFF\xFF\x13[+a\x02\0\0\0\x18\0\0\0\0\0\0\0\x0B\0\x02/b\x7F\xFF\xFF\xFF\xFF\xFF\xFF\xFFs\x84A\xFA\x17\0\0\0\x0C\0\0\0\0\0\0\0\x0C)\x82Y?";

/// Their ids, and where they end.
static ENDS: [(u32, usize); 12] = [
    (1, 25),
    (2, 80),
    (3, 139),
    (4, 186),
    (5, 217),
    (6, 252),
    (7, 275),
    (8, 297),
    (9, 353),
    (10, 390),
    (11, 419),
    (12, 436),
];

// The table, by reference: a function that named it would be proved with each of its rows.
fn ends() -> &'static [(u32, usize)] {
    &ENDS
}

/// The run of those records that end before a place or at it.
fn run_before(place: usize) -> Run {
    if place < 8 {
        return run(0, 0);
    }
    let mut before = (0, 8);
    for &record in ends() {
        if record.1 <= place {
            before = record;
        }
    }
    run(before.0, before.1)
}

fn is_before(last: Option<Txid>, end: usize, place: usize) -> bool {
    Run { last, end } == run_before(place)
}

fn is_kept_when_cut(alloc: Global, len: usize) -> Result<bool, Fail>
    requires { len ≤ 436 }
{
    let Run { last, end } = intact_run(alloc, &ALL[..len], LAYOUT, Txid(1))?;
    Ok(is_before(last, end, len))
}

#[test]
fn a_record_is_next_where_its_id_is_asked_for(rt: HostRuntime) -> Result<(), Fail> {
    let alloc = rt.alloc();
    assert!(rt; records_in(ALL, -1002).is_none());
    let records = records_in(ALL, LAYOUT).ok_or("a header")?;
    let (record, len) = next_record(alloc, records, 1)?.ok_or("a record")?;
    assert_eq!(rt; record.id.0, 1);
    assert_eq!(rt; len, 17);
    assert!(rt; next_record(alloc, records, 2)?.is_none());
    Ok(())
}

#[test]
fn a_segment_that_is_cut_keeps_its_whole_records(rt: HostRuntime) -> Result<(), Fail> {
    for len in 0..=ALL.len() {
        assert!(rt; is_kept_when_cut(rt.alloc(), len)?, "{len}");
    }
    Ok(())
}

fn is_kept_when_turned(alloc: Global, place: usize, bit: u8) -> Result<bool, Fail>
    requires place { place < 436 }
    requires bit { bit < 8 }
{
    let mut bytes = *ALL;
    bytes[place] ^= 1 << bit;
    let Run { last, end } = intact_run(alloc, &bytes, LAYOUT, Txid(1))?;
    Ok(is_before(last, end, place))
}

#[test]
fn a_bit_that_is_turned_ends_the_run_before_its_record(rt: HostRuntime) -> Result<(), Fail> {
    for place in 0..ALL.len() {
        for bit in 0..8 {
            assert!(rt;
                is_kept_when_turned(rt.alloc(), place, bit)?,
                "{place} {bit}"
            );
        }
    }
    Ok(())
}
