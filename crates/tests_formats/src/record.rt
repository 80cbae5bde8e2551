// Records against bytes that were spelled outside: their checksums are those of zlib.
use nn_base::{Label, Path, Txid};
use nn_record::{Op, Record};
use std::alloc::Global;
use std::test::Fail;

/// `mkdir /a` as the first command after a format.
const MKDIR_A: &[u8] =
    b"\x03\0\0\02\0\0\0\0\0\0\0\x02\0\0\0\0\0\0@\x02\0\x02/a\0\0\0\0\0\0\0\0\x04hdfs\x0Asupergroup\x01\xED\xD1,\x879";

#[test]
fn a_record_has_the_bytes_that_were_spelled_outside(rt: HostRuntime) -> Result<(), Fail> {
    let alloc = rt.alloc();
    let op = Op::Mkdir {
        inode: 16386,
        path: Path::parse(alloc, b"/a")?,
        time: 0,
        owner: Label::of(b"hdfs").ok_or("an owner")?,
        group: Label::of(b"supergroup").ok_or("a group")?,
        mode: 0o755,
    };
    let mut out = Vec::with_capacity(alloc, 65_536)?;
    Record::put_op(Txid(2), &op, &mut out);
    assert!(rt; out.as_slice() == MKDIR_A);
    Ok(())
}

/// What a record that is got is put as, and how many bytes it was said to have.
fn put_again(alloc: Global, bytes: &[u8]) -> Result<Option<(Vec<u8>, usize)>, Fail> {
    let Some((record, len)) = Record::get(alloc, bytes)? else {
        return Ok(None);
    };
    let mut out = Vec::with_capacity(alloc, 65_536)?;
    record.put(&mut out);
    Ok(Some((out, len)))
}

#[test]
fn each_opcode_is_read_whatever_follows_and_written_alike(rt: HostRuntime) -> Result<(), Fail> {
    let alloc = rt.alloc();
    let known: [&[u8]; 12] = [
        b"\x18\0\0\0\x0C\0\0\0\0\0\0\0\x02\xE9J\xA1\x0D",
        b"\x03\0\0\02\0\0\0\0\0\0\0\x02\0\0\0\0\0\0@\x02\0\x02/a\0\0\0\0\0\0\0\0\x04hdfs\x0Asupergroup\x01\xED\xD1,\x879",
        b"\0\0\0\06\0\0\0\0\0\0\0\x02\0\0\0\0\0\0@\x03\0\x04/a/f\0\x03\0\0\0\0\0\0\0\x09\x04hdfs\x0Asupergroup\x01\xA4\xFA8\x09\x14",
        b"!\0\0\0*\0\0\0\0\0\0\0\x02\0\x04/a/f\0\0\0\0@\0\0\x01\0\0\0\0\0\0\x03\xE9\0\0\0\0\0\0\0\x05\x0Br\x10E",
        b"\x09\0\0\0\x1A\0\0\0\0\0\0\0\x02\0\x04/a/f\0\0\0\0\0\0\0\x0A\xB8\x13\x16\xE0",
        b"\x01\0\0\0\x1E\0\0\0\0\0\0\0\x02\0\x04/a/f\0\x02/b\0\0\0\0\0\0\0\x0B\x14v\x9F\x90",
        b"\x04\0\0\0\x12\0\0\0\0\0\0\0\x02\0\x02/b\xFF\xFF?\xFF\x1A\xC3",
        b"\x07\0\0\0\x11\0\0\0\0\0\0\0\x02\0\x01/\x03\xFF\xBD\xC2c\xCE",
        b"\x08\0\0\03\0\0\0\0\0\0\0\x02\0\x02/b\x01o gggggggggggggggggggggggggggggggg\x1E\xFA]\x80",
        b"\x0E\0\0\0 \0\0\0\0\0\0\0\x02\0\x02/a\x7F\xFF\xFF\xFF\xFF\xFF\xFF\xFF\xFF\xFF\xFF\xFF\xFF\xFF\xFF\xFF6\xA9\x22\x17",
        b"\x02\0\0\0\x18\x7F\xFF\xFF\xFF\xFF\xFF\xFF\xFF\0\x02/b\x7F\xFF\xFF\xFF\xFF\xFF\xFF\xFF\x1C\xD2n\xAD",
        b"\x17\0\0\0\x0C\0\0\0\0\0\0\0\x02\xCE:t8",
    ];
    for bytes in known {
        for after in [b"".as_slice(), b"\0".as_slice(), MKDIR_A] {
            let mut whole = bytes.to_vec(alloc)?;
            whole.extend_from_slice(after)?;
            let (again, len) = put_again(alloc, &whole)?.ok_or("a record")?;
            assert!(rt; len == bytes.len(), "{bytes:?}");
            assert!(rt; again.as_slice() == bytes, "{bytes:?}");
        }
    }
    Ok(())
}

#[test]
fn what_no_record_spells_is_none(rt: HostRuntime) -> Result<(), Fail> {
    let alloc = rt.alloc();
    let others = [
        ("nothing", b"".as_slice()),
        (
            "a record without its last byte",
            b"\x03\0\0\02\0\0\0\0\0\0\0\x02\0\0\0\0\0\0@\x02\0\x02/a\0\0\0\0\0\0\0\0\x04hdfs\x0Asupergroup\x01\xED\xD1,\x87".as_slice(),
        ),
        (
            "another checksum",
            b"\x03\0\0\02\0\0\0\0\0\0\0\x02\0\0\0\0\0\0@\x02\0\x02/a\0\0\0\0\0\0\0\0\x04hdfs\x0Asupergroup\x01\xED\xD1,\x878".as_slice(),
        ),
        (
            "a length of 0",
            b"\x18\0\0\0\0\0\0\0\0\0\0\0\x01\x96w\x03\xA3".as_slice(),
        ),
        (
            "a length of 11",
            b"\x18\0\0\0\x0B\0\0\0\0\0\0\0\x01\x14\x22\x9D~".as_slice(),
        ),
        (
            "a length that counts the checksum",
            b"\x18\0\0\0\x10\0\0\0\0\0\0\0\x01:\xB7A\xD2".as_slice(),
        ),
        (
            "a length of 2^32 - 1",
            b"\x18\xFF\xFF\xFF\xFF\0\0\0\0\0\0\0\x01\x12]:3".as_slice(),
        ),
        (
            "id 0",
            b"\x18\0\0\0\x0C\0\0\0\0\0\0\0\0\x07D\xC0!".as_slice(),
        ),
        (
            "id 2^63",
            b"\x18\0\0\0\x0C\x80\0\0\0\0\0\0\0T\x7FE\xFB".as_slice(),
        ),
        (
            "a start with a body",
            b"\x18\0\0\0\x0D\0\0\0\0\0\0\0\x01\0h\xB5\xE1l".as_slice(),
        ),
        (
            "a body that ends early",
            b"\x09\0\0\0\x17\0\0\0\0\0\0\0\x02\0\x02/a\0\0\0\0\0\0\0X\xAC=\xFA".as_slice(),
        ),
        (
            "a body that goes on",
            b"\x09\0\0\0\x19\0\0\0\0\0\0\0\x02\0\x02/a\0\0\0\0\0\0\0\0\0<Ps\xF5".as_slice(),
        ),
        (
            "opcode 5",
            b"\x05\0\0\0\x18\0\0\0\0\0\0\0\x02\0\x02/a\0\0\0\0\0\0\0\0\x14\x91\x0E\xD0".as_slice(),
        ),
        (
            "a link",
            b"\x11\0\0\0\x18\0\0\0\0\0\0\0\x02\0\x02/a\0\0\0\0\0\0\0\0\xB7;cE".as_slice(),
        ),
        (
            "the invalid opcode",
            b"\xFF\0\0\0\x0C\0\0\0\0\0\0\0\x02:\xA0X\x1C".as_slice(),
        ),
        (
            "mode 2000",
            b"\x07\0\0\0\x12\0\0\0\0\0\0\0\x02\0\x02/a\x04\0D\xA5\xF5\xC8".as_slice(),
        ),
        (
            "time 2^63",
            b"\x09\0\0\0\x18\0\0\0\0\0\0\0\x02\0\x02/a\x80\0\0\0\0\0\0\0\x90\x1CRF".as_slice(),
        ),
        (
            "a bound of 2^64 - 2",
            b"\x0E\0\0\0 \0\0\0\0\0\0\0\x02\0\x02/a\xFF\xFF\xFF\xFF\xFF\xFF\xFF\xFE\xFF\xFF\xFF\xFF\xFF\xFF\xFF\xFF}/\xDB\xA0".as_slice(),
        ),
        (
            "no path",
            b"\x09\0\0\0\x16\0\0\0\0\0\0\0\x02\0\0\0\0\0\0\0\0\0\0?\x98\x04n".as_slice(),
        ),
        (
            "a path without a slash",
            b"\x09\0\0\0\x17\0\0\0\0\0\0\0\x02\0\x01a\0\0\0\0\0\0\0\0\xB9\x8A\xFEI".as_slice(),
        ),
        (
            "a path that ends with a slash",
            b"\x09\0\0\0\x19\0\0\0\0\0\0\0\x02\0\x03/a/\0\0\0\0\0\0\0\0\xFA\xBDr\xE8".as_slice(),
        ),
        (
            "an empty owner",
            b"\x08\0\0\0\x13\0\0\0\0\0\0\0\x02\0\x02/a\0\x01gX\xCA\x8C,".as_slice(),
        ),
        (
            "a group of 33 bytes",
            b"\x08\0\0\04\0\0\0\0\0\0\0\x02\0\x02/a\x01o!ggggggggggggggggggggggggggggggggg\x88\xFB\xCD\xA6".as_slice(),
        ),
    ];
    for (what, bytes) in others {
        assert!(rt; Record::get(alloc, bytes)?.is_none(), "{what}");
    }
    Ok(())
}
