// Texts that were written down by hand.
use nn_base::Txid;
use nn_marks::{
    Key, VersionFault, md5_read, md5_text, seen_read, seen_text, version_read, version_text,
};
use std::test::Fail;

const VERSION: &str =
    "namespaceID=7\nclusterID=c1\ncTime=0\nstorageType=NAME_NODE\nblockpoolID=BP-7\nlayoutVersion=-1001\n";

// The same with its lines reversed, a comment and carriage returns. The last line has no newline.
const REVERSED: &str =
    "#x\r\nlayoutVersion=-1001\r\nblockpoolID=BP-7\r\n\r\nstorageType=NAME_NODE\r\ncTime=0\r\nclusterID=c1\r\nunknown=\r\nnamespaceID=0000000000000000007";

static FAULTS: [(&str, VersionFault); 13] = [
    ("", VersionFault::Missing(Key::NamespaceId)),
    ("cTime=0\x0B\n", VersionFault::NotText),
    ("#x\n\ncTime=0\ncTime\n", VersionFault::BadLine(4)),
    (
        "cTime=0\nlayoutVersion=1\ncTime=0\nx\n",
        VersionFault::Twice(Key::CTime),
    ),
    ("cTime=0\n\r", VersionFault::BadLine(2)),
    (
        "namespaceID=7\nclusterID=c1\n",
        VersionFault::Missing(Key::CTime),
    ),
    (
        "namespaceID=7\nclusterID=c1\ncTime=x\n",
        VersionFault::BadNumber(Key::CTime),
    ),
    (
        "namespaceID=7\nclusterID=c1\ncTime=00000000000000000000\n",
        VersionFault::BadNumber(Key::CTime),
    ),
    (
        "namespaceID=7\nclusterID=c1\ncTime=0\r",
        VersionFault::BadNumber(Key::CTime),
    ),
    (
        "namespaceID=2147483648\n",
        VersionFault::BadNumber(Key::NamespaceId),
    ),
    (
        "namespaceID=7\nclusterID=\n",
        VersionFault::BadWord(Key::ClusterId),
    ),
    (
        "namespaceID=7\nclusterID=c1\ncTime=0\nstorageType=DATA_NODE\n",
        VersionFault::BadWord(Key::StorageType),
    ),
    (
        "namespaceID=7\nclusterID=c1\ncTime=0\nstorageType=NAME_NODE\nblockpoolID=BP-7\nlayoutVersion=1001\n",
        VersionFault::BadNumber(Key::LayoutVersion),
    ),
];

// The table, by reference: a function that named it would be proved with each of its rows.
fn faults() -> &'static [(&'static str, VersionFault)] {
    &FAULTS
}

#[test]
fn version_is_written_in_one_order_and_read_in_any(rt: HostRuntime) -> Result<(), Fail> {
    let version = version_read(REVERSED.as_bytes())?;
    assert!(rt; version.namespace == 7 && version.ctime == 0 && version.layout == -1001);
    assert!(rt; version.cluster.bytes() == b"c1".as_slice());
    assert!(rt; version.blockpool.bytes() == b"BP-7".as_slice());
    let text = version_text(rt.alloc(), &version)?;
    assert!(rt; text.as_slice() == VERSION.as_bytes());
    assert!(rt; version_read(&text)? == version);
    Ok(())
}

#[test]
fn the_first_fault_of_version_is_told(rt: HostRuntime) {
    for &(text, fault) in faults() {
        assert!(rt;
            version_read(text.as_bytes()).err() == Some(fault),
            "{text}"
        );
    }
    let long = [b'\n'; 65_537];
    assert!(rt; version_read(&long).err() == Some(VersionFault::TooLong));
    assert!(rt; version_read(&long[1..]).err() == Some(VersionFault::Missing(Key::NamespaceId)));
}

#[test]
fn seen_txid_is_a_number_and_a_newline(rt: HostRuntime) {
    let mut out = [b'x'; 20];
    let len = seen_text(Txid(60202), &mut out);
    assert!(rt; &out[..len] == b"60202\n".as_slice());
    let last = seen_text(Txid(9_223_372_036_854_775_807), &mut out);
    assert!(rt; &out[..last] == b"9223372036854775807\n".as_slice());
    for (text, id) in [
        ("0\n", 0),
        ("13", 13),
        ("0000000000000000013\n", 13),
        ("9223372036854775807\n", 9_223_372_036_854_775_807),
    ] {
        assert!(rt; seen_read(text.as_bytes()) == Some(id), "{text}");
    }
    for text in [
        "",
        "\n",
        "13\n\n",
        "13\r\n",
        "+13\n",
        " 13\n",
        "9223372036854775808\n",
        "00000000000000000013\n",
    ] {
        assert!(rt; seen_read(text.as_bytes()).is_none(), "{text}");
    }
}

#[test]
fn the_md5_file_has_62_bytes_and_one_spelling(rt: HostRuntime) {
    // The digest of no bytes at all, of RFC 1321.
    let digest = [
        0xD4, 0x1D, 0x8C, 0xD9, 0x8F, 0x00, 0xB2, 0x04, 0xE9, 0x80, 0x09, 0x98, 0xEC, 0xF8, 0x42,
        0x7E,
    ];
    let text = b"d41d8cd98f00b204e9800998ecf8427e *fsimage_0000000000000000000\n";
    let mut out = [b'x'; 80];
    let len = md5_text(&digest, Txid(0), &mut out);
    assert!(rt; &out[..len] == text.as_slice());
    assert!(rt; md5_read(text) == Some((digest, Txid(0))));
    for other in [
        "D41D8CD98F00B204E9800998ECF8427E *fsimage_0000000000000000000\n",
        "d41d8cd98f00b204e9800998ecf8427e  fsimage_0000000000000000000\n",
        "d41d8cd98f00b204e9800998ecf8427e *fsimage_9999999999999999999\n",
        "d41d8cd98f00b204e9800998ecf8427e *fsimage_0000000000000000000",
        "",
    ] {
        assert!(rt; md5_read(other.as_bytes()).is_none(), "{other}");
    }
}
