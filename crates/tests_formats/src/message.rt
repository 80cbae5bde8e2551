// Messages that were written down by hand, after HDFS's `fsimage.proto`.
use nn_base::{Label, NoMemory, Txid};
use nn_message::{
    Attributes, Lengths, check_messages, delimit, put_end, put_inode, put_inodes, put_key,
    put_ns_info, put_number, put_string, put_strings,
};
use nn_tree::{Block, Blocks, Counters, Kind, Node};
use nn_wire::varint_put;
use std::alloc::Global;
use std::test::Fail;

// NS_INFO and STRING_TABLE of an image of the empty namespace, by hand after HDFS's `fsimage.proto`.
const INFO: &[u8] = b"\x0d\x08\x07\x18\xe8\x07\x28\x80\x80\x80\x80\x04\x30\x00";

const STRINGS: &[u8] = b"\x02\x08\x02\x08\x08\x01\x12\x04hdfs\x0e\x08\x02\x12\x0asupergroup";

// The head of INODE and an open file with a block, by hand too.
const FILE: [u8; 45] = *b"\x06\x08\x82\x80\x01\x10\x02\
\x25\x08\x01\x10\x82\x80\x01\x1a\x01a\
\x22\x1a\x08\x03\x10\x00\x18\x01\x20\x02\x28\xa4\x03\
\x32\x0b\x08\x81\x80\x80\x80\x04\x10\xe9\x07\x18\x01\
\x38\x01";

// The summary of an image of the empty namespace, and its length.
const END: &[u8] = b"\x46\x08\x01\x10\xe9\x07\
\x22\x0d\x0a\x07NS_INFO\x10\x0e\x18\x08\x22\x12\x0a\x0cSTRING_TABLE\x10\x1b\x18\x16\
\x22\x0b\x0a\x05INODE\x10\x1b\x18\x31\x22\x0f\x0a\x09INODE_DIR\x10\x00\x18\x4c\x00\x00\x00\x47";

// The node of that file, which belongs to the first two strings.
fn open_file(alloc: Global, owner: Label, group: Label) -> Result<Node, NoMemory> {
    let mut list = Vec::new(alloc);
    list.push(Block {
        id: 1_073_741_825,
        stamp: 1001,
        length: 1,
    })?;
    let kind = Kind::File {
        replication: 3,
        is_open: true,
        blocks: Blocks { list },
    };
    Ok(Node {
        id: 16_386,
        owner,
        group,
        mode: 0o644,
        time: 0,
        kind,
    })
}

#[test]
fn messages_are_written_as_by_hand(rt: HostRuntime) -> Result<(), Fail> {
    let alloc = rt.alloc();
    let counters = Counters {
        inode: 16_386,
        block: 1_073_741_824,
        stamp: 1000,
    };
    let mut out = Vec::new(alloc);
    put_ns_info(7, Txid(0), &counters, &mut out)?;
    assert_eq!(rt; out.as_slice(), INFO);
    out.clear();
    put_strings(2, &mut out)?;
    put_string(1, b"hdfs", &mut out)?;
    put_string(2, b"supergroup", &mut out)?;
    assert_eq!(rt; out.as_slice(), STRINGS);
    let (Some(owner), Some(group)) = (Label::of(b"hdfs"), Label::of(b"supergroup")) else {
        return Err(Fail::from("no label"));
    };
    let node = open_file(alloc, owner, group)?;
    let attributes = Attributes {
        time: 0,
        owner: 1,
        group: 2,
        mode: 0o644,
    };
    out.clear();
    put_inodes(16_386, 2, &mut out)?;
    put_inode(b"a", &node, &attributes, &mut out)?;
    assert_eq!(rt; out.as_slice(), FILE.as_slice());
    Ok(())
}

#[test]
fn a_file_is_read_and_none_with_a_fault_in_it(rt: HostRuntime) {
    let cases = [
        (20, 3, true, "as it is"),
        (29, 7, true, "a mode of 1644, octal"),
        (29, 9, false, "a mode of 2244, octal"),
        (7, 0x24, false, "a message of one byte less"),
        (9, 2, false, "a directory that is a file"),
        (16, b'/', false, "a name that is none"),
        (20, 0, false, "no replica"),
        (42, 0, false, "an empty block"),
        (44, 2, false, "another mark of an open file"),
    ];
    for (place, byte, is_whole, what) in cases {
        let mut inodes = FILE;
        if let Some(changed) = inodes.get_mut(place) {
            *changed = byte;
        }
        assert_eq!(rt;
            check_messages(INFO, STRINGS, &inodes, b""),
            is_whole,
            "{what}"
        );
    }
    assert!(rt; check_messages(INFO, STRINGS, &FILE[..7], b""));
    assert!(rt; !check_messages(INFO, STRINGS, b"", b""));
}

#[test]
fn an_entry_and_the_end_of_an_image_are_written_as_by_hand(rt: HostRuntime) -> Result<(), Fail> {
    let mut out = Vec::new(rt.alloc());
    put_number(1, 16_387, &mut out)?;
    put_key(2, &mut out)?;
    let at = out.len();
    varint_put(16_393, &mut out)?;
    assert!(rt; at <= out.len());
    delimit(at, &mut out)?;
    delimit(0, &mut out)?;
    assert_eq!(rt;
        out.as_slice(),
        b"\x09\x08\x83\x80\x01\x12\x03\x89\x80\x01".as_slice()
    );
    out.clear();
    let lengths = Lengths {
        info: 14,
        strings: 27,
        inodes: 27,
        directories: 0,
    };
    put_end(1001, &lengths, &mut out)?;
    assert_eq!(rt; out.as_slice(), END);
    Ok(())
}
