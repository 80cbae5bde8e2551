// An image that is whole, and one that is so but for one block more than a namespace may have. They have 92 million bytes:
// a built test takes five seconds of processor time, and `rt try`, which builds nothing, gives it up.
use nn_base::decimal::id_digits;
use nn_base::{Label, NoMemory, Txid};
use nn_image::{ImageFault, load};
use nn_message::{
    Attributes, Lengths, put_end, put_inode, put_inodes, put_key, put_ns_info, put_number,
};
use nn_tree::{Block, Blocks, Counters, Kind, Node, PlainTree};
use nn_wire::varint_put;
use std::alloc::Global;
use std::test::Fail;

// Files of 10,000 blocks, but for the last: with 8,608 blocks in that one there are 8,388,608.
const FILES: u64 = 839;

const FULL: u64 = 10_000;

const STRINGS: &[u8] = b"\x02\x08\x02\x08\x08\x01\x12\x04hdfs\x0e\x08\x02\x12\x0asupergroup";

const ROOT: &[u8] =
    b"\x13\x08\x02\x10\x81\x80\x01\x1a\x00\x2a\x09\x08\x00\x20\x01\x28\x02\x30\xed\x03";

// More bytes than each section has.
const MANY: u64 = 1 << 30;

// So many blocks of one byte each, from an id on.
fn blocks_from(alloc: Global, first: u64, count: u64) -> Result<Blocks, NoMemory> {
    let mut list = Vec::new(alloc);
    for k in 0..count {
        list.push(Block {
            id: first.wrapping_add(k),
            stamp: 1,
            length: 1,
        })?;
    }
    Ok(Blocks { list })
}

// The root and the files in it.
fn put_nodes(alloc: Global, last: u64, out: &mut Vec<u8>) -> Result<(), Fail> {
    let attributes = Attributes {
        time: 0,
        owner: 1,
        group: 2,
        mode: 0o644,
    };
    put_inodes(16_385 + FILES, 1 + FILES, out)?;
    out.extend_from_slice(ROOT)?;
    for file in 0..FILES {
        let count = if file + 1 < FILES { FULL } else { last };
        let node = Node {
            id: 16_386 + file,
            owner: Label::of(b"hdfs").ok_or("an owner")?,
            group: Label::of(b"supergroup").ok_or("a group")?,
            mode: 0o644,
            time: 0,
            kind: Kind::File {
                replication: 1,
                is_open: false,
                blocks: blocks_from(alloc, 1 + FULL * file, count)?,
            },
        };
        put_inode(&id_digits(file), &node, &attributes, out)?;
    }
    Ok(())
}

// The entry of the root.
fn put_children(alloc: Global, out: &mut Vec<u8>) -> Result<(), NoMemory> {
    let mut ids = Vec::new(alloc);
    for file in 0..FILES {
        varint_put(16_386 + file, &mut ids)?;
    }
    let mut entry = Vec::new(alloc);
    put_number(1, 16_385, &mut entry)?;
    put_key(2, &mut entry)?;
    varint_put(ids.len() as u64, &mut entry)?;
    entry.extend_from_slice(&ids)?;
    varint_put(entry.len() as u64, out)?;
    out.extend_from_slice(&entry)?;
    Ok(())
}

// The image of files whose last one has so many blocks.
fn image_with(alloc: Global, last: u64) -> Result<Vec<u8>, Fail> {
    let counters = Counters {
        inode: 16_385 + FILES,
        block: FULL * FILES,
        stamp: 1,
    };
    let mut info = Vec::new(alloc);
    put_ns_info(7, Txid(0), &counters, &mut info)?;
    let mut inodes = Vec::new(alloc);
    put_nodes(alloc, last, &mut inodes)?;
    let mut directories = Vec::new(alloc);
    put_children(alloc, &mut directories)?;
    let lengths = Lengths {
        info: info.len() as u64,
        strings: STRINGS.len() as u64,
        inodes: inodes.len() as u64,
        directories: directories.len() as u64,
    };
    if lengths.info > MANY || lengths.strings > MANY || lengths.inodes > MANY {
        return Err(Fail::from("sections that are too long"));
    }
    let mut image = Vec::new(alloc);
    image.extend_from_slice(b"HDFSIMG1")?;
    image.extend_from_slice(&info)?;
    image.extend_from_slice(STRINGS)?;
    image.extend_from_slice(&inodes)?;
    image.extend_from_slice(&directories)?;
    put_end(1001, &lengths, &mut image)?;
    Ok(image)
}

#[test]
fn an_image_has_8388608_blocks_and_no_more(rt: HostRuntime) -> Result<(), Fail> {
    for (last, fault) in [(8_608, None), (8_609, Some(ImageFault::Tree))] {
        let image = image_with(rt.alloc(), last)?;
        let told = load::<PlainTree>(rt.alloc(), &image, -1001).err();
        assert_eq!(rt; told, fault, "{last}");
    }
    Ok(())
}
