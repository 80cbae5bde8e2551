// Images that were written down by hand, after HDFS's `fsimage.proto`.
use nn_base::{NoMemory, Path, Txid};
use nn_image::{ImageFault, load, save};
use nn_tree::{PlainTree, Tree, Walk};
use std::alloc::Global;
use std::test::Fail;

// The image of the empty namespace by hand, after HDFS's `fsimage.proto`.
const EMPTY: &[u8] = b"HDFSIMG1\
\x0d\x08\x07\x18\xe8\x07\x28\x80\x80\x80\x80\x04\x30\x00\
\x02\x08\x02\x08\x08\x01\x12\x04hdfs\x0e\x08\x02\x12\x0asupergroup\
\x06\x08\x81\x80\x01\x10\x01\x13\x08\x02\x10\x81\x80\x01\x1a\x00\x2a\x09\x08\x00\x20\x01\x28\x02\x30\xed\x03\
\x46\x08\x01\x10\xe9\x07\x22\x0d\x0a\x07NS_INFO\x10\x0e\x18\x08\x22\x12\x0a\x0cSTRING_TABLE\x10\x1b\x18\x16\
\x22\x0b\x0a\x05INODE\x10\x1b\x18\x31\x22\x0f\x0a\x09INODE_DIR\x10\x00\x18\x4c\x00\x00\x00\x47";

// Twelve nodes by hand: files with and without blocks, two of them open, and directories with quotas. Its transaction id is 300.
const TWELVE: &[u8] = b"HDFSIMG1\
\x0e\x08\x07\x18\xed\x07\x28\x86\x80\x80\x80\x04\x30\xac\x02\
\x02\x08\x05\x08\x08\x01\x12\x04hdfs\x0e\x08\x02\x12\x0asupergroup\x07\x08\x03\x12\x03ops\x07\x08\x04\x12\x03ann\x09\x08\x05\x12\x05users\
\x06\x08\x8d\x80\x01\x10\x0c\
\x1a\x08\x02\x10\x81\x80\x01\x1a\x00\x2a\x10\x08\x80\xd0\x95\xff\xbc\x31\x10\x64\x20\x01\x28\x02\x30\xed\x03\
\x25\x08\x02\x10\x82\x80\x01\x1a\x04data\x2a\x17\x08\xe4\xd0\x95\xff\xbc\x31\x10\x32\x18\x80\x80\x80\x80\x80\x20\x20\x01\x28\x02\x30\xed\x03\
\x38\x08\x01\x10\x84\x80\x01\x1a\x01a\x22\x2d\x08\x03\x10\xc8\xd1\x95\xff\xbc\x31\x18\x01\x20\x02\x28\xa4\x03\
\x32\x0e\x08\x81\x80\x80\x80\x04\x10\xe9\x07\x18\x80\x80\x80\x40\x32\x0b\x08\x83\x80\x80\x80\x04\x10\xeb\x07\x18\x4d\
\x2a\x08\x01\x10\x8b\x80\x01\x1a\x01b\x22\x1f\x08\x01\x10\xac\xd2\x95\xff\xbc\x31\x18\x01\x20\x03\x28\x80\x03\x32\x0b\x08\x82\x80\x80\x80\x04\x10\xea\x07\x18\x01\x38\x01\
\x18\x08\x02\x10\x87\x80\x01\x1a\x05empty\x2a\x09\x08\x00\x20\x03\x28\x03\x30\xc0\x03\
\x1c\x08\x02\x10\x85\x80\x01\x1a\x04logs\x2a\x0e\x08\x90\xd3\x95\xff\xbc\x31\x20\x01\x28\x02\x30\xe8\x03\
\x1d\x08\x01\x10\x86\x80\x01\x1a\x01x\x22\x12\x08\x02\x10\xf4\xd3\x95\xff\xbc\x31\x18\x01\x20\x02\x28\xa4\x03\x38\x01\
\x2e\x08\x01\x10\x88\x80\x01\x1a\x01y\x22\x23\x08\x80\x04\x10\xd8\xd4\x95\xff\xbc\x31\x18\x02\x20\x04\x28\xa4\x02\x32\x10\x08\x84\x80\x80\x80\x04\x10\xeb\x07\x18\x80\x80\x80\x80\x80\x10\
\x19\x08\x02\x10\x83\x80\x01\x1a\x04home\x2a\x0b\x08\x05\x18\x00\x20\x01\x28\x02\x30\xed\x03\
\x16\x08\x02\x10\x89\x80\x01\x1a\x03ann\x2a\x09\x08\x06\x20\x04\x28\x05\x30\xc0\x03\
\x1a\x08\x01\x10\x8a\x80\x01\x1a\x05notes\x22\x0b\x08\x03\x10\x07\x18\x04\x20\x05\x28\xa0\x03\
\x16\x08\x02\x10\x8c\x80\x01\x1a\x03tmp\x2a\x09\x08\x08\x20\x01\x28\x02\x30\xff\x07\
\x0f\x08\x81\x80\x01\x12\x09\x82\x80\x01\x83\x80\x01\x8c\x80\x01\
\x12\x08\x82\x80\x01\x12\x0c\x84\x80\x01\x8b\x80\x01\x87\x80\x01\x85\x80\x01\
\x0c\x08\x85\x80\x01\x12\x06\x86\x80\x01\x88\x80\x01\
\x09\x08\x83\x80\x01\x12\x03\x89\x80\x01\
\x09\x08\x89\x80\x01\x12\x03\x8a\x80\x01\
\x48\x08\x01\x10\xe9\x07\
\x22\x0d\x0a\x07NS_INFO\x10\x0f\x18\x08\
\x22\x12\x0a\x0cSTRING_TABLE\x10\x35\x18\x17\
\x22\x0c\x0a\x05INODE\x10\x92\x03\x18\x4c\
\x22\x10\x0a\x09INODE_DIR\x10\x44\x18\xde\x03\x00\x00\x00\x49";

// The empty namespace, but that its namespaceID has a needless byte and all behind it stands one further.
const NEEDLESS: &[u8] = b"HDFSIMG1\
\x0e\x08\x87\x00\x18\xe8\x07\x28\x80\x80\x80\x80\x04\x30\x00\
\x02\x08\x02\x08\x08\x01\x12\x04hdfs\x0e\x08\x02\x12\x0asupergroup\
\x06\x08\x81\x80\x01\x10\x01\x13\x08\x02\x10\x81\x80\x01\x1a\x00\x2a\x09\x08\x00\x20\x01\x28\x02\x30\xed\x03\
\x46\x08\x01\x10\xe9\x07\
\x22\x0d\x0a\x07NS_INFO\x10\x0f\x18\x08\x22\x12\x0a\x0cSTRING_TABLE\x10\x1b\x18\x17\x22\x0b\x0a\x05INODE\x10\x1b\x18\x32\x22\x0f\x0a\x09INODE_DIR\x10\x00\x18\x4d\x00\x00\x00\x47";

// The empty namespace, but that its summary names a codec.
const PACKED: &[u8] = b"HDFSIMG1\
\x0d\x08\x07\x18\xe8\x07\x28\x80\x80\x80\x80\x04\x30\x00\
\x02\x08\x02\x08\x08\x01\x12\x04hdfs\x0e\x08\x02\x12\x0asupergroup\
\x06\x08\x81\x80\x01\x10\x01\x13\x08\x02\x10\x81\x80\x01\x1a\x00\x2a\x09\x08\x00\x20\x01\x28\x02\x30\xed\x03\
\x4c\x08\x01\x10\xe9\x07\
\x1a\x04gzip\x22\x0d\x0a\x07NS_INFO\x10\x0e\x18\x08\x22\x12\x0a\x0cSTRING_TABLE\x10\x1b\x18\x16\x22\x0b\x0a\x05INODE\x10\x1b\x18\x31\x22\x0f\x0a\x09INODE_DIR\x10\x00\x18\x4c\x00\x00\x00\x4d";

#[test]
#[tactic(auto, using(nn_tree::proofs::EmptyLemmas::imaged_empty))]
fn the_empty_namespace_has_the_image_of_151_bytes(rt: HostRuntime) -> Result<(), Fail> {
    let alloc = rt.alloc();
    let tree = PlainTree::new(alloc)?;
    let mut saver = save(alloc, &tree, Txid(0), 7, -1001)?;
    let mut piece = Vec::new(alloc);
    assert!(rt; saver.next(&tree, &mut piece)?);
    assert_eq!(rt; piece.as_slice(), EMPTY);
    assert!(rt; !saver.next(&tree, &mut piece)?);
    assert!(rt; piece.is_empty());
    Ok(())
}

// A namespaceID of two bytes makes NS_INFO and the file one byte longer, and all behind it moves by one.
#[test]
#[tactic(auto, using(nn_tree::proofs::EmptyLemmas::imaged_empty))]
fn a_longer_number_moves_all_behind_it(rt: HostRuntime) -> Result<(), Fail> {
    let alloc = rt.alloc();
    let tree = PlainTree::new(alloc)?;
    let mut saver = save(alloc, &tree, Txid(0), 300, -1001)?;
    let mut piece = Vec::new(alloc);
    assert!(rt; saver.next(&tree, &mut piece)?);
    assert_eq!(rt; piece.len(), 152);
    assert_eq!(rt; piece.get(8..12), Some([0x0e, 0x08, 0xac, 0x02].as_slice()));
    assert_eq!(rt; piece.get(147..), Some([0x4d, 0, 0, 0, 0x47].as_slice()));
    Ok(())
}

const LAYOUT: i32 = -1001;

fn fault_of(alloc: Global, bytes: &[u8], layout: i32) -> Option<ImageFault> {
    match load::<PlainTree>(alloc, bytes, layout) {
        Ok(_) => None,
        Err(fault) => Some(fault),
    }
}

// The fault of an image whose byte at a place was changed.
fn fault_with(
    alloc: Global,
    image: &[u8],
    place: usize,
    value: u8,
) -> Result<Option<ImageFault>, NoMemory> {
    let mut changed = Vec::new(alloc);
    changed.extend_from_slice(image)?;
    if let Some(byte) = changed.get_mut(place) {
        *byte = value;
    }
    Ok(fault_of(alloc, &changed, LAYOUT))
}

#[test]
fn bytes_are_read_or_have_the_first_fault(rt: HostRuntime) -> Result<(), Fail> {
    let alloc = rt.alloc();
    let loaded = load::<PlainTree>(alloc, EMPTY, LAYOUT)?;
    assert_eq!(rt; loaded.id.0, 0);
    assert_eq!(rt; loaded.namespace, 7);
    match loaded.tree.find(&Path::parse(alloc, b"/")?) {
        Walk::Found(root) => assert!(rt; loaded.tree.first_child(root).is_none()),
        _ => return Err(Fail::from("no root")),
    }
    for (bytes, layout, fault) in [
        (&EMPTY[..7], LAYOUT, ImageFault::Magic),
        (&EMPTY[..12], LAYOUT, ImageFault::Short),
        (&EMPTY[..150], LAYOUT, ImageFault::Short),
        (NEEDLESS, LAYOUT, ImageFault::Field),
        (PACKED, LAYOUT, ImageFault::Codec),
        (EMPTY, -1002, ImageFault::Layout(1001)),
    ] {
        assert_eq!(rt; fault_of(alloc, bytes, layout), Some(fault));
    }

    // two nodes, but one message
    assert_eq!(rt; fault_with(alloc, EMPTY, 55, 2)?, Some(ImageFault::Tree));
    Ok(())
}

// Whether the bytes have a fault, or are the image of what is read.
fn is_told_or_saved(alloc: Global, bytes: &[u8]) -> Result<bool, NoMemory> {
    match load::<PlainTree>(alloc, bytes, LAYOUT) {
        Err(ImageFault::Memory) => Err(NoMemory),
        Err(_) => Ok(true),
        Ok(loaded) => {
            let mut saver = save(alloc, &loaded.tree, loaded.id, loaded.namespace, LAYOUT)?;
            let mut piece = Vec::new(alloc);
            saver.next(&loaded.tree, &mut piece)?;
            Ok(piece.as_slice() == bytes)
        }
    }
}

// Tries eight other values of each byte.
fn all_are_told_or_saved(alloc: Global, image: &mut [u8]) -> Result<bool, NoMemory> {
    for place in 0..image.len() {
        let was = image[place];
        for more in [1, 2, 4, 8, 16, 32, 64, 128] {
            image[place] = was.wrapping_add(more);
            if !is_told_or_saved(alloc, image)? {
                return Ok(false);
            }
        }
        image[place] = was;
    }
    Ok(true)
}

#[test]
fn a_changed_image_has_a_fault_or_is_another_image(rt: HostRuntime) -> Result<(), Fail> {
    let alloc = rt.alloc();
    assert_eq!(rt; fault_of(alloc, TWELVE, LAYOUT), None);
    for end in 0..TWELVE.len() {
        assert!(rt; fault_of(alloc, &TWELVE[..end], LAYOUT).is_some());
    }
    let mut image = Vec::new(alloc);
    image.extend_from_slice(TWELVE)?;
    assert!(rt; all_are_told_or_saved(alloc, &mut image)?);
    for (place, value, fault) in [
        // the mark, the length of the summary in its two places, its version, its layout, a name and an offset
        (0, b'h', ImageFault::Magic),
        (622, 0x48, ImageFault::Short),
        (546, 0x49, ImageFault::Short),
        (548, 2, ImageFault::Field),
        (550, 0xea, ImageFault::Layout(1002)),
        (556, b'X', ImageFault::Section),
        (586, 0x18, ImageFault::Section),
        // a key, a name quota, a mode, a kind, a name, a replication, a block's length and an open mark
        (9, 0x10, ImageFault::Field),
        (102, 0, ImageFault::Field),
        (109, 8, ImageFault::Field),
        (112, 3, ImageFault::Field),
        (157, b'/', ImageFault::Field),
        (161, 0, ImageFault::Field),
        (245, 0, ImageFault::Field),
        (247, 0, ImageFault::Field),
        // how many strings, a string's number, the last inode id, how many nodes, a name behind the next one, an owner
        // without a name, a block id given twice, a parent without children, and a child in another's place
        (25, 6, ImageFault::Tree),
        (52, 4, ImageFault::Tree),
        (78, 0x80, ImageFault::Tree),
        (82, 13, ImageFault::Tree),
        (157, b'c', ImageFault::Tree),
        (170, 9, ImageFault::Tree),
        (236, 0x81, ImageFault::Tree),
        (480, 0x82, ImageFault::Tree),
        (485, 0x83, ImageFault::Tree),
    ] {
        assert_eq!(rt; fault_with(alloc, TWELVE, place, value)?, Some(fault));
    }
    Ok(())
}
