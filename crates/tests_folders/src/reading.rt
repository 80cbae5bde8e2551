// Images of a folder as they are read.
use nn_base::{DirNo, FileName, Sub, Txid};
use nn_chain::{ReadImage, read_image};
use nn_host::Host;
use nn_marks::version_read;
use nn_memhost::MemHost;
use nn_tree::{PlainTree, Tree};
use std::alloc::Global;
use std::test::Fail;
use tests_kit::texts::{DIGEST_0, IMAGE_0, VERSION};

// The same VERSION with another namespaceID.
const OF_8: &[u8] =
    b"namespaceID=8\nclusterID=c1\ncTime=0\nstorageType=NAME_NODE\nblockpoolID=BP-7\nlayoutVersion=-1001\n";

// The digest of the image of 0 in other MD5 files: of the id 1, with another first digit, in capitals, without a name,
// and with a line more.
const OF_1: &[u8] = b"f3ba8c0faeee0795b7ba148b670dfc18 *fsimage_0000000000000000001\n";

const OTHER: &[u8] = b"e3ba8c0faeee0795b7ba148b670dfc18 *fsimage_0000000000000000000\n";

const CAPITALS: &[u8] = b"F3BA8C0FAEEE0795B7BA148B670DFC18 *fsimage_0000000000000000000\n";

const NAMELESS: &[u8] = b"f3ba8c0faeee0795b7ba148b670dfc18\n";

const LONGER: &[u8] = b"f3ba8c0faeee0795b7ba148b670dfc18 *fsimage_0000000000000000000\n\n";

fn id(number: u8) -> Txid {
    Txid(u64::from(number))
}

// What the image of this id reads as, in a folder that has this image file and this MD5 file.
fn read(
    alloc: Global,
    asked: u8,
    image: (u8, &[u8]),
    digest: (u8, &[u8]),
    version: &[u8],
) -> Result<Result<PlainTree, ReadImage>, Fail> {
    let version = version_read(version)?;
    let mut host = MemHost::new(alloc, 1, Vec::new(alloc))?;
    for (name, bytes) in [
        (FileName::Image(id(image.0)), image.1),
        (FileName::Md5(id(digest.0)), digest.1),
    ] {
        if host.count() == 1 {
            host.with_file(DirNo(0), Sub::Current, name, bytes)?;
        }
    }
    if host.count() != 1 {
        return Ok(Err(ReadImage::Failed));
    }
    Ok(read_image(
        alloc,
        &mut host,
        DirNo(0),
        Sub::Current,
        id(asked),
        &version,
    ))
}

// The word of an image that isn't intact, or what else became of it.
fn word_of(read: Result<PlainTree, ReadImage>) -> &'static str {
    match read {
        Ok(tree) => {
            if tree.counters().inode == 16385 {
                "empty"
            } else {
                "another"
            }
        }
        Err(ReadImage::Unsound(why)) => why.word(),
        Err(ReadImage::Failed) => "failed",
        Err(ReadImage::Memory) => "memory",
    }
}

// The word for the image of this id, where the image file has this one.
fn told(
    alloc: Global,
    asked: u8,
    image: u8,
    digest: (u8, &[u8]),
    version: &[u8],
) -> Result<&'static str, Fail> {
    Ok(word_of(read(alloc, asked, (image, IMAGE_0), digest, version)?))
}

// The id that is asked for, that of the image file, the MD5 file, VERSION, and the answer.
static ROWS: [(u8, u8, (u8, &[u8]), &[u8], &str); 11] = [
    (0, 0, (0, DIGEST_0), VERSION, "empty"),
    (0, 1, (1, OF_1), VERSION, "absent"),
    (0, 0, (1, OF_1), VERSION, "digest"),
    (0, 0, (0, OTHER), VERSION, "digest"),
    (0, 0, (0, CAPITALS), VERSION, "digest"),
    (0, 0, (0, NAMELESS), VERSION, "digest"),
    (0, 0, (0, LONGER), VERSION, "digest"),
    (0, 0, (0, VERSION), VERSION, "digest"),
    (1, 1, (1, DIGEST_0), VERSION, "digest"),
    (1, 1, (1, OF_1), VERSION, "named"),
    (0, 0, (0, DIGEST_0), OF_8, "named"),
];

// The table, by reference: a function that named it would be proved with each of its rows.
fn rows() -> &'static [(u8, u8, (u8, &'static [u8]), &'static [u8], &'static str)] {
    &ROWS
}

#[test]
fn an_image_reads_only_where_its_digest_its_id_and_its_cluster_agree(
    rt: HostRuntime,
) -> Result<(), Fail> {
    for (asked, image, (of, digest), version, word) in rows() {
        let told = told(rt.alloc(), *asked, *image, (*of, digest), version)?;
        assert!(rt; told == *word, "{told}");
    }
    Ok(())
}
