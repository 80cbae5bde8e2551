// Folders as an operator may leave them: each has its exact answer, and nothing is changed.
use nn_base::{DirNo, FileName, NoMemory, Sub};
use nn_choose::pick;
use nn_marks::{Key, VersionFault};
use nn_memhost::MemHost;
use nn_pick::{OpenFault, Refusal};
use nn_tree::PlainTree;
use std::alloc::Global;
use std::test::Fail;
use tests_kit::texts::{DIGEST_0, IMAGE_0, VERSION};
use tests_kit::{contents, file, give};

const DIR: DirNo = DirNo(0);

// What one directory is refused for, whose `current` holds this VERSION, this image of the id 0 and this MD5 file. None
// where it isn't, or something was changed.
fn refused(
    alloc: Global,
    version: &[u8],
    image: &[u8],
    digest: &[u8],
) -> Result<Option<Refusal>, NoMemory> {
    let mut host = MemHost::new(alloc, 1, Vec::new(alloc))?;
    give(&mut host, DIR, Sub::Current, FileName::Version, version)?;
    give(&mut host, DIR, Sub::Current, file("fsimage_0"), image)?;
    give(&mut host, DIR, Sub::Current, file("fsimage_0.md5"), digest)?;
    let before = contents(alloc, &mut host)?;
    let told = refusal_of(alloc, &mut host);
    let after = contents(alloc, &mut host)?;
    match before.as_slice() == after.as_slice() {
        true => Ok(told),
        false => Ok(None),
    }
}

// What the directory is refused for.
fn refusal_of(alloc: Global, host: &mut MemHost) -> Option<Refusal> {
    let Err(fault) = pick::<MemHost, PlainTree>(alloc, host) else {
        return None;
    };
    match fault {
        OpenFault::Refused(refusal) => Some(refusal),
        _ => None,
    }
}

// Texts of VERSION and their first fault.
static VERSIONS: [(&str, VersionFault); 15] = [
    ("", VersionFault::Missing(Key::NamespaceId)),
    ("namespaceID=7\n", VersionFault::Missing(Key::ClusterId)),
    (
        "namespaceID=7\nclusterID=c1\n",
        VersionFault::Missing(Key::CTime),
    ),
    (
        "namespaceID=7\nclusterID=c1\ncTime=0\n",
        VersionFault::Missing(Key::StorageType),
    ),
    (
        "namespaceID=7\nclusterID=c1\ncTime=0\nstorageType=NAME_NODE\n",
        VersionFault::Missing(Key::BlockpoolId),
    ),
    (
        "namespaceID=7\nclusterID=c1\ncTime=0\nstorageType=NAME_NODE\nblockpoolID=BP-7\n",
        VersionFault::Missing(Key::LayoutVersion),
    ),
    (
        "namespaceID=7\nclusterID=c1\ncTime=0\nnoth\u{1}ing\n",
        VersionFault::NotText,
    ),
    (
        "#a comment\n\nnamespaceID=7\nclusterID\n",
        VersionFault::BadLine(4),
    ),
    (
        "namespaceID=7\nclusterID=c1\nnamespaceID=7\n",
        VersionFault::Twice(Key::NamespaceId),
    ),
    (
        "namespaceID=2147483648\n",
        VersionFault::BadNumber(Key::NamespaceId),
    ),
    (
        "namespaceID=7\nclusterID=\n",
        VersionFault::BadWord(Key::ClusterId),
    ),
    (
        "namespaceID=7\nclusterID=c1\ncTime=-1\n",
        VersionFault::BadNumber(Key::CTime),
    ),
    (
        "namespaceID=7\nclusterID=c1\ncTime=0\nstorageType=DATA_NODE\n",
        VersionFault::BadWord(Key::StorageType),
    ),
    (
        "namespaceID=7\nclusterID=c1\ncTime=0\nstorageType=NAME_NODE\nblockpoolID=B P\n",
        VersionFault::BadWord(Key::BlockpoolId),
    ),
    (
        "namespaceID=7\nclusterID=c1\ncTime=0\nstorageType=NAME_NODE\nblockpoolID=BP-7\nlayoutVersion=-2147483649\n",
        VersionFault::BadNumber(Key::LayoutVersion),
    ),
];

// The table, by reference: a caller that named it would be proved with each of its rows.
fn versions() -> &'static [(&'static str, VersionFault)] {
    &VERSIONS
}

#[test]
fn a_directory_is_refused_for_the_first_fault_of_its_version(rt: HostRuntime) -> Result<(), Fail> {
    let alloc = rt.alloc();
    for (text, fault) in versions() {
        let told = refused(alloc, text.as_bytes(), IMAGE_0, DIGEST_0)?;
        assert!(rt; told == Some(Refusal::BadVersion(DIR, *fault)), "{text}");
    }
    let long = refused(alloc, &[b'\n'; 65_537], IMAGE_0, DIGEST_0)?;
    assert!(rt; long == Some(Refusal::BadVersion(DIR, VersionFault::TooLong)));
    Ok(())
}

// The empty namespace, but that its summary names a codec; and its MD5 file.
const PACKED: &[u8] = b"HDFSIMG1\
\x0d\x08\x07\x18\xe8\x07\x28\x80\x80\x80\x80\x04\x30\x00\
\x02\x08\x02\x08\x08\x01\x12\x04hdfs\x0e\x08\x02\x12\x0asupergroup\
\x06\x08\x81\x80\x01\x10\x01\x13\x08\x02\x10\x81\x80\x01\x1a\x00\x2a\x09\x08\x00\x20\x01\x28\x02\x30\xed\x03\
\x4c\x08\x01\x10\xe9\x07\x1a\x04gzip\x22\x0d\x0a\x07NS_INFO\x10\x0e\x18\x08\x22\x12\x0a\x0cSTRING_TABLE\x10\x1b\x18\x16\
\x22\x0b\x0a\x05INODE\x10\x1b\x18\x31\x22\x0f\x0a\x09INODE_DIR\x10\x00\x18\x4c\x00\x00\x00\x4d";

const PACKED_DIGEST: &[u8] = b"7a0ff3d7b424b5f5dd2b7ba47f72ee9a *fsimage_0000000000000000000\n";

// A byte of the image of the empty namespace that is changed, the MD5 file of the changed image, and the word for it.
static CHANGES: [(usize, u8, &[u8], &str); 9] = [
    (
        0,
        b'h',
        b"d961cb15ce28dfc5777999696aa6f390 *fsimage_0000000000000000000\n",
        "magic",
    ),
    (
        150,
        0x48,
        b"5182339eaeb738ee90e31c5978335ce0 *fsimage_0000000000000000000\n",
        "short",
    ),
    (
        9,
        0x10,
        b"597bdb7b39c4a570446e3608101d0c9c *fsimage_0000000000000000000\n",
        "field",
    ),
    (
        80,
        0xea,
        b"86255034c1059c4b1878c604e16e1c4e *fsimage_0000000000000000000\n",
        "layout",
    ),
    (
        86,
        b'X',
        b"208922e68885a106e0e92f34750d17a1 *fsimage_0000000000000000000\n",
        "section",
    ),
    (
        55,
        2,
        b"c75e8e55422c407ebfec4f78a0b0d8da *fsimage_0000000000000000000\n",
        "tree",
    ),
    (
        10,
        8,
        b"4ce263c925c87fb570c5ab3ebe49b73c *fsimage_0000000000000000000\n",
        "named",
    ),
    // The MD5 file of the image before the change, and one that names another image.
    (10, 8, DIGEST_0, "digest"),
    (
        10,
        7,
        b"f3ba8c0faeee0795b7ba148b670dfc18 *fsimage_0000000000000000005\n",
        "digest",
    ),
];

// The same of this one.
fn changes() -> &'static [(usize, u8, &'static [u8], &'static str)] {
    &CHANGES
}

// The word of the refusal, where it is for the image.
fn word_of(refusal: Option<Refusal>) -> &'static str {
    match refusal {
        Some(Refusal::NoImage(_, why)) => why.word(),
        _ => "another",
    }
}

// The word for the image of the empty namespace with this byte at this place, and this MD5 file.
fn word_with(
    alloc: Global,
    place: usize,
    value: u8,
    digest: &[u8],
) -> Result<&'static str, NoMemory> {
    let mut image = Vec::from_slice(alloc, IMAGE_0)?;
    if let Some(byte) = image.get_mut(place) {
        *byte = value;
    }
    Ok(word_of(refused(alloc, VERSION, &image, digest)?))
}

#[test]
fn a_directory_without_an_intact_image_is_refused_by_the_word_of_its_greatest(
    rt: HostRuntime,
) -> Result<(), Fail> {
    let alloc = rt.alloc();
    for (place, value, digest, word) in changes() {
        let told = word_with(alloc, *place, *value, digest)?;
        assert!(rt; told == *word, "{told} {word}");
    }
    let told = word_of(refused(alloc, VERSION, PACKED, PACKED_DIGEST)?);
    assert!(rt; told == "codec", "{told}");
    Ok(())
}
