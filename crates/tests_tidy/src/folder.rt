// A folder with a file for each rule of tidying, made outside the program, and looks at it.
use nn_base::{DirNo, FileName, Sub};
use nn_host::Host;
use nn_memhost::{MemHost, Part};
use nn_small::read_all;
use std::alloc::Global;
use std::test::Fail;

pub const DIR: DirNo = DirNo(0);

pub const VERSION: &[u8] =
    b"namespaceID=7\nclusterID=c1\ncTime=0\nstorageType=NAME_NODE\nblockpoolID=BP-7\nlayoutVersion=-1001\n";

// Segments of the layout -1001 with records of START_LOG_SEGMENT, their checksums by zlib's crc32.
const FROM_2_TO_3: &[u8] = b"\xff\xff\xfc\x17\x00\x00\x00\x00\
\x18\x00\x00\x00\x0c\x00\x00\x00\x00\x00\x00\x00\x02\xe9\x4a\xa1\x0d\
\x18\x00\x00\x00\x0c\x00\x00\x00\x00\x00\x00\x00\x03\x9e\x4d\x91\x9b";

const FROM_3_TO_4: &[u8] = b"\xff\xff\xfc\x17\x00\x00\x00\x00\
\x18\x00\x00\x00\x0c\x00\x00\x00\x00\x00\x00\x00\x03\x9e\x4d\x91\x9b\
\x18\x00\x00\x00\x0c\x00\x00\x00\x00\x00\x00\x00\x04\x00\x29\x04\x38";

pub const FROM_4_TO_5: &[u8] = b"\xff\xff\xfc\x17\x00\x00\x00\x00\
\x18\x00\x00\x00\x0c\x00\x00\x00\x00\x00\x00\x00\x04\x00\x29\x04\x38\
\x18\x00\x00\x00\x0c\x00\x00\x00\x00\x00\x00\x00\x05\x77\x2e\x34\xae";

const FROM_4_TO_6: &[u8] = b"\xff\xff\xfc\x17\x00\x00\x00\x00\
\x18\x00\x00\x00\x0c\x00\x00\x00\x00\x00\x00\x00\x04\x00\x29\x04\x38\
\x18\x00\x00\x00\x0c\x00\x00\x00\x00\x00\x00\x00\x05\x77\x2e\x34\xae\
\x18\x00\x00\x00\x0c\x00\x00\x00\x00\x00\x00\x00\x06\xee\x27\x65\x14";

const FROM_5_TO_6: &[u8] = b"\xff\xff\xfc\x17\x00\x00\x00\x00\
\x18\x00\x00\x00\x0c\x00\x00\x00\x00\x00\x00\x00\x05\x77\x2e\x34\xae\
\x18\x00\x00\x00\x0c\x00\x00\x00\x00\x00\x00\x00\x06\xee\x27\x65\x14";

// What stays beside the image of the id 5.
pub const STAYS: [(&[u8], &[u8]); 10] = [
    (b"VERSION", VERSION),
    (b"seen_txid", b"6\n"),
    (b"fsimage_0000000000000000000", b"older"),
    (b"fsimage_0000000000000000000.md5", b"its digest"),
    (b"fsimage_0000000000000000005", b"newest"),
    (b"fsimage_0000000000000000005.md5", b"its digest"),
    (b"fsimage_0000000000000000007.md5", b"of an image that goes"),
    (
        b"edits_0000000000000000001-0000000000000000003",
        b"not read",
    ),
    (b"edits_0000000000000000002-0000000000000000003", b"taken"),
    (
        b"edits_0000000000000000003-0000000000000000007",
        FROM_3_TO_4,
    ),
];

// What goes.
const GOES: [(&[u8], &[u8]); 11] = [
    (b"VERSION.tmp", b"half"),
    (b"seen_txid.tmp", b"half"),
    (b"fsimage_0000000000000000005.md5.tmp", b"half"),
    (b"fsimage.ckpt_0000000000000000005", b"half"),
    (b"fsimage_0000000000000000007", b"later"),
    (
        b"edits_0000000000000000004-0000000000000000008",
        FROM_4_TO_6,
    ),
    (
        b"edits_0000000000000000006-0000000000000000009",
        b"begins later",
    ),
    (b"edits_inprogress_0000000000000000002", FROM_2_TO_3),
    (b"edits_inprogress_0000000000000000003", b"no record"),
    (b"edits_inprogress_0000000000000000005", FROM_5_TO_6),
    (b"edits_inprogress_0000000000000000006", b""),
];

// A segment in progress, all of which counts, and its last name.
pub const BEFORE: &[u8] = b"edits_inprogress_0000000000000000004";

pub const AFTER: &[u8] = b"edits_0000000000000000004-0000000000000000005";

// A host with all of them, whose calls fail as the list says.
pub fn untidy(alloc: Global, fails: Vec<(u64, Part)>) -> Result<MemHost, Fail> {
    let mut host = MemHost::new(alloc, 1, fails)?;
    for (text, bytes) in STAYS {
        put(&mut host, text, bytes)?;
    }
    for (text, bytes) in GOES {
        put(&mut host, text, bytes)?;
    }
    put(&mut host, BEFORE, FROM_4_TO_5)?;
    Ok(host)
}

fn put(host: &mut MemHost, text: &[u8], bytes: &[u8]) -> Result<(), Fail> {
    let Some(name) = FileName::parse(text) else {
        return Ok(());
    };
    if host.count() == 1 {
        host.with_file(DIR, Sub::Current, name, bytes)?;
    }
    Ok(())
}

// Whether the file of this name has these bytes.
pub fn has(alloc: Global, host: &mut MemHost, text: &[u8], bytes: &[u8]) -> bool {
    if host.count() == 0 {
        return false;
    }
    let Some(name) = FileName::parse(text) else {
        return false;
    };
    match read_all(alloc, host, DIR, Sub::Current, name, 65_536) {
        Ok(found) => found.as_slice() == bytes,
        Err(_) => false,
    }
}

// Whether all that stays is there as it was, and the segment in progress under one of its names.
pub fn keeps(alloc: Global, host: &mut MemHost) -> bool {
    for (text, bytes) in STAYS {
        if !has(alloc, host, text, bytes) {
            return false;
        }
    }
    has(alloc, host, BEFORE, FROM_4_TO_5) || has(alloc, host, AFTER, FROM_4_TO_5)
}

// How many files the folder has.
pub fn count(alloc: Global, host: &mut MemHost) -> usize {
    let mut names = Vec::new(alloc);
    if host.count() > 0 {
        let _ = host.list(DIR, Sub::Current, &mut names);
    }
    names.len()
}
