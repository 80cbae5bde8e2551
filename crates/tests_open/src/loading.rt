// Folders as they are loaded: the newest intact image, and the records that are replayed over it.
use nn_base::{DirNo, NoMemory, Sub};
use nn_host::Host;
use nn_image::Loaded;
use nn_load::{ChainFault, load_dir};
use nn_marks::version_read;
use nn_memhost::{MemHost, Part};
use nn_tree::{PlainTree, Tree};
use std::alloc::Global;
use std::test::Fail;
use tests_kit::texts::{
    DIGEST_0, DIGEST_5, HEADER, IMAGE_0, IMAGE_5, MARK_1, MARK_2, MARK_3, MARK_4, MARK_5, MARK_6,
    MKDIR_2, VERSION,
};
use tests_kit::{File, contents, give_all};

const DIR: DirNo = DirNo(0);

// The header of a segment of the layout -1002.
const OTHER_HEADER: &[u8] = b"\xff\xff\xfc\x16\x00\x00\x00\x00";

// `mkdir /a` of the id 2, whose last byte is missing.
const CUT_OFF: &[u8] =
    b"\x03\x00\x00\x00\x32\x00\x00\x00\x00\x00\x00\x00\x02\x00\x00\x00\x00\x00\x00\x40\x02\x00\x02\x2f\x61\
\x00\x00\x00\x00\x00\x00\x00\x00\x04\x68\x64\x66\x73\x0a\x73\x75\x70\x65\x72\x67\x72\x6f\x75\x70\x01\xed\xd1\x2c\x87";

// A deletion of `/a` of the id 2, which doesn't fit where there is no `/a`.
const DELETE_2: &[u8] =
    b"\x02\x00\x00\x00\x18\x00\x00\x00\x00\x00\x00\x00\x02\x00\x02\x2f\x61\x00\x00\x00\x00\x00\x00\x00\x00\xda\xc1\xf2\x78";

const ZEROS: &[u8] = &[0; 40];

// The image of the id 0 with its MD5 file.
static INTACT: [File; 2] = [("fsimage_0", &[IMAGE_0]), ("fsimage_0.md5", &[DIGEST_0])];

fn intact() -> &'static [File] {
    &INTACT
}

// A directory whose `current` has these files, and whose calls fail as the list says.
fn holding(
    alloc: Global,
    fails: Vec<(u64, Part)>,
    files: &[File],
    further: &[File],
) -> Result<MemHost, NoMemory> {
    let mut host = MemHost::new(alloc, 1, fails)?;
    give_all(alloc, &mut host, DIR, Sub::Current, files)?;
    give_all(alloc, &mut host, DIR, Sub::Current, further)?;
    Ok(host)
}

// What it loads as.
fn loaded(alloc: Global, host: &mut MemHost) -> (u64, u64, &'static str) {
    match version_read(VERSION) {
        Ok(version) if host.count() > 0 => {
            told(load_dir(alloc, host, DIR, Sub::Current, &version))
        }
        _ => (0, 0, "no directory"),
    }
}

// What a folder of these files loads as, where it reads as before it.
fn load(
    alloc: Global,
    files: &[File],
    further: &[File],
) -> Result<(u64, u64, &'static str), NoMemory> {
    let mut host = holding(alloc, Vec::new(alloc), files, further)?;
    let before = contents(alloc, &mut host)?;
    let found = loaded(alloc, &mut host);
    let after = contents(alloc, &mut host)?;
    match before.as_slice() == after.as_slice() {
        true => Ok(found),
        false => Ok((0, 0, "changed")),
    }
}

// What it loads as where one call fails.
fn load_failing(alloc: Global, k: u64) -> Result<(u64, u64, &'static str), NoMemory> {
    let fails = Vec::from_array(alloc, [(k, Part::Nothing)])?;
    let mut host = holding(alloc, fails, intact(), one_segment())?;
    Ok(loaded(alloc, &mut host))
}

// The last id, and the last inode that was given out; or the word of the refusal.
fn told(loaded: Result<Loaded<PlainTree>, ChainFault>) -> (u64, u64, &'static str) {
    match loaded {
        Ok(it) => (it.id.0, it.tree.counters().inode, "loaded"),
        Err(ChainFault::NoImage(why)) => (0, 0, why.word()),
        Err(ChainFault::Failed) => (0, 0, "failed"),
        Err(ChainFault::Memory) => (0, 0, "memory"),
    }
}

// The segments beside the image of 0; the last id, and the last inode that was given out.
static SEGMENTS: [(&[File], u64, u64); 17] = [
    (&[], 0, 16385),
    (
        &[("edits_1-3", &[HEADER, MARK_1, MKDIR_2, MARK_3])],
        3,
        16386,
    ),
    // What stands behind the records, and behind the last id that the name says, is never read.
    (
        &[("edits_1-3", &[HEADER, MARK_1, MARK_2, MARK_3, ZEROS])],
        3,
        16385,
    ),
    (
        &[("edits_1-3", &[HEADER, MARK_1, MARK_2, MARK_3, b"garbage"])],
        3,
        16385,
    ),
    (&[("edits_1-1", &[HEADER, MARK_1, MKDIR_2])], 1, 16385),
    // A record that is cut off or is another ends the run; so does another layout.
    (&[("edits_1-3", &[HEADER, MARK_1, CUT_OFF])], 1, 16385),
    (&[("edits_1-3", &[HEADER, MARK_1, MARK_3])], 1, 16385),
    (
        &[("edits_1-3", &[OTHER_HEADER, MARK_1, MARK_2, MARK_3])],
        0,
        16385,
    ),
    (&[("edits_4-6", &[HEADER, MARK_1, MARK_2])], 0, 16385),
    // A record that doesn't fit ends the chain.
    (
        &[("edits_1-3", &[HEADER, MARK_1, DELETE_2, MARK_3])],
        1,
        16385,
    ),
    // Gaps and overlaps.
    (
        &[
            ("edits_1-3", &[HEADER, MARK_1, MARK_2, MARK_3]),
            ("edits_5-6", &[HEADER, MARK_5, MARK_6]),
        ],
        3,
        16385,
    ),
    (
        &[
            ("edits_1-3", &[HEADER, MARK_1, MKDIR_2, MARK_3]),
            ("edits_2-5", &[HEADER, MARK_2, MARK_3, MARK_4, MARK_5]),
        ],
        5,
        16386,
    ),
    (
        &[
            ("edits_1-2", &[HEADER, MARK_1]),
            ("edits_2-5", &[HEADER, MKDIR_2, MARK_3]),
        ],
        3,
        16386,
    ),
    (
        &[
            ("edits_1-2", &[HEADER, MARK_1, MARK_2]),
            ("edits_inprogress_3", &[HEADER, MARK_3, MARK_4]),
        ],
        4,
        16385,
    ),
    (&[("edits_inprogress_3", &[HEADER, MARK_3])], 0, 16385),
    // A finalized segment comes before one in progress, also where that begins earlier and goes on behind it.
    (
        &[
            ("edits_inprogress_1", &[HEADER, MARK_1, MKDIR_2, MARK_3]),
            ("edits_2-2", &[HEADER, MARK_2]),
        ],
        3,
        16385,
    ),
    (
        &[
            ("edits_inprogress_1", &[HEADER, MARK_1, MARK_2]),
            ("edits_1-3", &[HEADER, MARK_1, MKDIR_2]),
        ],
        2,
        16386,
    ),
];

// The table, by reference: a caller that named it would be proved with each of its rows.
fn segments() -> &'static [(&'static [File], u64, u64)] {
    &SEGMENTS
}

#[test]
fn records_are_replayed_up_to_the_first_that_is_missing_or_does_not_fit(
    rt: HostRuntime,
) -> Result<(), Fail> {
    let alloc = rt.alloc();
    for (files, last, inode) in segments() {
        let found = load(alloc, intact(), files)?;
        assert!(rt; found == (*last, *inode, "loaded"), "{found:?}");
    }
    Ok(())
}

// The files; what they load as beside an intact image of 0, and what is told of them alone.
static IMAGES: [(&[File], (u64, u64, &str), &str); 6] = [
    (&[], (0, 16385, "loaded"), "absent"),
    (
        &[("fsimage_5", &[IMAGE_5]), ("fsimage_5.md5", &[DIGEST_5])],
        (5, 16385, "loaded"),
        "loaded",
    ),
    (&[("fsimage_5", &[IMAGE_5])], (0, 16385, "loaded"), "digest"),
    (
        &[("fsimage_5", &[IMAGE_0]), ("fsimage_5.md5", &[DIGEST_5])],
        (0, 16385, "loaded"),
        "digest",
    ),
    (
        &[("fsimage_5", &[IMAGE_5]), ("fsimage_5.md5", &[DIGEST_0])],
        (0, 16385, "loaded"),
        "digest",
    ),
    (
        &[("fsimage_5.md5", &[DIGEST_5])],
        (0, 16385, "loaded"),
        "absent",
    ),
];

// The same of this one.
fn images() -> &'static [(&'static [File], (u64, u64, &'static str), &'static str)] {
    &IMAGES
}

#[test]
fn the_newest_intact_image_is_loaded_and_the_last_one_tells_why_none_is(
    rt: HostRuntime,
) -> Result<(), Fail> {
    let alloc = rt.alloc();
    for (files, with_0, alone) in images() {
        let found = load(alloc, files, &[])?;
        assert!(rt; found.2 == *alone, "{found:?}");
        let found = load(alloc, files, intact())?;
        assert!(rt; found == *with_0, "{found:?}");
    }
    Ok(())
}

static ONE_SEGMENT: [File; 1] = [("edits_1-2", &[HEADER, MARK_1, MARK_2])];

fn one_segment() -> &'static [File] {
    &ONE_SEGMENT
}

#[test]
fn each_call_that_fails_is_told_and_nothing_else_is(rt: HostRuntime) -> Result<(), Fail> {
    let alloc = rt.alloc();
    let mut failed: u64 = 0;
    for k in 0..32 {
        let found = load_failing(alloc, k)?;
        if found == (0, 0, "failed") {
            failed = failed.saturating_add(1);
        } else {
            assert!(rt; found == (2, 16385, "loaded"), "{found:?}");
        }
    }
    // The listing, the image's presence and size, its MD5 file, its presence, size and bytes again, and those of the segment.
    assert!(rt; failed == 10, "{failed}");
    Ok(())
}
