// What several directories open to for a start, and why they don't.
use nn_base::{DirNo, FileName, NoMemory, Sub};
use nn_choose::{Picked, pick};
use nn_host::Host;
use nn_memhost::MemHost;
use nn_pick::{OpenFault, Refusal};
use nn_tree::PlainTree;
use std::alloc::Global;
use std::test::Fail;
use tests_kit::texts::{DIGEST_0, DIGEST_5, IMAGE_0, IMAGE_5, VERSION};
use tests_kit::{File, contents, give, give_all};

const OTHER_CLUSTER: &[u8] =
    b"namespaceID=7\nclusterID=c2\ncTime=0\nstorageType=NAME_NODE\nblockpoolID=BP-7\nlayoutVersion=-1001\n";

const OTHER_NAMESPACE: &[u8] =
    b"namespaceID=8\nclusterID=c2\ncTime=0\nstorageType=NAME_NODE\nblockpoolID=BP-7\nlayoutVersion=-1001\n";

const OTHER_POOL: &[u8] =
    b"namespaceID=7\nclusterID=c1\ncTime=0\nstorageType=NAME_NODE\nblockpoolID=BP-8\nlayoutVersion=-1001\n";

const NEWER: &[u8] =
    b"namespaceID=7\nclusterID=c1\ncTime=0\nstorageType=NAME_NODE\nblockpoolID=BP-7\nlayoutVersion=-1002\n";

const HADOOPS: &[u8] =
    b"namespaceID=7\nclusterID=c1\ncTime=0\nstorageType=NAME_NODE\nblockpoolID=BP-7\nlayoutVersion=-66\n";

const UPGRADED: &[u8] =
    b"namespaceID=7\nclusterID=c1\ncTime=1\nstorageType=NAME_NODE\nblockpoolID=BP-7\nlayoutVersion=-1001\n";

// The image of the empty namespace at the id 2^62, and its MD5 file.
const IMAGE_SPENT: &[u8] = b"HDFSIMG1\
\x15\x08\x07\x18\xe8\x07\x28\x80\x80\x80\x80\x04\x30\x80\x80\x80\x80\x80\x80\x80\x80\x40\
\x02\x08\x02\x08\x08\x01\x12\x04hdfs\x0e\x08\x02\x12\x0asupergroup\
\x06\x08\x81\x80\x01\x10\x01\x13\x08\x02\x10\x81\x80\x01\x1a\x00\x2a\x09\x08\x00\x20\x01\x28\x02\x30\xed\x03\
\x46\x08\x01\x10\xe9\x07\x22\x0d\x0a\x07NS_INFO\x10\x16\x18\x08\x22\x12\x0a\x0cSTRING_TABLE\x10\x1b\x18\x1e\
\x22\x0b\x0a\x05INODE\x10\x1b\x18\x39\x22\x0f\x0a\x09INODE_DIR\x10\x00\x18\x54\x00\x00\x00\x47";

const DIGEST_SPENT: &[u8] = b"138df5c1e979851fa01f223742a764f1 *fsimage_4611686018427387904\n";

// The files of `current`, by a letter.
static KINDS: [(u8, &[File]); 16] = [
    // formatted, and at the id 0
    (
        b'0',
        &[
            ("VERSION", &[VERSION]),
            ("fsimage_0", &[IMAGE_0]),
            ("fsimage_0.md5", &[DIGEST_0]),
            ("seen_txid", &[b"0\n"]),
        ],
    ),
    // at the id 5
    (
        b'5',
        &[
            ("VERSION", &[VERSION]),
            ("fsimage_5", &[IMAGE_5]),
            ("fsimage_5.md5", &[DIGEST_5]),
            ("seen_txid", &[b"5\n"]),
        ],
    ),
    // of a later cTime, at the id 0
    (
        b'u',
        &[
            ("VERSION", &[UPGRADED]),
            ("fsimage_0", &[IMAGE_0]),
            ("fsimage_0.md5", &[DIGEST_0]),
            ("seen_txid", &[b"0\n"]),
        ],
    ),
    // its journal went on to the id 7
    (
        b's',
        &[
            ("VERSION", &[VERSION]),
            ("fsimage_0", &[IMAGE_0]),
            ("fsimage_0.md5", &[DIGEST_0]),
            ("seen_txid", &[b"7\n"]),
        ],
    ),
    // its seen_txid is one ahead, as where a segment was begun
    (
        b'b',
        &[
            ("VERSION", &[VERSION]),
            ("fsimage_0", &[IMAGE_0]),
            ("fsimage_0.md5", &[DIGEST_0]),
            ("seen_txid", &[b"1\n"]),
        ],
    ),
    // its seen_txid doesn't read
    (
        b'g',
        &[
            ("VERSION", &[VERSION]),
            ("fsimage_0", &[IMAGE_0]),
            ("fsimage_0.md5", &[DIGEST_0]),
            ("seen_txid", &[b"7 \n"]),
        ],
    ),
    // its image has the digest of another one
    (
        b'd',
        &[
            ("VERSION", &[VERSION]),
            ("fsimage_0", &[IMAGE_0]),
            ("fsimage_0.md5", &[DIGEST_5]),
            ("seen_txid", &[b"0\n"]),
        ],
    ),
    // no image
    (b'n', &[("VERSION", &[VERSION])]),
    // VERSION has a line without a key
    (
        b'v',
        &[
            ("VERSION", &[b"VERSION\n"]),
            ("fsimage_0", &[IMAGE_0]),
            ("fsimage_0.md5", &[DIGEST_0]),
        ],
    ),
    (
        b'c',
        &[
            ("VERSION", &[OTHER_CLUSTER]),
            ("fsimage_0", &[IMAGE_0]),
            ("fsimage_0.md5", &[DIGEST_0]),
        ],
    ),
    (
        b'i',
        &[
            ("VERSION", &[OTHER_NAMESPACE]),
            ("fsimage_0", &[IMAGE_0]),
            ("fsimage_0.md5", &[DIGEST_0]),
        ],
    ),
    (
        b'o',
        &[
            ("VERSION", &[OTHER_POOL]),
            ("fsimage_0", &[IMAGE_0]),
            ("fsimage_0.md5", &[DIGEST_0]),
        ],
    ),
    (
        b'f',
        &[
            ("VERSION", &[NEWER]),
            ("fsimage_0", &[IMAGE_0]),
            ("fsimage_0.md5", &[DIGEST_0]),
        ],
    ),
    (
        b'h',
        &[
            ("VERSION", &[HADOOPS]),
            ("fsimage_0", &[IMAGE_0]),
            ("fsimage_0.md5", &[DIGEST_0]),
        ],
    ),
    // at the last id but those that no start goes on from
    (
        b'x',
        &[
            ("VERSION", &[VERSION]),
            ("fsimage_4611686018427387904", &[IMAGE_SPENT]),
            ("fsimage_4611686018427387904.md5", &[DIGEST_SPENT]),
        ],
    ),
    // a folder that isn't formatted
    (b'e', &[("seen_txid", &[b"9\n"]), ("fsimage_0", &[IMAGE_0])]),
];

// The table, by reference: a caller that named it would be proved with each of its rows.
fn kinds() -> &'static [(u8, &'static [File])] {
    &KINDS
}

// Fills one directory, by a letter; one that stands for none leaves it empty.
fn fill(alloc: Global, host: &mut MemHost, i: DirNo, kind: u8) -> Result<(), NoMemory> {
    match kind {
        b'm' => {
            take_away(host, i);
            Ok(())
        }
        // `previous` alone
        b'p' => give(host, i, Sub::Previous, FileName::Version, VERSION),
        // a rollback that is to be taken back, whose folder has no VERSION
        b'r' => {
            give(host, i, Sub::Previous, FileName::Seen, b"0\n")?;
            give(host, i, Sub::RemovedTmp, FileName::Seen, b"0\n")
        }
        _ => fill_current(alloc, host, i, kind),
    }
}

fn fill_current(alloc: Global, host: &mut MemHost, i: DirNo, kind: u8) -> Result<(), NoMemory> {
    for (letter, files) in kinds() {
        if *letter == kind {
            give_all(alloc, host, i, Sub::Current, files)?;
        }
    }
    Ok(())
}

fn take_away(host: &mut MemHost, i: DirNo) {
    if i.0 < host.count() {
        host.without_root(i);
    }
}

// Three directories that hold this.
fn three(alloc: Global, kinds: &[u8; 3]) -> Result<MemHost, NoMemory> {
    let mut host = MemHost::new(alloc, 3, Vec::new(alloc))?;
    for (i, kind) in (0u8..).zip(kinds) {
        fill(alloc, &mut host, DirNo(i), *kind)?;
    }
    Ok(host)
}

// The last id and the chosen directories.
fn told(picked: Picked<PlainTree>) -> (u64, [bool; 3]) {
    let chosen = [DirNo(0), DirNo(1), DirNo(2)].map(|i| picked.chosen.has(i));
    (picked.last.0, chosen)
}

fn answer(alloc: Global, host: &mut MemHost) -> Result<(u64, [bool; 3]), OpenFault> {
    match pick::<MemHost, PlainTree>(alloc, host) {
        Ok(picked) => Ok(told(picked)),
        Err(fault) => Err(fault),
    }
}

// The answer for three directories that hold this; None where they don't read as before it.
fn kept_answer(
    alloc: Global,
    kinds: &[u8; 3],
) -> Result<Option<Result<(u64, [bool; 3]), OpenFault>>, NoMemory> {
    let mut host = three(alloc, kinds)?;
    let before = contents(alloc, &mut host)?;
    let told = answer(alloc, &mut host);
    let after = contents(alloc, &mut host)?;
    match before.as_slice() == after.as_slice() {
        true => Ok(Some(told)),
        false => Ok(None),
    }
}

// What three directories hold, and the line that they are refused by.
static REFUSALS: [(&[u8; 3], &str); 18] = [
    (b"0mp", "refused missing 1\n"),
    (b"0pm", "refused inconsistent 1 previous-alone\n"),
    (b"v-m", "refused missing 2\n"),
    (b"---", "refused not-formatted\n"),
    (b"-e-", "refused not-formatted\n"),
    (b"cv0", "refused bad-version 1\n"),
    (b"0-r", "refused bad-version 2\n"),
    (b"f-c", "refused mismatch 0 2 clusterID\n"),
    (b"-0o", "refused mismatch 1 2 blockpoolID\n"),
    (b"0oi", "refused mismatch 0 1 blockpoolID\n"),
    // the namespace's number comes before the cluster's name
    (b"0i0", "refused mismatch 0 1 namespaceID\n"),
    (b"hf-", "refused future-layout 1 -1002\n"),
    (b"0hh", "refused foreign-layout 1 -66\n"),
    (b"nhn", "refused foreign-layout 1 -66\n"),
    (b"-nd", "refused no-image 1 absent\n"),
    (b"dn-", "refused no-image 0 digest\n"),
    (b"0s-", "refused gap 7 0\n"),
    (b"sx-", "refused spent 4611686018427387904\n"),
];

// The same of this one.
fn refusals() -> &'static [(&'static [u8; 3], &'static str)] {
    &REFUSALS
}

// Whether three directories that hold this are refused by this line, and read as before.
fn is_refused(alloc: Global, kinds: &[u8; 3], line: &str) -> bool {
    let Ok(Some(told)) = kept_answer(alloc, kinds) else {
        return false;
    };
    let Err(fault) = told else {
        return false;
    };
    match fault {
        OpenFault::Refused(refusal) => is_said(alloc, refusal, line),
        _ => false,
    }
}

fn is_said(alloc: Global, refusal: Refusal, line: &str) -> bool {
    let mut out = Vec::new(alloc);
    refusal.line(alloc, &mut out).is_ok() && out.as_slice() == line.as_bytes()
}

#[test]
fn the_first_refusal_of_the_table_is_answered_and_of_one_line_the_lowest_directory(
    rt: HostRuntime,
) {
    for (kinds, line) in refusals() {
        assert!(rt; is_refused(rt.alloc(), kinds, line), "{line}");
    }
}

// What three directories hold, the last id, and which are chosen.
static CHOICES: [(&[u8; 3], u64, [bool; 3]); 9] = [
    (b"0--", 0, [true, false, false]),
    (b"050", 5, [false, true, false]),
    (b"5-5", 5, [true, false, true]),
    // a cTime comes before an id
    (b"5u5", 0, [false, true, false]),
    // the lowest has no image, and another one has
    (b"n05", 5, [false, false, true]),
    (b"d0n", 0, [false, true, false]),
    // what a seen_txid of an older cTime says doesn't count, nor one that doesn't read, nor one that is one ahead
    (b"su-", 0, [false, true, false]),
    (b"g--", 0, [true, false, false]),
    (b"0be", 0, [true, true, false]),
];

// The same of this one.
fn choices() -> &'static [(&'static [u8; 3], u64, [bool; 3])] {
    &CHOICES
}

#[test]
fn the_directories_of_the_greatest_ctime_whose_records_go_furthest_are_chosen(
    rt: HostRuntime,
) -> Result<(), Fail> {
    let alloc = rt.alloc();
    for (kinds, last, chosen) in choices() {
        let told = kept_answer(alloc, kinds)?;
        assert!(rt; told == Some(Ok((*last, *chosen))), "{last}");
    }
    Ok(())
}
