// What directories hold before a start, and what they open to.
ghost use Rattle.std.specs.Prelude.{◌≤◌};

use nn_base::{DirNo, NoMemory, Sub};
use nn_choose::pick;
use nn_memhost::{MemHost, Part};
use nn_tree::{PlainTree, Tree};
use std::alloc::Global;
use tests_kit::texts::{
    DIGEST_0, DIGEST_5, HEADER, IMAGE_0, IMAGE_5, MARK_1, MARK_2, MARK_3, MKDIR_2, VERSION,
};
use tests_kit::{File, give_all};

// VERSION after an upgrade.
const UPGRADED: &[u8] =
    b"namespaceID=7\nclusterID=c1\ncTime=1\nstorageType=NAME_NODE\nblockpoolID=BP-7\nlayoutVersion=-1001\n";

// The records 1 to 3 over the image of 0, the last segment in progress and torn.
pub(crate) const AHEAD: [File; 6] = [
    ("VERSION", &[VERSION]),
    ("edits_1-2", &[HEADER, MARK_1, MKDIR_2]),
    ("edits_inprogress_3", &[HEADER, MARK_3, b"\x03\x00\x00"]),
    ("fsimage_0", &[IMAGE_0]),
    ("fsimage_0.md5", &[DIGEST_0]),
    ("seen_txid", &[b"3\n"]),
];

// The records 1 and 2 alone.
pub(crate) const BEHIND: [File; 5] = [
    ("VERSION", &[VERSION]),
    ("edits_inprogress_1", &[HEADER, MARK_1, MKDIR_2]),
    ("fsimage_0", &[IMAGE_0]),
    ("fsimage_0.md5", &[DIGEST_0]),
    ("seen_txid", &[b"1\n"]),
];

// At the id 5, of the cTime before an upgrade.
pub(crate) const OLDER: [File; 4] = [
    ("VERSION", &[VERSION]),
    ("fsimage_5", &[IMAGE_5]),
    ("fsimage_5.md5", &[DIGEST_5]),
    ("seen_txid", &[b"5\n"]),
];

// At the id 1 after an upgrade.
pub(crate) const NEWER: [File; 5] = [
    ("VERSION", &[UPGRADED]),
    ("edits_inprogress_1", &[HEADER, MARK_1]),
    ("fsimage_0", &[IMAGE_0]),
    ("fsimage_0.md5", &[DIGEST_0]),
    ("seen_txid", &[b"1\n"]),
];

// A folder that isn't formatted.
pub(crate) const SCRAPS: [File; 2] = [
    ("fsimage_0", &[IMAGE_0]),
    ("edits_1-1", &[HEADER, MARK_1, MARK_2]),
];

// A folder of a directory, and its files.
pub(crate) type Given = (u8, Sub, &'static [File]);

// Directories that hold this, whose calls fail as the list says.
pub(crate) fn give_dirs(
    alloc: Global,
    count: u8,
    given: &[Given],
    fails: Vec<(u64, Part)>,
) -> Result<MemHost, NoMemory>
    requires { count ≤ 8 }
{
    let mut host = MemHost::new(alloc, count, fails)?;
    for (i, sub, files) in given {
        give_all(alloc, &mut host, DirNo(*i), *sub, files)?;
    }
    Ok(host)
}

// The last id and the last inode given out there, to which the directories open.
pub(crate) fn opens(alloc: Global, host: &mut MemHost) -> Option<(u64, u64)> {
    let picked = pick::<MemHost, PlainTree>(alloc, host).ok()?;
    Some((picked.last.0, picked.tree.counters().inode))
}
