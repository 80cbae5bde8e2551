// Directories that lag behind and are brought up.
ghost use Rattle.std.specs.Prelude.{◌<◌};
ghost use Rattle.nn_host.specs.Moments.{disk_at};
ghost use Rattle.nn_state.specs.declared.state.StorageState.TheVariants as state;
ghost use Rattle.nn_state.specs.Typed.{IsIn, FitsSettled, dir_in};

use nn_base::{DirNo, NoMemory, Sub, Txid};
use nn_host::Host;
use nn_load::load_dir;
use nn_marks::version_read;
use nn_memhost::{MemHost, Part};
use nn_remake::{MakeFault, top_up};
use nn_state::{Found, Settled, StorageState, look, seat, table};
use nn_tree::{PlainTree, Tree};
use std::alloc::Global;
use tests_kit::texts::{
    DIGEST_0, DIGEST_5, HEADER, IMAGE_0, IMAGE_5, MARK_1, MARK_3, MARK_4, MKDIR_2, VERSION,
};
use tests_kit::{
    File, file, first_bad_failure, first_bad_stop, found_at, give_all, has, has_sub, lists,
};

const DIR: DirNo = DirNo(0);

// An image of 0, the records 1 to 4 in two segments, and what a later image and a write that was stopped left.
static BEHIND: [File; 9] = [
    ("VERSION", &[VERSION]),
    ("fsimage_0", &[IMAGE_0]),
    ("fsimage_0.md5", &[DIGEST_0]),
    ("edits_1-2", &[HEADER, MARK_1, MKDIR_2]),
    ("edits_inprogress_3", &[HEADER, MARK_3, MARK_4]),
    ("fsimage_9", &[b"not an image"]),
    ("fsimage_9.md5", &[DIGEST_5]),
    ("seen_txid", &[b"3\n"]),
    ("seen_txid.tmp", &[b""]),
];

fn behind() -> &'static [File] {
    &BEHIND
}

// What the directory is brought up to: the empty namespace at the id 5. The MD5 file of a later image stays alone.
static UP: [&str; 8] = [
    "VERSION",
    "fsimage_0",
    "fsimage_0.md5",
    "fsimage_5",
    "fsimage_5.md5",
    "fsimage_9.md5",
    "seen_txid",
    "seen_txid.tmp",
];

fn up() -> &'static [&'static str] {
    &UP
}

// The folders that hold such files, whether what is saved is to stay, and whether it is there afterwards.
static ROWS: [(&[Sub], bool, bool); 4] = [
    (&[Sub::Current], false, false),
    (&[Sub::Current], true, false),
    (&[Sub::Current, Sub::Previous], false, false),
    (&[Sub::Current, Sub::Previous], true, true),
];

// The table, by reference: a caller that named it would be proved with each of its rows.
fn rows() -> &'static [(&'static [Sub], bool, bool)] {
    &ROWS
}

fn holding(alloc: Global, subs: &[Sub], fails: Vec<(u64, Part)>) -> Result<MemHost, NoMemory> {
    let mut host = MemHost::new(alloc, 1, fails)?;
    for sub in subs {
        give_all(alloc, &mut host, DIR, *sub, behind())?;
    }
    Ok(host)
}

// Brings the directory up, or says why it isn't; None where nothing serves there.
fn raised<H: Host>(alloc: Global, host: &mut H, saved: bool) -> Option<Result<(), MakeFault>> {
    if host.count() == 0 {
        return None;
    }
    match found_at(host, DIR)? {
        Found::Normal(it) => {
            let at = it.settled(host).ok()?;
            raised_from(alloc, host, at, saved)
        }
        _ => None,
    }
}

// The same of a directory that is known to serve.
#[tactic(auto, using(nn_tree::proofs::EmptyLemmas::imaged_empty))]
fn raised_from<H: Host>(
    alloc: Global,
    host: &mut H,
    at: Settled,
    saved: bool,
) -> Option<Result<(), MakeFault>>
    requires below { (dir_in at).0 < (H.state host.old).count }
    requires fits { H.told → FitsSettled at (disk_at (H.state host.old) (dir_in at).0) }
    requires normal { H.told → IsIn state.Normal (disk_at (H.state host.old) (dir_in at).0) }
{
    let Ok(tree) = PlainTree::new(alloc) else {
        return None;
    };
    let version = version_read(VERSION).ok()?;
    match top_up(alloc, host, at, &tree, Txid(5), &version, saved) {
        Ok(_) => Some(Ok(())),
        Err(fault) => Some(Err(fault)),
    }
}

// The last id that the directory stands at, and the last inode given out there; None where nothing serves or it doesn't load.
fn stands(alloc: Global, host: &mut MemHost) -> Option<(u64, u64)> {
    let sub = serving(host)?;
    let version = version_read(VERSION).ok()?;
    if host.count() == 0 {
        return None;
    }
    let loaded = load_dir::<MemHost, PlainTree>(alloc, host, DIR, sub, &version).ok()?;
    Some((loaded.id.0, loaded.tree.counters().inode))
}

fn serving(host: &mut MemHost) -> Option<Sub> {
    if host.count() == 0 {
        return None;
    }
    let seven = look(host, DIR).ok()?;
    match table(seven).ok()? {
        StorageState::Normal => seat(seven).0,
        StorageState::CompleteFinalize => seat(seven).0,
        _ => None,
    }
}

// It is behind, as it was or with fewer records, or it is brought up.
fn is_behind_or_up(stands: Option<(u64, u64)>) -> bool {
    match stands {
        Some((0, 16385)) => true,
        Some((2 | 4, 16386)) => true,
        Some((5, 16385)) => true,
        _ => false,
    }
}

// A directory with these folders that was brought up, or None where that failed.
fn raised_whole(alloc: Global, subs: &[Sub], saved: bool) -> Option<MemHost> {
    let mut host = holding(alloc, subs, Vec::new(alloc)).ok()?;
    match raised(alloc, &mut host, saved) {
        Some(Ok(())) => Some(host),
        _ => None,
    }
}

// Whether the directory holds what it is brought up to, and a saved state just where it stays.
fn is_up(alloc: Global, host: &mut MemHost, stays: bool) -> bool {
    lists(alloc, host, DIR, Sub::Current, up())
        && has(alloc, host, DIR, Sub::Current, file("fsimage_5"), IMAGE_5)
        && has(
            alloc,
            host,
            DIR,
            Sub::Current,
            file("fsimage_5.md5"),
            DIGEST_5,
        )
        && stands(alloc, host) == Some((5, 16385))
        && has_sub(host, DIR, Sub::Previous) == stays
        && !has_sub(host, DIR, Sub::FinalizedTmp)
}

// Whether the failed call is told, and is the last.
fn is_told(alloc: Global, subs: &[Sub], saved: bool, k: u64, part: Part) -> bool {
    let Ok(fails) = Vec::from_array(alloc, [(k, part)]) else {
        return false;
    };
    let Ok(mut host) = holding(alloc, subs, fails) else {
        return false;
    };
    raised(alloc, &mut host, saved) == Some(Err(MakeFault::Failed))
        && host.calls() == k.saturating_add(1)
        && is_behind_or_up(stands(alloc, &mut host))
}

// Whether the directory is brought up.
fn is_raised(alloc: Global, subs: &[Sub], saved: bool, stays: bool) -> bool {
    match raised_whole(alloc, subs, saved) {
        Some(mut host) => is_up(alloc, &mut host, stays),
        None => false,
    }
}

// Whether a stop inside any call leaves it behind or brought up.
fn is_kept_at_stops(alloc: Global, subs: &[Sub], saved: bool) -> bool {
    match raised_whole(alloc, subs, saved) {
        Some(host) => {
            first_bad_stop(&host, |left| is_behind_or_up(stands(alloc, left))).is_none()
        }
        None => false,
    }
}

// Whether each failed call is told. Eight calls look at the directory, before it is known that it serves.
fn is_kept_at_failures(alloc: Global, subs: &[Sub], saved: bool) -> bool {
    let calls = match raised_whole(alloc, subs, saved) {
        Some(host) => host.calls(),
        None => return false,
    };
    first_bad_failure(8, calls, |k, part| is_told(alloc, subs, saved, k, part)).is_none()
}

#[test]
fn a_directory_that_is_brought_up_holds_the_image_and_no_segment(rt: HostRuntime) {
    for (subs, saved, stays) in rows() {
        assert!(rt; is_raised(rt.alloc(), subs, *saved, *stays), "{subs:?}");
    }
}

#[test]
fn a_stop_inside_any_call_leaves_a_directory_behind_or_brought_up(rt: HostRuntime) {
    for (subs, saved, _) in rows() {
        assert!(rt; is_kept_at_stops(rt.alloc(), subs, *saved), "{subs:?}");
    }
}

#[test]
fn a_call_that_fails_is_told_and_leaves_a_directory_behind_or_brought_up(rt: HostRuntime) {
    for (subs, saved, _) in rows() {
        assert!(rt; is_kept_at_failures(rt.alloc(), subs, *saved), "{subs:?}");
    }
}
