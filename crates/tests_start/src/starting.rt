// Three directories over which a journal is begun: one that isn't formatted, one that is ahead, and one behind it.
use crate::given::{AHEAD, BEHIND, Given, SCRAPS, give_dirs, opens};
use nn_base::{DirNo, NoMemory, Sub};
use nn_begin::start;
use nn_host::Host;
use nn_memhost::{Choice, Keep, MemHost, Part};
use nn_pick::OpenFault;
use nn_tree::PlainTree;
use std::alloc::Global;
use tests_kit::{file, first_bad_failure, has, lists};

const THREE: [Given; 3] = [
    (0, Sub::Current, &SCRAPS),
    (1, Sub::Current, &AHEAD),
    (2, Sub::Current, &BEHIND),
];

// The segment of id 4, with its mark alone.
const SEGMENT: &[u8] = b"\xff\xff\xfc\x17\x00\x00\x00\x00\
\x18\x00\x00\x00\x0c\x00\x00\x00\x00\x00\x00\x00\x04\x00\x29\x04\x38";

// The names in each `current` once it has started: it was made; it was chosen; it was topped up.
static STARTED: [&[&str]; 3] = [
    &[
        "VERSION",
        "edits_inprogress_4",
        "fsimage_3",
        "fsimage_3.md5",
        "seen_txid",
    ],
    &[
        "VERSION",
        "edits_1-2",
        "edits_3-3",
        "edits_inprogress_4",
        "fsimage_0",
        "fsimage_0.md5",
        "fsimage_3",
        "fsimage_3.md5",
        "seen_txid",
    ],
    &[
        "VERSION",
        "edits_inprogress_4",
        "fsimage_0",
        "fsimage_0.md5",
        "fsimage_3",
        "fsimage_3.md5",
        "seen_txid",
    ],
];

fn started_names() -> &'static [&'static [&'static str]] {
    &STARTED
}

fn three(alloc: Global, fails: Vec<(u64, Part)>) -> Result<MemHost, NoMemory> {
    give_dirs(alloc, 3, &THREE, fails)
}

// Starts over them: the last id, or why not.
fn started(alloc: Global, host: &mut MemHost) -> Result<u64, OpenFault> {
    match start::<MemHost, PlainTree>(alloc, host) {
        Ok(it) => Ok(it.last.0),
        Err(fault) => Err(fault),
    }
}

// The three over which a journal was begun, or None where that failed.
fn all_started(alloc: Global) -> Option<MemHost> {
    let mut host = three(alloc, Vec::new(alloc)).ok()?;
    match started(alloc, &mut host) {
        Ok(3) => Some(host),
        _ => None,
    }
}

// The last inode given out, as they opened before anything was done.
fn inode_before(alloc: Global) -> Option<u64> {
    let mut host = three(alloc, Vec::new(alloc)).ok()?;
    Some(opens(alloc, &mut host)?.1)
}

// Whether the directory has just these files, the first id of the segment and its mark among them.
fn is_started(alloc: Global, host: &mut MemHost, i: u8, names: &[&'static str]) -> bool {
    lists(alloc, host, DirNo(i), Sub::Current, names)
        && has(
            alloc,
            host,
            DirNo(i),
            Sub::Current,
            file("seen_txid"),
            b"4\n",
        )
        && has(
            alloc,
            host,
            DirNo(i),
            Sub::Current,
            file("edits_inprogress_4"),
            SEGMENT,
        )
}

// Whether the directories open to the namespace with this inode, one without the first of these, and one without both.
fn each_choice_opens(alloc: Global, host: &mut MemHost, inode: u64, without: &[u8]) -> bool {
    if !opens_to(alloc, host, inode) {
        return false;
    }
    for i in without {
        if *i >= host.count() || host.remove_sub(DirNo(*i), Sub::Current).is_err() {
            return false;
        }
        if !opens_to(alloc, host, inode) {
            return false;
        }
    }
    true
}

fn opens_to(alloc: Global, host: &mut MemHost, inode: u64) -> bool {
    match opens(alloc, host) {
        Some((_, there)) => there == inode,
        None => false,
    }
}

// Whether whatever a stop leaves, with unsynced bytes torn, opens by each choice of the chosen directory with others.
fn is_kept_at_stops(alloc: Global, without: &[u8]) -> bool {
    let (Some(inode), Some(host)) = (inode_before(alloc), all_started(alloc)) else {
        return false;
    };
    for k in 0..host.calls() {
        for done in [false, true] {
            let keep = Keep::Torn;
            match host.stopped_at(k, Choice { done, keep }) {
                Ok(mut left) => {
                    if !each_choice_opens(alloc, &mut left, inode, without) {
                        return false;
                    }
                }
                Err(_) => return false,
            }
        }
    }
    true
}

// Whether a call that fails is told, and leaves what opened, by each choice.
fn is_told(alloc: Global, inode: u64, k: u64, part: Part) -> bool {
    let Ok(fails) = Vec::from_array(alloc, [(k, part)]) else {
        return false;
    };
    let Ok(mut host) = three(alloc, fails) else {
        return false;
    };
    matches!(started(alloc, &mut host), Err(OpenFault::Failed(_)))
        && each_choice_opens(alloc, &mut host, inode, &[0, 2])
}

fn is_kept_at_failures(alloc: Global) -> bool {
    let (Some(inode), Some(host)) = (inode_before(alloc), all_started(alloc)) else {
        return false;
    };
    first_bad_failure(0, host.calls(), |k, part| is_told(alloc, inode, k, part)).is_none()
}

// Whether each directory has what a start leaves.
fn are_started(alloc: Global) -> bool {
    let Some(mut host) = all_started(alloc) else {
        return false;
    };
    let mut i = 0u8;
    for names in started_names() {
        if !is_started(alloc, &mut host, i, names) {
            return false;
        }
        i = i.saturating_add(1);
    }
    true
}

#[test]
fn a_start_leaves_the_image_and_one_segment_with_its_mark(rt: HostRuntime) {
    assert!(rt; are_started(rt.alloc()));
}

// Without the one that was made, and then the one that was topped up.
#[test]
fn a_stop_inside_any_call_of_a_start_leaves_choices_that_open(rt: HostRuntime) {
    assert!(rt; is_kept_at_stops(rt.alloc(), &[0, 2]));
}

// Without the one that was topped up, and then the one that was made.
#[test]
fn a_stop_inside_any_call_of_a_start_leaves_the_other_choices(rt: HostRuntime) {
    assert!(rt; is_kept_at_stops(rt.alloc(), &[2, 0]));
}

#[test]
fn a_call_of_a_start_that_fails_is_told_and_leaves_choices_that_open(rt: HostRuntime) {
    assert!(rt; is_kept_at_failures(rt.alloc()));
}
