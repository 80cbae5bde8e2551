// Directories that are brought to one namespace for a start.
use crate::given::{AHEAD, BEHIND, Given, NEWER, OLDER, SCRAPS, give_dirs, opens};
use nn_base::{DirNo, NoMemory, Sub};
use nn_memhost::{MemHost, Part};
use nn_pick::OpenFault;
use nn_start::bring_together;
use nn_tree::PlainTree;
use std::alloc::Global;
use tests_kit::texts::PARTS;
use tests_kit::{contents, first_bad_stop, has_sub, lists};

// What two directories hold; the last id that they open to; and the names in their `current` afterwards.
type Row = (&'static [Given], u64, [&'static [&'static str]; 2]);

// One that lags behind, and one of an older cTime, beside one that is ahead.
const LAGS: [Given; 2] = [(0, Sub::Current, &BEHIND), (1, Sub::Current, &AHEAD)];

const IS_OLDER: [Given; 2] = [(0, Sub::Current, &OLDER), (1, Sub::Current, &NEWER)];

const UP_TO_3: &[&str] = &["VERSION", "fsimage_3", "fsimage_3.md5", "seen_txid"];

static ROWS: [Row; 5] = [
    // One that isn't formatted is made.
    (
        &[(0, Sub::Current, &AHEAD), (1, Sub::Current, &SCRAPS)],
        3,
        [
            &[
                "VERSION",
                "edits_1-2",
                "edits_inprogress_3",
                "fsimage_0",
                "fsimage_0.md5",
                "fsimage_3",
                "fsimage_3.md5",
                "seen_txid",
            ],
            UP_TO_3,
        ],
    ),
    // One that lags behind is topped up.
    (
        &LAGS,
        3,
        [
            &[
                "VERSION",
                "fsimage_0",
                "fsimage_0.md5",
                "fsimage_3",
                "fsimage_3.md5",
                "seen_txid",
            ],
            &[
                "VERSION",
                "edits_1-2",
                "edits_inprogress_3",
                "fsimage_0",
                "fsimage_0.md5",
                "fsimage_3",
                "fsimage_3.md5",
                "seen_txid",
            ],
        ],
    ),
    // One of an older cTime is made anew, however far it goes.
    (
        &IS_OLDER,
        1,
        [
            &["VERSION", "fsimage_1", "fsimage_1.md5", "seen_txid"],
            &[
                "VERSION",
                "edits_inprogress_1",
                "fsimage_0",
                "fsimage_0.md5",
                "fsimage_1",
                "fsimage_1.md5",
                "seen_txid",
            ],
        ],
    ),
    // An upgrade that was stopped is taken back.
    (
        &[(0, Sub::PreviousTmp, &AHEAD), (0, Sub::Current, &SCRAPS)],
        3,
        [
            &[
                "VERSION",
                "edits_1-2",
                "edits_inprogress_3",
                "fsimage_0",
                "fsimage_0.md5",
                "fsimage_3",
                "fsimage_3.md5",
                "seen_txid",
            ],
            UP_TO_3,
        ],
    ),
    // An image that is there already isn't published again.
    (
        &[(0, Sub::Current, &OLDER), (1, Sub::Current, &OLDER)],
        5,
        [
            &["VERSION", "fsimage_5", "fsimage_5.md5", "seen_txid"],
            &["VERSION", "fsimage_5", "fsimage_5.md5", "seen_txid"],
        ],
    ),
];

// The table, by reference: a caller that named it would be proved with each of its rows.
fn rows() -> &'static [Row] {
    &ROWS
}

// Two directories that hold this, whose calls fail as the list says.
fn two(alloc: Global, given: &[Given], fails: Vec<(u64, Part)>) -> Result<MemHost, NoMemory> {
    give_dirs(alloc, 2, given, fails)
}

// Brings them together: the last id, or why they aren't.
fn brought(alloc: Global, host: &mut MemHost) -> Result<u64, OpenFault> {
    match bring_together::<MemHost, PlainTree>(alloc, host) {
        Ok(it) => Ok(it.aim.last.0),
        Err(fault) => Err(fault),
    }
}

// Two directories that were brought together, or None where that failed.
fn together(alloc: Global, given: &[Given], last: u64) -> Option<MemHost> {
    let mut host = two(alloc, given, Vec::new(alloc)).ok()?;
    match brought(alloc, &mut host) {
        Ok(id) if id == last => Some(host),
        _ => None,
    }
}

// What the directories of a row open to, before anything is done.
fn opened_before(alloc: Global, given: &[Given]) -> Option<(u64, u64)> {
    let mut host = two(alloc, given, Vec::new(alloc)).ok()?;
    opens(alloc, &mut host)
}

// Whether each `current` holds what it is to, and the two open to what they opened to.
fn is_together(alloc: Global, row: &Row) -> bool {
    let (given, last, names) = row;
    let before = opened_before(alloc, given);
    match together(alloc, given, *last) {
        Some(mut host) => {
            lists(alloc, &mut host, DirNo(0), Sub::Current, names[0])
                && lists(alloc, &mut host, DirNo(1), Sub::Current, names[1])
                && !has_sub(&mut host, DirNo(0), Sub::PreviousTmp)
                && opens(alloc, &mut host) == before
        }
        None => false,
    }
}

// Whether whatever a stop leaves opens to what the directories opened to.
fn is_kept_at_stops(alloc: Global, given: &[Given], last: u64) -> bool {
    let before = opened_before(alloc, given);
    match together(alloc, given, last) {
        Some(host) => first_bad_stop(&host, |left| opens(alloc, left) == before).is_none(),
        None => false,
    }
}

// Whether the failed call is told of its directory, is the last, and leaves what opened.
fn is_told(alloc: Global, given: &[Given], before: Option<(u64, u64)>, k: u64, part: Part) -> bool {
    let Ok(fails) = Vec::from_array(alloc, [(k, part)]) else {
        return false;
    };
    let Ok(mut host) = two(alloc, given, fails) else {
        return false;
    };
    matches!(brought(alloc, &mut host), Err(OpenFault::Failed(_)))
        && host.calls() == k.saturating_add(1)
        && opens(alloc, &mut host) == before
}

fn is_kept_at_failures(alloc: Global, given: &[Given], last: u64) -> bool {
    let before = opened_before(alloc, given);
    let calls = match together(alloc, given, last) {
        Some(host) => host.calls(),
        None => return false,
    };
    for k in 0..calls {
        for part in PARTS {
            if !is_told(alloc, given, before, k, part) {
                return false;
            }
        }
    }
    true
}

// Whether two directories of which none opens are left as they were.
fn is_refused(alloc: Global) -> Result<bool, NoMemory> {
    let mut host = two(alloc, &[(1, Sub::Current, &SCRAPS)], Vec::new(alloc))?;
    let before = contents(alloc, &mut host)?;
    let refused = matches!(brought(alloc, &mut host), Err(OpenFault::Refused(_)));
    let after = contents(alloc, &mut host)?;
    Ok(refused && before.as_slice() == after.as_slice())
}

#[test]
fn each_directory_gets_the_namespace_that_the_chosen_ones_open_to(rt: HostRuntime) {
    for row in rows() {
        assert!(rt; is_together(rt.alloc(), row), "{}", row.1);
    }
}

// Of a directory that lags behind and is topped up.
#[test]
fn a_stop_inside_any_call_of_topping_up_leaves_what_the_directories_opened_to(rt: HostRuntime) {
    assert!(rt; is_kept_at_stops(rt.alloc(), &LAGS, 3));
}

// Of a directory of an older cTime that is made anew.
#[test]
fn a_stop_inside_any_call_of_making_anew_leaves_what_the_directories_opened_to(rt: HostRuntime) {
    assert!(rt; is_kept_at_stops(rt.alloc(), &IS_OLDER, 1));
}

#[test]
fn a_call_that_fails_is_told_and_leaves_what_the_directories_opened_to(rt: HostRuntime) {
    assert!(rt; is_kept_at_failures(rt.alloc(), &LAGS, 3));
}

#[test]
fn directories_that_are_refused_are_left_alone(rt: HostRuntime) -> Result<(), NoMemory> {
    assert!(rt; is_refused(rt.alloc())?);
    Ok(())
}
