// What scripts leave of a journal's directories, whatever fails and whenever they stop.
use crate::folder::{bytes, names, reached, seen};
use crate::played::{Do, Played};
use nn_base::{DirNo, FileName, Span, Txid};
use nn_host::Host;
use nn_journal::JournalSet;
use nn_memhost::{Choice, Keep, MemHost, Part};
use std::alloc::Global;
use tests_kit::{first_bad_failure, first_bad_stop};

// A segment without another record, by hand: the checksums are those of zlib.
static EDITS_1_2: [u8; 42] = *b"\xFF\xFF\xFC\x17\0\0\0\0\
\x18\0\0\0\x0C\0\0\0\0\0\0\0\x01\x70\x43\xF0\xB7\
\x17\0\0\0\x0C\0\0\0\0\0\0\0\x02\xCE\x3A\x74\x38";

// Begins a segment, syncs one record and then two, rolls, syncs one more and ends the segment.
static TWO_SEGMENTS: [Do; 10] = [
    Do::Start,
    Do::Log(b"/d0"),
    Do::Sync,
    Do::Log(b"/d1"),
    Do::Log(b"/d2"),
    Do::Sync,
    Do::Roll,
    Do::Log(b"/d3"),
    Do::Sync,
    Do::End,
];

static TEN_RECORDS: [Do; 13] = [
    Do::Start,
    Do::Log(b"/d0"),
    Do::Log(b"/d1"),
    Do::Log(b"/d2"),
    Do::Log(b"/d3"),
    Do::Log(b"/d4"),
    Do::Log(b"/d5"),
    Do::Log(b"/d6"),
    Do::Log(b"/d7"),
    Do::Log(b"/d8"),
    Do::Log(b"/d9"),
    Do::Sync,
    Do::End,
];

// The scripts, by reference: a caller that named one would be proved with each of its steps.
fn two_segments() -> &'static [Do] {
    &TWO_SEGMENTS
}

fn ten_records() -> &'static [Do] {
    &TEN_RECORDS
}

// The name of a finalized segment.
fn edits(first: u64, last: u64) -> FileName {
    if first == 0 || last < first || last >= 1 << 62 {
        return FileName::Seen;
    }
    FileName::Edits(Span {
        first: Txid(first),
        last: Txid(last),
    })
}

// What a script leaves of so many directories, whose calls fail as the list says.
fn left(
    alloc: Global,
    count: u8,
    fails: Vec<(u64, Part)>,
    script: &[Do],
) -> Option<(MemHost, JournalSet)> {
    let mut played = Played::new(alloc, count, fails)?;
    played.play(alloc, script);
    Some(played.parts())
}

// The same where no call fails.
fn whole(alloc: Global, count: u8, script: &[Do]) -> Option<(MemHost, JournalSet)> {
    left(alloc, count, Vec::new(alloc), script)
}

// Whether each directory has just these bytes in this file.
fn all_have(alloc: Global, host: &mut MemHost, name: &FileName, wanted: &[u8]) -> bool {
    for i in 0..host.count() {
        if bytes(alloc, host, DirNo(i), name).as_slice() != wanted {
            return false;
        }
    }
    true
}

// Whether each directory has the file with these many bytes, the same in all of them.
fn all_have_one(alloc: Global, host: &mut MemHost, name: &FileName, len: usize) -> bool {
    let wanted = bytes(alloc, host, DirNo(0), name);
    wanted.len() == len && all_have(alloc, host, name, &wanted)
}

// Whether each directory has just these files in `current`.
fn all_list(alloc: Global, host: &mut MemHost, wanted: &[FileName]) -> bool {
    for i in 0..host.count() {
        if names(alloc, host, DirNo(i)).as_slice() != wanted {
            return false;
        }
    }
    true
}

// Whether a directory is live and reaches the last id, or was dropped and ends strictly below.
fn is_placed(alloc: Global, host: &mut MemHost, journal: &JournalSet, i: DirNo) -> bool {
    let last = journal.last().0;
    match reached(alloc, host, i) {
        Some(id) if journal.live(i) => id == last,
        Some(id) => id < last,
        None => false,
    }
}

fn all_placed(alloc: Global, host: &mut MemHost, journal: &JournalSet) -> bool {
    for i in 0..host.count() {
        if !is_placed(alloc, host, journal, DirNo(i)) {
            return false;
        }
    }
    true
}

// How many directories are live.
fn live_of(host: &mut MemHost, journal: &JournalSet) -> u8 {
    let mut live = 0_u8;
    for i in 0..host.count() {
        if journal.live(DirNo(i)) {
            live = live.saturating_add(1);
        }
    }
    live
}

// Whether each directory is where the last id is, or strictly below where it was dropped, with so many live at least.
fn falls_behind(
    alloc: Global,
    count: u8,
    script: &[Do],
    fails: Vec<(u64, Part)>,
    least: u8,
) -> bool {
    match left(alloc, count, fails, script) {
        Some((mut host, journal)) => {
            least <= live_of(&mut host, &journal) && all_placed(alloc, &mut host, &journal)
        }
        None => false,
    }
}

// Whether each directory has its segments without a gap, none is ahead of the second, which has a saved state, and
// `seen_txid` names no segment that isn't there.
fn is_sound(alloc: Global, host: &mut MemHost) -> bool {
    let Some(most) = reached(alloc, host, DirNo(1)) else {
        return false;
    };
    for i in 0..host.count() {
        match reached(alloc, host, DirNo(i)) {
            Some(id) if id <= most && seen(alloc, host, DirNo(i)) <= id => {}
            _ => return false,
        }
    }
    true
}

// The first call inside which a stop loses what an earlier one left for sure.
fn first_loss(alloc: Global, host: &MemHost, i: DirNo) -> Option<u64> {
    let mut before = 0;
    for k in 0..host.calls() {
        let choice = Choice {
            done: false,
            keep: Keep::Synced,
        };
        let Ok(mut left) = host.stopped_at(k, choice) else {
            return Some(k);
        };
        match reached(alloc, &mut left, i) {
            Some(id) if before <= id => before = id,
            _ => return Some(k),
        }
    }
    None
}

// Whether a stop inside any call of the script leaves its directories sound and loses nothing.
fn is_kept_at_stops(alloc: Global, count: u8, script: &[Do]) -> bool {
    let Some((host, _)) = whole(alloc, count, script) else {
        return false;
    };
    for i in 0..count {
        if first_loss(alloc, &host, DirNo(i)).is_some() {
            return false;
        }
    }
    first_bad_stop(&host, |left| is_sound(alloc, left)).is_none()
}

// How many calls the script makes.
fn calls_of(alloc: Global, count: u8, script: &[Do]) -> u64 {
    match whole(alloc, count, script) {
        Some((host, _)) => host.calls(),
        None => 0,
    }
}

// Whether the directory in which this call fails falls behind.
fn one_falls_behind(alloc: Global, count: u8, script: &[Do], k: u64, part: Part) -> bool {
    match Vec::from_array(alloc, [(k, part)]) {
        Ok(fails) => falls_behind(alloc, count, script, fails, count.saturating_sub(1)),
        Err(_) => false,
    }
}

// Whether those in which these two calls fail fall behind: the second may fail in a roll after the first.
fn two_fall_behind(alloc: Global, count: u8, script: &[Do], k: u64, then: u64) -> bool {
    match Vec::from_array(alloc, [(k, Part::Half), (then, Part::All)]) {
        Ok(fails) => falls_behind(alloc, count, script, fails, count.saturating_sub(2)),
        Err(_) => false,
    }
}

// The first call that fails such that its directory, or that of one of the twenty calls after it which fails too, doesn't
// fall behind.
fn first_bad_pair(alloc: Global, count: u8, script: &[Do]) -> Option<u64> {
    for k in 0..calls_of(alloc, count, script) {
        for more in 1..21_u64 {
            if !two_fall_behind(alloc, count, script, k, k.saturating_add(more)) {
                return Some(k);
            }
        }
    }
    None
}

// The first call whose directory doesn't fall behind where it fails.
fn first_bad_drop(alloc: Global, count: u8, script: &[Do]) -> Option<u64> {
    let calls = calls_of(alloc, count, script);
    first_bad_failure(
        0,
        calls,
        |k, part| one_falls_behind(alloc, count, script, k, part),
    )
}

// Scripts over two directories in which the first is dropped by the caller: where each ends, how many are live and how many
// calls were made.
static DROPS: [(&[Do], Option<u64>, Option<u64>, u8, u64); 5] = [
    (&[Do::Start, Do::Drop(0)], Some(1), Some(3), 1, 24),
    (&[Do::Start, Do::Drop(0), Do::End], Some(1), Some(4), 1, 27),
    (&[Do::Start, Do::End, Do::Drop(0)], Some(2), Some(4), 1, 30),
    (
        &[
            Do::Start,
            Do::Drop(0),
            Do::End,
            Do::TakeBack(0),
            Do::Unhold(1),
        ],
        Some(1),
        Some(4),
        2,
        27,
    ),
    (
        &[Do::Start, Do::End, Do::Drop(0), Do::TakeBack(0), Do::Start],
        None,
        Some(5),
        2,
        44,
    ),
];

fn drops() -> &'static [(&'static [Do], Option<u64>, Option<u64>, u8, u64)] {
    &DROPS
}

fn is_dropped(
    alloc: Global,
    script: &[Do],
    ends: (Option<u64>, Option<u64>),
    live: u8,
    calls: u64,
) -> bool {
    let Some((mut host, journal)) = whole(alloc, 2, script) else {
        return false;
    };
    host.calls() == calls
        && live_of(&mut host, &journal) == live
        && reached(alloc, &mut host, DirNo(0)) == ends.0
        && reached(alloc, &mut host, DirNo(1)) == ends.1
}

// A path of 7,905 bytes.
fn long_path(alloc: Global) -> Option<Vec<u8>> {
    let mut path = Vec::with_capacity(alloc, 7_905).ok()?;
    for _ in 0..31 {
        path.extend_from_slice(b"/").ok()?;
        path.extend_from_slice(&[b'a'; 254]).ok()?;
    }
    Some(path)
}

// What is left of a directory in which so many buffers full of records were synced.
fn filled(alloc: Global, buffers: u8) -> Option<(MemHost, JournalSet)> {
    let path = long_path(alloc)?;
    let mut played = Played::new(alloc, 1, Vec::new(alloc))?;
    if !played.play(alloc, &[Do::Start]) {
        return None;
    }
    for _ in 0..buffers {
        if !played.fill(alloc, &path) {
            return None;
        }
    }
    played.play(alloc, &[Do::End]);
    Some(played.parts())
}

// Whether the first segment is above 2^26 - 2^20 - 64 bytes and not above 2^26, and the second goes on behind it to the last
// id.
fn is_rolled(alloc: Global, host: &mut MemHost, journal: &JournalSet) -> bool {
    let names = names(alloc, host, DirNo(0));
    let [
        FileName::Version,
        FileName::Edits(one),
        FileName::Edits(two),
        FileName::Seen,
    ] = *names.as_slice()
    else {
        return false;
    };
    let len = bytes(alloc, host, DirNo(0), &FileName::Edits(one)).len();
    one.last.0.saturating_add(1) == two.first.0
        && 66_060_224 < len
        && len <= 67_108_864
        && two.last == journal.last()
        && reached(alloc, host, DirNo(0)) == Some(journal.last().0)
}

fn a_full_one_is_rolled(alloc: Global) -> bool {
    match filled(alloc, 70) {
        Some((mut host, journal)) => is_rolled(alloc, &mut host, &journal),
        None => false,
    }
}

// Whether a segment that is begun and ended has its bytes, and a `sync` in between without a record makes no call.
fn is_begun_and_ended(alloc: Global) -> bool {
    let Some((mut host, _)) = whole(alloc, 2, &[Do::Start, Do::Sync, Do::End]) else {
        return false;
    };
    host.calls() == 2 * (7 + 3)
        && host.said().is_empty()
        && all_have(alloc, &mut host, &edits(1, 2), &EDITS_1_2)
        && all_have(alloc, &mut host, &FileName::Seen, b"1\n")
}

// Whether a script in which nothing fails leaves the same in each directory: two starts of seven calls, two ends of three
// and three syncs of two.
fn leaves_the_same(alloc: Global, count: u8) -> bool {
    let Some((mut host, journal)) = whole(alloc, count, two_segments()) else {
        return false;
    };
    let wanted = [FileName::Version, edits(1, 5), edits(6, 8), FileName::Seen];
    host.calls() == u64::from(count) * (2 * 7 + 2 * 3 + 3 * 2)
        && live_of(&mut host, &journal) == count
        && all_placed(alloc, &mut host, &journal)
        && all_list(alloc, &mut host, &wanted)
        && all_have_one(alloc, &mut host, &edits(1, 5), 42 + 3 * 56)
        && all_have_one(alloc, &mut host, &edits(6, 8), 42 + 56)
        && all_have(alloc, &mut host, &FileName::Seen, b"6\n")
}

// Whether ten records that one sync writes are in a segment of 602 bytes in each of three directories.
fn ten_have_602_bytes(alloc: Global) -> bool {
    let Some((mut host, _)) = whole(alloc, 3, ten_records()) else {
        return false;
    };
    host.calls() == 3 * (7 + 2 + 3) && all_have_one(alloc, &mut host, &edits(1, 12), 602)
}

#[test]
fn a_segment_that_is_begun_and_ended_has_its_bytes_in_each_directory(rt: HostRuntime) {
    assert!(rt; is_begun_and_ended(rt.alloc()));
}

#[test]
fn a_script_in_which_nothing_fails_leaves_the_same_segments_in_each_directory(rt: HostRuntime) {
    for count in 1..5_u8 {
        assert!(rt; leaves_the_same(rt.alloc(), count), "{count}");
    }
}

#[test]
fn ten_records_of_one_sync_have_602_bytes_in_each_of_three_directories(rt: HostRuntime) {
    assert!(rt; ten_have_602_bytes(rt.alloc()));
}

#[test]
fn a_directory_whose_call_fails_ends_strictly_below_the_live_ones(rt: HostRuntime) {
    assert!(rt; first_bad_drop(rt.alloc(), 2, two_segments()).is_none());
    assert!(rt; first_bad_drop(rt.alloc(), 3, two_segments()).is_none());
}

#[test]
fn a_second_directory_that_fails_in_the_roll_after_a_drop_falls_behind_too(rt: HostRuntime) {
    assert!(rt; first_bad_pair(rt.alloc(), 3, two_segments()).is_none());
}

#[test]
fn a_stop_inside_any_call_leaves_each_directory_sound_and_none_ahead_of_a_holder(rt: HostRuntime) {
    assert!(rt; is_kept_at_stops(rt.alloc(), 2, two_segments()));
    assert!(rt; is_kept_at_stops(rt.alloc(), 3, two_segments()));
}

#[test]
fn a_directory_that_the_caller_drops_is_not_touched_until_it_is_taken_back(rt: HostRuntime) {
    for (script, first, second, live, calls) in drops() {
        assert!(rt;
            is_dropped(rt.alloc(), script, (*first, *second), *live, *calls),
            "{script:?}"
        );
    }
}

#[test]
fn a_segment_that_a_sync_makes_full_is_ended_and_the_next_goes_on_behind_it(rt: HostRuntime) {
    assert!(rt; a_full_one_is_rolled(rt.alloc()));
}
