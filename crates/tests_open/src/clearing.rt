// Directories that are cleared.
ghost use Rattle.std.specs.Prelude.{◌≡◌, ◌<◌, IfSome};
ghost use Rattle.nn_host.specs.Moments.{disk_at};
ghost use Rattle.nn_state.specs.Typed.{FitsSettled, dir_in};

use nn_base::{DirNo, NoMemory, Sub};
use nn_host::Host;
use nn_memhost::{MemHost, Part};
use nn_remake::clear;
use nn_state::{Found, Settled, StorageState, look, table};
use std::alloc::Global;
use tests_kit::texts::{DIGEST_0, IMAGE_0, VERSION};
use tests_kit::{File, file, first_bad_failure, first_bad_stop, found_at, give_all, has, has_sub};

const DIR: DirNo = DirNo(0);

static FILES: [File; 4] = [
    ("VERSION", &[VERSION]),
    ("fsimage_0", &[IMAGE_0]),
    ("fsimage_0.md5", &[DIGEST_0]),
    ("edits_inprogress_1", &[b"header and records"]),
];

fn files() -> &'static [File] {
    &FILES
}

// The folders that hold these files.
static ROWS: [&[Sub]; 5] = [
    &[Sub::Current],
    &[Sub::Current, Sub::PreviousCheckpoint],
    &[Sub::Current, Sub::Previous],
    &[Sub::Current, Sub::Previous, Sub::PreviousCheckpoint],
    &[],
];

// The table, by reference: a caller that named it would be proved with each of its rows.
fn rows() -> &'static [&'static [Sub]] {
    &ROWS
}

// A directory whose folders hold these files, and whose calls fail as the list says.
fn holding(alloc: Global, subs: &[Sub], fails: Vec<(u64, Part)>) -> Result<MemHost, NoMemory> {
    let mut host = MemHost::new(alloc, 1, fails)?;
    for sub in subs {
        give_all(alloc, &mut host, DIR, *sub, files())?;
    }
    Ok(host)
}

/// The one directory, where nothing is under way in it.
pub fn settled<H: Host>(host: &mut H) -> Option<Settled>
    requires below { 0 < (H.state host.old).count }
    ensures count { (H.state host.new).count ≡ (H.state host.old).count }
    ensures dir { IfSome result (λ it. (dir_in it).0 ≡ 0) }
    ensures fits { H.told → IfSome result (λ it. FitsSettled it (disk_at (H.state host.new) 0)) }
{
    match found_at(host, DIR)? {
        Found::Normal(it) => it.settled(host).ok(),
        Found::NotFormatted(it) => Some(Settled::Fresh(it.fresh())),
        _ => None,
    }
}

// Clears the directory: whether it was, or None where it can't be.
fn cleared<H: Host>(host: &mut H) -> Option<bool> {
    if host.count() == 0 {
        return None;
    }
    let it = settled(host)?;
    Some(clear(host, it).is_ok())
}

fn state_of(host: &mut MemHost) -> Option<StorageState> {
    if host.count() == 0 {
        return None;
    }
    table(look(host, DIR).ok()?).ok()
}

// Whether all files of `current` are there.
fn serves(alloc: Global, host: &mut MemHost) -> bool {
    has(alloc, host, DIR, Sub::Current, file("VERSION"), VERSION)
        && has(alloc, host, DIR, Sub::Current, file("fsimage_0"), IMAGE_0)
        && has(
            alloc,
            host,
            DIR,
            Sub::Current,
            file("fsimage_0.md5"),
            DIGEST_0,
        )
}

// Nothing is formatted here, or what served still does.
fn is_whole_or_gone(alloc: Global, host: &mut MemHost) -> bool {
    match state_of(host) {
        Some(StorageState::NotFormatted) => true,
        Some(StorageState::Normal | StorageState::CompleteFinalize) => serves(alloc, host),
        _ => false,
    }
}

// A directory with these folders that was cleared, or None where that failed.
fn cleared_whole(alloc: Global, subs: &[Sub]) -> Option<MemHost> {
    let mut host = holding(alloc, subs, Vec::new(alloc)).ok()?;
    match cleared(&mut host) {
        Some(true) => Some(host),
        _ => None,
    }
}

// How many calls look at the directory before it is known what is settled.
fn looks(alloc: Global, subs: &[Sub]) -> u64 {
    let Ok(mut host) = holding(alloc, subs, Vec::new(alloc)) else {
        return 0;
    };
    if host.count() > 0 {
        let _ = settled(&mut host);
    }
    host.calls()
}

fn is_empty(host: &mut MemHost) -> bool {
    state_of(host) == Some(StorageState::NotFormatted)
        && !has_sub(host, DIR, Sub::Current)
        && !has_sub(host, DIR, Sub::Previous)
        && !has_sub(host, DIR, Sub::FinalizedTmp)
        && !has_sub(host, DIR, Sub::PreviousCheckpoint)
}

// Whether the failed call is told, and is the last.
fn is_told(alloc: Global, subs: &[Sub], k: u64, part: Part) -> bool {
    let Ok(fails) = Vec::from_array(alloc, [(k, part)]) else {
        return false;
    };
    let Ok(mut host) = holding(alloc, subs, fails) else {
        return false;
    };
    cleared(&mut host) == Some(false)
        && host.calls() == k.saturating_add(1)
        && is_whole_or_gone(alloc, &mut host)
}

// Whether the directory holds nothing once it is cleared.
fn is_cleared(alloc: Global, subs: &[Sub]) -> bool {
    match cleared_whole(alloc, subs) {
        Some(mut host) => is_empty(&mut host),
        None => false,
    }
}

// Whether a stop inside any call of the clearing leaves what served, or nothing formatted.
fn is_kept_at_stops(alloc: Global, subs: &[Sub]) -> bool {
    match cleared_whole(alloc, subs) {
        Some(host) => first_bad_stop(&host, |left| is_whole_or_gone(alloc, left)).is_none(),
        None => false,
    }
}

// Whether each failed call of the clearing is told.
fn is_kept_at_failures(alloc: Global, subs: &[Sub]) -> bool {
    let calls = match cleared_whole(alloc, subs) {
        Some(host) => host.calls(),
        None => return false,
    };
    first_bad_failure(
        looks(alloc, subs),
        calls,
        |k, part| is_told(alloc, subs, k, part),
    )
    .is_none()
}

#[test]
fn a_cleared_directory_holds_nothing(rt: HostRuntime) {
    for subs in rows() {
        assert!(rt; is_cleared(rt.alloc(), subs), "{subs:?}");
    }
}

#[test]
fn a_stop_inside_any_call_of_clearing_leaves_what_served_or_nothing_formatted(rt: HostRuntime) {
    for subs in rows() {
        assert!(rt; is_kept_at_stops(rt.alloc(), subs), "{subs:?}");
    }
}

#[test]
fn a_call_of_clearing_that_fails_is_told_and_leaves_what_served_or_nothing_formatted(
    rt: HostRuntime,
) {
    for subs in rows() {
        assert!(rt; is_kept_at_failures(rt.alloc(), subs), "{subs:?}");
    }
}
