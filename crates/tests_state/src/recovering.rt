// Recoveries of directories in memory.
ghost use Rattle.std.specs.Prelude.{◌≡◌, ◌≢◌};
ghost use Rattle.nn_host.specs.Moments.{disk_at};
ghost use Rattle.nn_state.specs.declared.state.StorageState.TheVariants as state;
ghost use Rattle.nn_state.specs.Typed.{state_of, dir_of, FitsFound};

use nn_base::{DirNo, FileName, NoMemory, Sub};
use nn_host::Host;
use nn_memhost::{MemHost, Part};
use nn_state::{Bay, BayFault, Found, look, seat};
use std::alloc::Global;
use tests_kit::{first_bad_failure, first_bad_stop, found_at, give, has, has_sub};

const DIR: DirNo = DirNo(0);

// The folders whose VERSION is that of `current`, of `previous` and of `previous.checkpoint` once all is recovered.
type Seats = [Option<Sub>; 3];

// The folders of each state that is recovered, each of which holds a VERSION with its own name, and whose VERSION is
// afterwards that of `current`, of `previous` and of `previous.checkpoint`: the table of Hadoop's Storage.doRecover.
static ROWS: [(&[Sub], Seats); 11] = [
    (
        &[Sub::Current, Sub::PreviousTmp],
        [Some(Sub::Current), Some(Sub::PreviousTmp), None],
    ),
    (&[Sub::PreviousTmp], [Some(Sub::PreviousTmp), None, None]),
    (
        &[Sub::Current, Sub::FinalizedTmp, Sub::PreviousCheckpoint],
        [Some(Sub::Current), None, Some(Sub::PreviousCheckpoint)],
    ),
    (&[Sub::FinalizedTmp], [None, None, None]),
    (
        &[Sub::Current, Sub::RemovedTmp],
        [Some(Sub::Current), None, None],
    ),
    (
        &[Sub::Previous, Sub::RemovedTmp],
        [Some(Sub::RemovedTmp), Some(Sub::Previous), None],
    ),
    (
        &[
            Sub::Current,
            Sub::LastCheckpointTmp,
            Sub::PreviousCheckpoint,
        ],
        [Some(Sub::Current), None, Some(Sub::LastCheckpointTmp)],
    ),
    (
        &[Sub::Current, Sub::Previous, Sub::LastCheckpointTmp],
        [
            Some(Sub::Current),
            Some(Sub::Previous),
            Some(Sub::LastCheckpointTmp),
        ],
    ),
    (
        &[Sub::LastCheckpointTmp],
        [Some(Sub::LastCheckpointTmp), None, None],
    ),
    (
        &[Sub::Previous, Sub::LastCheckpointTmp],
        [Some(Sub::LastCheckpointTmp), Some(Sub::Previous), None],
    ),
    (
        &[Sub::Current, Sub::Previous],
        [Some(Sub::Current), Some(Sub::Previous), None],
    ),
];

// The table, by reference: a caller that named it would be proved with each of its rows.
fn rows() -> &'static [(&'static [Sub], Seats)] {
    &ROWS
}

// A text of its own for each subfolder.
fn tag(sub: Sub) -> &'static [u8] {
    match sub {
        Sub::Current => b"current",
        Sub::Previous => b"previous",
        Sub::PreviousTmp => b"previous.tmp",
        Sub::RemovedTmp => b"removed.tmp",
        Sub::FinalizedTmp => b"finalized.tmp",
        Sub::LastCheckpointTmp => b"lastcheckpoint.tmp",
        Sub::PreviousCheckpoint => b"previous.checkpoint",
    }
}

// A directory with such a VERSION in each of these subfolders, and a `current` in any case. The calls fail as the list says.
fn holding(alloc: Global, subs: &[Sub], fails: Vec<(u64, Part)>) -> Result<MemHost, NoMemory> {
    let mut host = MemHost::new(alloc, 1, fails)?;
    give(&mut host, DIR, Sub::Current, FileName::Seen, b"0\n")?;
    for sub in subs {
        give(&mut host, DIR, *sub, FileName::Version, tag(*sub))?;
    }
    Ok(host)
}

// Recovers the directory by the state that it is found in, or None where it has none.
fn recover<H: Host>(alloc: Global, host: &mut H) -> Option<Result<Bay, BayFault>> {
    if host.count() != 1 {
        return None;
    }
    let it = found_at(host, DIR)?;
    recover_one(alloc, host, it)
}

fn recover_one<H: Host>(alloc: Global, host: &mut H, it: Found) -> Option<Result<Bay, BayFault>>
    requires one { (H.state host.old).count ≡ 1 }
    requires there { state_of it ≢ state.NonExistent }
    requires dir { (dir_of it).0 ≡ 0 }
    requires fits { H.told → FitsFound it (disk_at (H.state host.old) 0) }
{
    let Ok(mut found) = Vec::with_capacity(alloc, 1) else {
        return None;
    };
    let Ok(()) = found.push(it) else {
        return None;
    };
    Some(Bay::recover_all(alloc, host, found))
}

// A directory with these subfolders that was recovered, or None where that failed.
fn recovered(alloc: Global, subs: &[Sub]) -> Option<MemHost> {
    let mut host = holding(alloc, subs, Vec::new(alloc)).ok()?;
    match recover(alloc, &mut host) {
        Some(Ok(_)) => Some(host),
        _ => None,
    }
}

// Whether the folder holds the VERSION that this one held, or there is neither.
fn holds(alloc: Global, host: &mut MemHost, sub: Option<Sub>, of: Option<Sub>) -> bool {
    match (sub, of) {
        (Some(sub), Some(of)) => has(alloc, host, DIR, sub, FileName::Version, tag(of)),
        (None, None) => true,
        _ => false,
    }
}

// Whether the folders that serve hold what these held.
fn serves(alloc: Global, host: &mut MemHost, seats: Seats) -> bool {
    let (current, previous) = serving(host);
    holds(alloc, host, current, seats[0]) && holds(alloc, host, previous, seats[1])
}

// The folders that serve; none where a look fails.
fn serving(host: &mut MemHost) -> (Option<Sub>, Option<Sub>) {
    if host.count() == 0 {
        return (None, None);
    }
    match look(host, DIR) {
        Ok(seven) => seat(seven),
        Err(_) => (None, None),
    }
}

fn there(host: &mut MemHost, sub: Sub) -> Option<Sub> {
    match has_sub(host, DIR, sub) {
        true => Some(sub),
        false => None,
    }
}

// Whether each folder that is left holds what it is to hold, and nothing is under way.
fn is_at_rest(alloc: Global, host: &mut MemHost, seats: Seats) -> bool {
    let previous = there(host, Sub::Previous);
    let checkpoint = there(host, Sub::PreviousCheckpoint);
    serves(alloc, host, seats)
        && holds(alloc, host, previous, seats[1])
        && holds(alloc, host, checkpoint, seats[2])
        && !has_sub(host, DIR, Sub::PreviousTmp)
        && !has_sub(host, DIR, Sub::RemovedTmp)
        && !has_sub(host, DIR, Sub::FinalizedTmp)
        && !has_sub(host, DIR, Sub::LastCheckpointTmp)
}

// Whether the failed call is told, and what served still does.
fn is_told(alloc: Global, subs: &[Sub], seats: Seats, k: u64, part: Part) -> bool {
    let Ok(fails) = Vec::from_array(alloc, [(k, part)]) else {
        return false;
    };
    let Ok(mut host) = holding(alloc, subs, fails) else {
        return false;
    };
    match recover(alloc, &mut host) {
        Some(Err(BayFault::Failed(DirNo(0)))) => serves(alloc, &mut host, seats),
        _ => false,
    }
}

// Whether the directory is at rest once it is recovered, and served the same before.
fn is_recovered(alloc: Global, subs: &[Sub], seats: Seats) -> bool {
    let Ok(mut before) = holding(alloc, subs, Vec::new(alloc)) else {
        return false;
    };
    match recovered(alloc, subs) {
        Some(mut host) => serves(alloc, &mut before, seats) && is_at_rest(alloc, &mut host, seats),
        None => false,
    }
}

// Whether a stop inside any call of the recovery leaves what served.
fn is_kept_at_stops(alloc: Global, subs: &[Sub], seats: Seats) -> bool {
    match recovered(alloc, subs) {
        Some(host) => first_bad_stop(&host, |left| serves(alloc, left, seats)).is_none(),
        None => false,
    }
}

// Whether each failed call of the recovery is told. The first calls look at the directory, before its state is known.
fn is_kept_at_failures(alloc: Global, subs: &[Sub], seats: Seats) -> bool {
    let calls = match recovered(alloc, subs) {
        Some(host) => host.calls(),
        None => return false,
    };
    first_bad_failure(7, calls, |k, part| is_told(alloc, subs, seats, k, part)).is_none()
}

#[test]
fn a_recovered_directory_has_its_folders_under_current_and_previous(rt: HostRuntime) {
    for (subs, seats) in rows() {
        assert!(rt; is_recovered(rt.alloc(), subs, *seats), "{subs:?}");
    }
}

#[test]
fn a_stop_inside_any_call_of_a_recovery_leaves_what_served(rt: HostRuntime) {
    for (subs, seats) in rows() {
        assert!(rt; is_kept_at_stops(rt.alloc(), subs, *seats), "{subs:?}");
    }
}

#[test]
fn a_recovery_whose_call_fails_is_told_and_leaves_what_served(rt: HostRuntime) {
    for (subs, seats) in rows() {
        assert!(rt; is_kept_at_failures(rt.alloc(), subs, *seats), "{subs:?}");
    }
}
