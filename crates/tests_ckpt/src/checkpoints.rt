// What checkpoints leave, whatever fails, and what a stop inside them leaves.
use crate::run::{Run, reached};
use nn_base::{DirNo, Sub, Txid};
use nn_ckpt::RunFault;
use nn_host::Host;
use nn_journal::JournalSet;
use nn_memhost::{MemHost, Part};
use std::alloc::Global;
use std::test::Fail;
use tests_kit::{File, first_bad_failure, first_bad_stop, lists};

const A: DirNo = DirNo(0);

const B: DirNo = DirNo(1);

// The calls that begin the first segment in two directories.
const BEGUN: u64 = 14;

// What a directory holds after three checkpoints, while the run goes on.
static AFTER_THREE: [&str; 8] = [
    "VERSION",
    "edits_5-6",
    "edits_inprogress_7",
    "fsimage_4",
    "fsimage_4.md5",
    "fsimage_6",
    "fsimage_6.md5",
    "seen_txid",
];

// What it holds after one.
static AFTER_ONE: [&str; 8] = [
    "VERSION",
    "edits_1-2",
    "edits_inprogress_3",
    "fsimage_0",
    "fsimage_0.md5",
    "fsimage_2",
    "fsimage_2.md5",
    "seen_txid",
];

fn after_three() -> &'static [&'static str] {
    &AFTER_THREE
}

fn after_one() -> &'static [&'static str] {
    &AFTER_ONE
}

// Files that stand for nothing: an image on the way, and the MD5 file of one that is gone.
const SCRAPS: [File; 2] = [("fsimage.ckpt_1", &[b"half"]), ("fsimage_1.md5", &[b"sum"])];

// So many directories after so many checkpoints, and the answer to the last of them.
fn after(
    alloc: Global,
    count: u8,
    more: &[File],
    times: u8,
    fails: Vec<(u64, Part)>,
) -> Option<(MemHost, JournalSet, Result<Txid, RunFault>)> {
    let mut run = Run::begun(alloc, count, more, fails)?;
    let answer = run.checkpoints(alloc, times)?;
    let (host, journal) = run.parts();
    Some((host, journal, answer))
}

// Whether three checkpoints answer the id 6 last, and leave this in both directories.
fn leaves_two_images(alloc: Global) -> Option<bool> {
    let (mut host, journal, answer) = after(alloc, 2, &[], 3, Vec::new(alloc))?;
    let mut all = answer.is_ok_and(|id| id == Txid(6));
    for i in [A, B] {
        all = all && journal.live(i) && lists(alloc, &mut host, i, Sub::Current, after_three());
        all = all && reached(alloc, &mut host, i) == Some(7);
    }
    Some(all)
}

#[test]
fn three_checkpoints_leave_two_images_and_the_segments_behind_the_older(
    rt: HostRuntime,
) -> Result<(), Fail> {
    assert!(rt; leaves_two_images(rt.alloc()) == Some(true));
    Ok(())
}

fn sweeps(alloc: Global) -> Option<bool> {
    let (mut host, _, answer) = after(alloc, 1, &SCRAPS, 1, Vec::new(alloc))?;
    Some(
        answer.is_ok_and(|id| id == Txid(2))
            && lists(alloc, &mut host, A, Sub::Current, after_one()),
    )
}

#[test]
fn images_on_the_way_and_digests_of_none_go(rt: HostRuntime) -> Result<(), Fail> {
    assert!(rt; sweeps(rt.alloc()) == Some(true));
    Ok(())
}

// Whether three checkpoints go on without the directory in which the call k fails, and rank above it.
fn goes_on_without(alloc: Global, k: u64, part: Part) -> Option<bool> {
    let fails = Vec::from_array(alloc, [(k, part)]).ok()?;
    let (mut host, journal, answer) = after(alloc, 2, &[], 3, fails)?;
    let (stays, gone) = if journal.live(A) { (A, B) } else { (B, A) };
    let high = reached(alloc, &mut host, stays)?;
    let low = reached(alloc, &mut host, gone)?;
    Some(
        answer.is_ok()
            && journal.live(stays)
            && !journal.live(gone)
            && high == journal.last().0
            && low < high,
    )
}

fn calls_of_three(alloc: Global) -> Option<u64> {
    let (host, _, _) = after(alloc, 2, &[], 3, Vec::new(alloc))?;
    Some(host.calls())
}

#[test]
fn a_call_that_fails_drops_its_directory_and_leaves_it_below(rt: HostRuntime) -> Result<(), Fail> {
    let alloc = rt.alloc();
    let calls = calls_of_three(alloc).unwrap_or(0);
    let bad = first_bad_failure(BEGUN, calls, |k, part| {
        goes_on_without(alloc, k, part) == Some(true)
    });
    assert!(rt; calls > 100 && bad.is_none(), "{bad:?}");
    Ok(())
}

// The first call of three checkpoints inside which a stop leaves a directory that doesn't open to the empty namespace.
fn bad_stop(alloc: Global) -> Option<Option<u64>> {
    let (host, _, _) = after(alloc, 2, &[], 3, Vec::new(alloc))?;
    Some(first_bad_stop(&host, |left| {
        reached(alloc, left, A).is_some() && reached(alloc, left, B).is_some()
    }))
}

#[test]
fn a_stop_at_any_call_leaves_chains_of_the_namespace(rt: HostRuntime) -> Result<(), Fail> {
    let bad = bad_stop(rt.alloc());
    assert!(rt; bad == Some(None), "{bad:?}");
    Ok(())
}

fn fails_alone(alloc: Global) -> Option<Result<Txid, RunFault>> {
    let fails = Vec::from_array(alloc, [(7, Part::Nothing)]).ok()?;
    let (_, _, answer) = after(alloc, 1, &[], 1, fails)?;
    Some(answer)
}

#[test]
fn no_directory_left_is_told(rt: HostRuntime) -> Result<(), Fail> {
    assert!(rt; fails_alone(rt.alloc()) == Some(Err(RunFault::NoneLeft)));
    Ok(())
}
