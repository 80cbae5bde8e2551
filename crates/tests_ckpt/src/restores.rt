// A dropped directory that is taken back, whatever fails, and what a stop leaves of it.
use crate::run::{Run, made, reached};
use nn_base::{DirNo, FileName, Sub};
use nn_ckpt::RunFault;
use nn_host::Host;
use nn_journal::JournalSet;
use nn_memhost::{MemHost, Part};
use nn_restore::Restored;
use std::alloc::Global;
use std::test::Fail;
use tests_kit::texts::VERSION;
use tests_kit::{first_bad_failure, first_bad_stop, give, has_sub, lists};

const A: DirNo = DirNo(0);

const B: DirNo = DirNo(1);

// The calls before a restoration in these tests: 14 begin the first segment in two directories, and 10 roll it in the first of them.
const DROPPED: u64 = 24;

// What the directory that was taken back holds: the image of the segment that was ended for it, and the next one in progress.
static BACK: [&str; 5] = [
    "VERSION",
    "edits_inprogress_5",
    "fsimage_4",
    "fsimage_4.md5",
    "seen_txid",
];

fn back() -> &'static [&'static str] {
    &BACK
}

// Two directories, of which the second was dropped. The calls fail as the list says.
fn dropped(alloc: Global, fails: Vec<(u64, Part)>) -> Option<Run> {
    let mut run = Run::begun(alloc, 2, &[], fails)?;
    match run.drops(B) {
        true => Some(run),
        false => None,
    }
}

// What a restoration of the second leaves, and its answer.
fn after(
    alloc: Global,
    fails: Vec<(u64, Part)>,
) -> Option<(MemHost, JournalSet, Result<Restored, RunFault>)> {
    let mut run = dropped(alloc, fails)?;
    let answer = run.restores(alloc, B)?;
    let (host, journal) = run.parts();
    Some((host, journal, answer))
}

fn takes_back(alloc: Global) -> Option<bool> {
    let (mut host, journal, answer) = after(alloc, Vec::new(alloc))?;
    Some(
        answer == Ok(Restored::TakenBack)
            && journal.live(A)
            && journal.live(B)
            && lists(alloc, &mut host, B, Sub::Current, back())
            && reached(alloc, &mut host, A) == Some(5)
            && reached(alloc, &mut host, B) == Some(5),
    )
}

#[test]
fn a_dropped_directory_is_taken_back_with_one_image_and_goes_on(
    rt: HostRuntime,
) -> Result<(), Fail> {
    assert!(rt; takes_back(rt.alloc()) == Some(true));
    Ok(())
}

// Whether it is checkpointed as the other is.
fn is_checkpointed(alloc: Global) -> Option<bool> {
    let mut run = dropped(alloc, Vec::new(alloc))?;
    let answer = run.restores(alloc, B)?;
    let last = run.checkpoints(alloc, 2)?;
    let (mut host, journal) = run.parts();
    let mut all = answer.is_ok() && last.is_ok();
    for i in [A, B] {
        all = all && reached(alloc, &mut host, i) == Some(journal.last().0);
    }
    Some(all)
}

#[test]
fn it_is_checkpointed_from_then_on(rt: HostRuntime) -> Result<(), Fail> {
    assert!(rt; is_checkpointed(rt.alloc()) == Some(true));
    Ok(())
}

// Whether a live one is answered so without a call.
fn stays_live(alloc: Global) -> Option<bool> {
    let mut run = dropped(alloc, Vec::new(alloc))?;
    let before = run.calls();
    let answer = run.restores(alloc, A)?;
    Some(answer == Ok(Restored::TakenBack) && run.calls() == before)
}

#[test]
fn one_that_is_live_is_left_alone(rt: HostRuntime) -> Result<(), Fail> {
    assert!(rt; stays_live(rt.alloc()) == Some(true));
    Ok(())
}

// The answer for a second directory that has the VERSION of these folders too, and whether all is as it was. Without a root, for none.
fn refused(alloc: Global, folders: &[Sub]) -> Option<(Result<Restored, RunFault>, bool)> {
    let mut host = made(alloc, 2, &[], Vec::new(alloc))?;
    for sub in folders {
        give(&mut host, B, *sub, FileName::Version, VERSION).ok()?;
    }
    if folders.is_empty() && B.0 < host.count() {
        host.without_root(B);
    }
    let mut run = Run::of(alloc, host)?;
    let gone = run.drops(B);
    let calls = run.calls();
    let answer = run.restores(alloc, B)?;
    let looked = run.calls().saturating_sub(calls);
    Some((answer, gone && looked == 7))
}

#[test]
fn one_without_a_root_or_of_no_state_is_looked_at_and_refused(rt: HostRuntime) -> Result<(), Fail> {
    let alloc = rt.alloc();
    let it = refused(alloc, &[]);
    assert!(rt; it == Some((Ok(Restored::Missing), true)), "{it:?}");
    let both = [Sub::Previous, Sub::PreviousTmp];
    assert!(rt; refused(alloc, &both) == Some((Ok(Restored::Inconsistent), true)));
    Ok(())
}

// Whether its saved state is given up, which may lack what serves beside it.
fn gives_up(alloc: Global, folders: &[Sub]) -> Option<bool> {
    let mut host = made(alloc, 2, &[], Vec::new(alloc))?;
    for sub in folders {
        give(&mut host, B, *sub, FileName::Version, VERSION).ok()?;
    }
    let mut run = Run::of(alloc, host)?;
    let gone = run.drops(B);
    let answer = run.restores(alloc, B)?;
    let (mut host, _) = run.parts();
    Some(
        gone && answer == Ok(Restored::TakenBack)
            && !has_sub(&mut host, B, Sub::Previous)
            && lists(alloc, &mut host, B, Sub::Current, back()),
    )
}

#[test]
fn a_saved_state_is_given_up_whatever_was_under_way(rt: HostRuntime) -> Result<(), Fail> {
    let alloc = rt.alloc();
    for folders in [
        Sub::Previous,
        Sub::FinalizedTmp,
        Sub::LastCheckpointTmp,
        Sub::PreviousTmp,
    ] {
        assert!(rt; gives_up(alloc, &[folders]) == Some(true), "{folders:?}");
    }
    Ok(())
}

// Whether both are as the answer says, where this call fails.
fn tells(alloc: Global, k: u64, part: Part) -> Option<bool> {
    let fails = Vec::from_array(alloc, [(k, part)]).ok()?;
    let (mut host, journal, answer) = after(alloc, fails)?;
    let last = Some(journal.last().0);
    let (a, b) = (reached(alloc, &mut host, A), reached(alloc, &mut host, B));
    let (first, second) = (journal.live(A), journal.live(B));
    Some(match answer {
        Ok(Restored::TakenBack) => second && b == last && (a == last) == first,
        Ok(Restored::Failed) => first && !second && a == last && b < last,
        Err(RunFault::NoneLeft) => !first && !second,
        _ => false,
    })
}

fn calls_of_one(alloc: Global) -> Option<u64> {
    let (host, _, _) = after(alloc, Vec::new(alloc))?;
    Some(host.calls())
}

#[test]
fn a_call_that_fails_leaves_it_dropped_or_drops_the_other(rt: HostRuntime) -> Result<(), Fail> {
    let alloc = rt.alloc();
    let calls = calls_of_one(alloc).unwrap_or(0);
    let bad = first_bad_failure(DROPPED, calls, |k, part| {
        tells(alloc, k, part) == Some(true)
    });
    assert!(rt; calls > DROPPED + 30 && bad.is_none(), "{bad:?}");
    Ok(())
}

// The first call inside which a stop leaves the live directory without the namespace.
fn bad_stop(alloc: Global) -> Option<Option<u64>> {
    let (host, _, _) = after(alloc, Vec::new(alloc))?;
    Some(first_bad_stop(&host, |left| { reached(alloc, left, A).is_some() }))
}

#[test]
fn a_stop_inside_it_leaves_the_live_one_whole(rt: HostRuntime) -> Result<(), Fail> {
    let bad = bad_stop(rt.alloc());
    assert!(rt; bad == Some(None), "{bad:?}");
    Ok(())
}
