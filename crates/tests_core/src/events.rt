// What is said to lines, and what directories hold behind them, whatever fails.
use crate::run::{A, B, BEGUN, LAYOUT, Run};
use nn_base::{DirNo, FileName, Sub, Txid};
use nn_core::End;
use nn_host::Host;
use nn_memhost::{Choice, Keep, MemHost, Part};
use nn_segment::intact_run;
use nn_small::read_all;
use std::alloc::Global;
use std::test::Fail;

static PARTS: [Part; 3] = [Part::Nothing, Part::Half, Part::All];

static KEEPS: [Keep; 4] = [Keep::Synced, Keep::Half, Keep::All, Keep::Torn];

/// The parts that a call which fails may leave.
pub(crate) fn parts() -> &'static [Part] {
    &PARTS
}

fn keeps() -> &'static [Keep] {
    &KEEPS
}

// Lines with their answers, one after another.
static LINES: [(&str, &str); 15] = [
    ("mkdir /a", "ok\n"),
    ("mkdir /a", "refused exists\n"),
    ("# nothing is asked", ""),
    ("mkdri /b", "syntax unknown\n"),
    ("mkdir a", "syntax path relative\n"),
    ("clock 5", "ok\n"),
    ("mkdir /a/b", "ok\n"),
    ("list /c", "refused not-found\n"),
    ("dirs", "dir 0 live\ndir 1 live\nok\n"),
    ("roll", "ok\n"),
    ("checkpoint", "ok\n"),
    ("finalize", "refused later\n"),
    ("restore 1", "ok\n"),
    ("restore 2", "refused no-such-dir\n"),
    ("delete /a", "ok\n"),
];

fn lines() -> &'static [(&'static str, &'static str)] {
    &LINES
}

// Lines whose answers don't tell which directories are live. Its one checkpoint leaves one image, so no segment goes.
static SCRIPT: [&str; 6] = [
    "mkdir /a",
    "mkdir /a",
    "mkdir /a/b",
    "checkpoint",
    "roll",
    "delete /a",
];

fn script() -> &'static [&'static str] {
    &SCRIPT
}

// The bytes of a file in `current`.
fn bytes(alloc: Global, host: &mut MemHost, i: DirNo, name: &FileName) -> Option<Vec<u8>> {
    if host.count() <= i.0 {
        return None;
    }
    read_all(alloc, host, i, Sub::Current, *name, 65_536).ok()
}

/// The last id that segments of the directory lead to from this one, or None where one begins behind an id that none has.
pub(crate) fn reached(alloc: Global, host: &mut MemHost, i: DirNo, from: u64) -> Option<u64> {
    let mut names = Vec::new(alloc);
    if host.count() <= i.0 || host.list(i, Sub::Current, &mut names).is_err() {
        return None;
    }
    let mut last = from;
    for name in names.iter() {
        let first = match *name {
            FileName::Edits(span) => span.first,
            FileName::InProgress(first) => first.0,
            _ => continue,
        };
        if first.0.saturating_sub(1) > last {
            return None;
        }
        let text = bytes(alloc, host, i, name)?;
        let run = intact_run(alloc, &text, LAYOUT, first).ok()?;
        if let Some(id) = run.last {
            last = last.max(id.0);
        }
    }
    Some(last)
}

#[test]
fn each_line_is_answered_and_each_command_that_is_taken_has_one_record(
    rt: HostRuntime,
) -> Result<(), Fail> {
    let alloc = rt.alloc();
    let mut run = Run::begun(alloc, Vec::new(alloc))?;
    assert!(rt; run.calls() == BEGUN);
    for (line, told) in lines() {
        let from = run.said().len();
        let end = run.answer(alloc, line.as_bytes())?;
        assert!(rt; end.is_none());
        assert!(rt; run.said().get(from..) == Some(told.as_bytes()), "{line}");
    }
    // A mark, two directories made, two marks of the roll and two of the checkpoint, and what was removed.
    let (mut host, core) = run.parts();
    assert!(rt; core.last() == Txid(8));
    for i in [A, B] {
        assert!(rt; core.live(i));
        assert!(rt; reached(alloc, &mut host, i, 0) == Some(8));
    }
    Ok(())
}

// What a run of the script came to where a call fails: how it ended, and what it said.
fn failing(alloc: Global, k: u64, part: Part) -> Result<(Run, Option<End>), Fail> {
    let fails = Vec::from_array(alloc, [(k, part)])?;
    let mut run = Run::begun(alloc, fails)?;
    let end = run.answer_all(alloc, script())?;
    Ok((run, end))
}

#[test]
fn a_call_that_fails_drops_its_directory_and_changes_no_answer_or_fails_an_answer_and_ends_the_run(
    rt: HostRuntime,
) -> Result<(), Fail> {
    let alloc = rt.alloc();
    let mut whole = Run::begun(alloc, Vec::new(alloc))?;
    assert!(rt; whole.answer_all(alloc, script())?.is_none());
    for k in BEGUN..whole.calls() {
        for part in parts() {
            let (run, end) = failing(alloc, k, *part)?;
            if let Some(end) = end {
                assert!(rt; end == End::OutFault, "{k} {part:?}");
                assert!(rt; whole.said().starts_with(run.said()), "{k} {part:?}");
                continue;
            }
            assert!(rt; run.said() == whole.said(), "{k} {part:?}");
            let (mut host, core) = run.parts();
            assert!(rt; core.live(A) != core.live(B), "{k} {part:?}");
            let (stays, gone) = if core.live(A) { (A, B) } else { (B, A) };
            let high = reached(alloc, &mut host, stays, 0);
            assert!(rt; high == Some(core.last().0), "{k} {part:?}");
            let low = reached(alloc, &mut host, gone, 0);
            assert!(rt; low.is_some_and(|id| id < core.last().0), "{k} {part:?}");
        }
    }
    Ok(())
}

#[test]
fn a_command_is_not_answered_where_no_directory_is_left(rt: HostRuntime) -> Result<(), Fail> {
    let alloc = rt.alloc();
    for first in 0..2u64 {
        let fails = Vec::from_array(
            alloc,
            [
                (BEGUN + first, Part::Nothing),
                (BEGUN + first + 1, Part::Nothing),
            ],
        )?;
        let mut run = Run::begun(alloc, fails)?;
        let end = run.answer_all(alloc, script())?;
        assert!(rt; end == Some(End::NoneLeft), "{first}");
        assert!(rt; run.said().is_empty());
        let (_, core) = run.parts();
        assert!(rt; !core.live(A) && !core.live(B));
    }
    Ok(())
}

#[test]
fn a_stop_at_any_call_leaves_in_each_directory_the_records_of_all_that_was_answered(
    rt: HostRuntime,
) -> Result<(), Fail> {
    let alloc = rt.alloc();
    let mut run = Run::begun(alloc, Vec::new(alloc))?;
    // How many calls there were as each line was answered, and its last id.
    let mut answered = Vec::new(alloc);
    for line in script() {
        assert!(rt; run.answer(alloc, line.as_bytes())?.is_none());
        answered.push((run.calls(), run.last().0))?;
    }
    let (host, _) = run.parts();
    for k in BEGUN..host.calls() {
        for done in [false, true] {
            for keep in keeps() {
                let mut left = host.stopped_at(k, Choice { done, keep: *keep })?;
                let a = reached(alloc, &mut left, A, 0).ok_or("a gap")?;
                let b = reached(alloc, &mut left, B, 0).ok_or("a gap")?;
                for (calls, last) in answered.iter() {
                    assert!(rt; k < *calls || (*last <= a && *last <= b), "{k}");
                }
            }
        }
    }
    Ok(())
}
