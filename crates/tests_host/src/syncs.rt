// Which changes and syncs each call on a real folder makes, in their order, by a runtime that writes them down.
use crate::acting::{DIR, act, host_of, made_root, name_of};
use crate::recorder::{Record, Recorder};
use nn_base::Sub;
use nn_host::{Failed, Host};
use std::alloc::Global;
use std::cell::RefCell;
use std::process;
use std::process::Abort;
use std::rt::{Env, Files};
use std::test::Fail;

// The calls before, one of them each line, the call, and its changes and syncs. A name that was changed is followed by the
// sync of the folder that holds it; `.` is the directory itself.
static ROWS: [(&str, &str, &str); 24] = [
    ("", "make current", "mkdir current, fsync ."),
    ("make current", "make current", ""),
    ("", "file current VERSION", ""),
    (
        "make current",
        "file current VERSION",
        "create current/VERSION, fsync current/VERSION, fsync current",
    ),
    (
        "make current|file current VERSION|append current VERSION abc",
        "file current VERSION",
        "create current/VERSION, fsync current/VERSION, fsync current",
    ),
    ("make current", "append current VERSION abc", ""),
    (
        "make current|file current VERSION",
        "append current VERSION abc",
        "open current/VERSION, write current/VERSION",
    ),
    (
        "make current|file current VERSION|append current VERSION abc",
        "append current VERSION de",
        "open current/VERSION, write current/VERSION",
    ),
    (
        "make current|file current VERSION|append current VERSION abc",
        "sync current VERSION",
        "fdatasync current/VERSION",
    ),
    ("make current", "sync current VERSION", ""),
    (
        "make current|file current INPROGRESS",
        "append current INPROGRESS one",
        "open current/edits_inprogress_0000000000000000001, write current/edits_inprogress_0000000000000000001",
    ),
    // The segment in progress stays open for its appends and syncs.
    (
        "make current|file current INPROGRESS|append current INPROGRESS one",
        "append current INPROGRESS two",
        "write current/edits_inprogress_0000000000000000001",
    ),
    (
        "make current|file current INPROGRESS|append current INPROGRESS one",
        "sync current INPROGRESS",
        "fdatasync current/edits_inprogress_0000000000000000001",
    ),
    (
        "make current|file current INPROGRESS|append current INPROGRESS one",
        "rename current INPROGRESS EDITS",
        "rename current/edits_inprogress_0000000000000000001 to current/edits_0000000000000000001-0000000000000000002, fsync current",
    ),
    (
        "make current|file current VERSION",
        "rename current VERSION seen_txid",
        "rename current/VERSION to current/seen_txid, fsync current",
    ),
    ("make current", "rename current VERSION seen_txid", ""),
    (
        "make current",
        "move current previous",
        "rename current to previous, fsync .",
    ),
    ("make current|make previous", "move current previous", ""),
    ("make previous.tmp", "move current previous", ""),
    (
        "make current|file current VERSION",
        "remove current VERSION",
        "unlink current/VERSION, fsync current",
    ),
    ("make current", "remove current VERSION", ""),
    (
        "make current|file current VERSION",
        "drop current",
        "rmtree current, fsync .",
    ),
    ("", "drop current", ""),
    (
        "make previous|file previous VERSION|make current|file current seen_txid",
        "settle",
        "fsync current/seen_txid, fsync current, fsync previous/VERSION, fsync previous, fsync .",
    ),
];

// The table, by reference: a function that named it would be proved with each of its rows.
fn rows() -> &'static [(&'static str, &'static str, &'static str)] {
    &ROWS
}

#[test]
fn a_changed_name_is_synced_with_its_folder_before_the_call_returns(
    rt: HostRuntime,
) -> Result<(), Fail> {
    let process = process::id(rt.process());
    for &(before, call, wanted) in rows() {
        let (calls, outcome) = recorded(&rt, rt.alloc(), process, (before, call), usize::MAX)?;
        assert!(rt; outcome.is_ok(), "{call}");
        assert_eq!(rt; calls.as_str(), wanted, "{call}");
    }
    Ok(())
}

#[test]
fn a_change_or_sync_that_fails_fails_the_call_and_is_its_last(rt: HostRuntime) -> Result<(), Fail> {
    let process = process::id(rt.process());
    for &(before, call, wanted) in rows() {
        let count = match wanted.is_empty() {
            true => 0,
            false => wanted.split(", ").count(),
        };
        for lasts in 0..count {
            let (calls, outcome) = recorded(&rt, rt.alloc(), process, (before, call), lasts)?;
            assert_eq!(rt; outcome, Err(Failed), "{call}");
            assert_eq!(rt; calls.split(", ").count(), lasts + 1, "{call}");
            assert!(rt; wanted.starts_with(calls.as_str()), "{call}");
        }
    }
    Ok(())
}

#[test]
fn an_append_goes_on_behind_a_write_that_took_a_part(rt: HostRuntime) -> Result<(), Fail> {
    let root = made_root(&rt, rt.alloc(), "parts", process::id(rt.process()))?;
    let record = RefCell::new(Record::new(rt.alloc(), root.as_str())?);
    let runtime = Recorder {
        rt: &rt,
        alloc: rt.alloc(),
        record: &record,
    };
    let mut host = host_of(runtime, rt.alloc(), root.as_str())?;
    for call in [
        "make current",
        "file current INPROGRESS",
        "append current INPROGRESS one",
    ] {
        act(&rt, &mut host, call)?;
    }
    if let Ok(mut record) = record.try_borrow_mut() {
        record.begin(usize::MAX);
        record.shorten(2);
    }
    act(&rt, &mut host, "append current INPROGRESS three")?;
    assert!(rt; 0 < host.count());
    let mut held = [0; 16];
    let count = host.read_at(DIR, Sub::Current, name_of("INPROGRESS"), 0, &mut held)?;
    assert_eq!(rt; held.get(..count), Some(b"onethree".as_slice()));
    if let Ok(record) = record.try_borrow() {
        assert_eq!(rt; record.calls().split(", ").count(), 3);
    }
    rt.remove_dir_all(rt.alloc(), root.as_str())?;
    Ok(())
}

#[test]
fn a_segment_that_someone_took_away_fails_as_it_gets_its_last_name(
    rt: HostRuntime,
) -> Result<(), Fail> {
    let root = made_root(&rt, rt.alloc(), "taken", process::id(rt.process()))?;
    let mut host = host_of(&rt, rt.alloc(), root.as_str())?;
    // One that is open is missed, and one that the host never had is none.
    for (before, answer) in [
        ("append current INPROGRESS one", Err(Failed)),
        ("sync current INPROGRESS", Ok(())),
    ] {
        for call in ["make current", "file current INPROGRESS", before] {
            act(&rt, &mut host, call)?;
        }
        rt.remove_dir_all(
            rt.alloc(),
            format!(in rt.alloc(); "{root}/current")?.as_str(),
        )?;
        let outcome = act(&rt, &mut host, "rename current INPROGRESS EDITS");
        assert_eq!(rt; outcome, answer, "{before}");
    }
    rt.remove_dir_all(rt.alloc(), root.as_str())?;
    Ok(())
}

// The changes and syncs of a call after those before it, in a folder of its own, and its answer. So many are done before one
// fails.
fn recorded<R: Files + Env + Alloc + Abort + Print + Eprint>(
    rt: &R,
    alloc: Global,
    process: u32,
    row: (&str, &str),
    lasts: usize,
) -> Result<(String, Result<(), Failed>), Fail> {
    let (before, call) = row;
    let root = made_root(rt, alloc, "syncs", process)?;
    let record = RefCell::new(Record::new(alloc, root.as_str())?);
    let runtime = Recorder {
        rt,
        alloc,
        record: &record,
    };
    let mut host = host_of(runtime, alloc, root.as_str())?;
    for line in before.split('|') {
        if !line.is_empty() {
            act(rt, &mut host, line)?;
        }
    }
    if let Ok(mut record) = record.try_borrow_mut() {
        record.begin(lasts);
    }
    let outcome = act(rt, &mut host, call);
    rt.remove_dir_all(alloc, root.as_str())?;
    match record.try_borrow() {
        Ok(record) => Ok((String::from_str(alloc, record.calls())?, outcome)),
        Err(_) => Err(Fail::new("the record is in use")),
    }
}
