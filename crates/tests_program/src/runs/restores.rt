// Lines that take a dropped directory back: what they are answered, what they leave, and what a call that fails in one does.
use super::running::{calls_of_an_empty_run, fresh, listed, run_script};
use super::{has_said, host_of, run};
use nn_base::{DirNo, FileName, NoMemory, Sub};
use nn_memhost::{Choice, Keep, MemHost, Part};
use std::alloc::Global;
use std::process::Abort;
use std::test::Fail;
use tests_kit::{has, lists};

// A run over two directories in which calls fail, counted from the first that its script makes, and a start behind it.
#[derive(Clone, Copy)]
struct Row {
    fails: [(u64, Part); 2],
    script: &'static str,
    said: &'static str,
    code: u8,
}

// A call that doesn't come.
const NEVER: u64 = u64::MAX;

// The second directory fails as the first command is synced in it, by the fourth call. Ending the first's segment and beginning
// its next takes ten calls more, and then the answer is said.
const ROWS: [Row; 7] = [
    Row {
        fails: [(NEVER, Part::Nothing), (NEVER, Part::Nothing)],
        script: "restore 0\nrestore 2\nrestore 1\nrestore 18446744073709551615\nrestore x\n",
        said: "started 0\nok\nrefused no-such-dir\nok\nsyntax number\nsyntax number\nstopped\nstarted 2\nstopped\n",
        code: 0,
    },
    Row {
        fails: [(3, Part::Nothing), (NEVER, Part::Nothing)],
        script: "mkdir /a\ndirs\nrestore 1\ndirs\n",
        said: "started 0\nok\ndir 0 live\ndir 1 dropped\nok\nok\ndir 0 live\ndir 1 live\nok\nstopped\nstarted 7\nstopped\n",
        code: 0,
    },
    Row {
        fails: [(3, Part::Nothing), (NEVER, Part::Nothing)],
        script: "mkdir /a\nrestore 0\nrestore 1\nrestore 1\nmkdir /b\n",
        said: "started 0\nok\nok\nok\nok\nok\nstopped\nstarted 8\nstopped\n",
        code: 0,
    },
    Row {
        fails: [(3, Part::Nothing), (16, Part::Nothing)],
        script: "mkdir /a\ndirs\nrestore 1\ndirs\n",
        said: "started 0\nok\ndir 0 live\ndir 1 dropped\nok\nrefused failed\ndir 0 live\ndir 1 dropped\nok\nstopped\nstarted 5\nstopped\n",
        code: 0,
    },
    Row {
        fails: [(3, Part::Nothing), (15, Part::Nothing)],
        script: "mkdir /a\nrestore 1\nrestore 1\ndirs\n",
        said: "started 0\nok\nrefused failed\nok\ndir 0 live\ndir 1 live\nok\nstopped\nstarted 7\nstopped\n",
        code: 0,
    },
    Row {
        fails: [(0, Part::Nothing), (NEVER, Part::Nothing)],
        script: "mkdir /a\nrestore 0\ndirs\n",
        said: "started 0\nok\nok\ndir 0 live\ndir 1 live\nok\nstopped\nstarted 7\nstopped\n",
        code: 0,
    },
    Row {
        fails: [(3, Part::Nothing), (NEVER, Part::Nothing)],
        script: "mkdir /a\nrestore 1\ncheckpoint\nmkdir /b\nlist /\n",
        said: "started 0\nok\nok\nok\nok\nd 16385 0755 hdfs supergroup 0 - - 3 0 /\nd 16386 0755 hdfs supergroup 0 - - 1 0 /a\nd 16387 0755 hdfs supergroup 0 - - 1 0 /b\nok 3\nstopped\nstarted 10\nstopped\n",
        code: 0,
    },
];

#[test]
fn a_dropped_directory_is_taken_back_by_its_line_or_the_line_says_why_not(
    rt: HostRuntime,
) -> Result<(), Fail> {
    let alloc = rt.alloc();
    let (_formatted, all) = calls_of_an_empty_run(&rt, alloc)?;
    let begun = all.saturating_sub(7);
    for (k, row) in ROWS.iter().enumerate() {
        let fails = row
            .fails
            .map(|fail: (u64, Part)| (begun.saturating_add(fail.0), fail.1));
        let mut host = fresh(&rt, alloc, &fails)?;
        let first = run_script(&rt, alloc, "run A B", row.script, &mut host)?;
        let second = run_script(&rt, alloc, "run A B", "", &mut host)?;
        let said = format!(in alloc; "formatted 2\n{}", row.said)?;
        assert!(rt; has_said(&host, said.as_str()), "row {k}");
        assert_eq!(rt; (first, second), (row.code, 0), "row {k}");
    }
    Ok(())
}

// What the directory that was dropped holds at the end of a run that took it back, and what the other one does.
static BACK: [&str; 5] = [
    "VERSION",
    "edits_6-7",
    "fsimage_5",
    "fsimage_5.md5",
    "seen_txid",
];

static STAYED: [&str; 7] = [
    "VERSION",
    "edits_1-3",
    "edits_4-5",
    "edits_6-7",
    "fsimage_0",
    "fsimage_0.md5",
    "seen_txid",
];

fn back() -> &'static [&'static str] {
    &BACK
}

fn stayed() -> &'static [&'static str] {
    &STAYED
}

#[test]
fn a_directory_that_was_taken_back_has_the_image_and_the_segments_behind_it(
    rt: HostRuntime,
) -> Result<(), Fail> {
    let alloc = rt.alloc();
    let (_formatted, all) = calls_of_an_empty_run(&rt, alloc)?;
    let failed = all.saturating_sub(4);
    let mut host = fresh(&rt, alloc, &[(failed, Part::Nothing)])?;
    let status = run_script(&rt, alloc, "run A B", "mkdir /a\nrestore 1\n", &mut host)?;
    assert_eq!(rt; status, 0);
    assert!(rt; lists(alloc, &mut host, DirNo(0), Sub::Current, stayed()));
    assert!(rt; lists(alloc, &mut host, DirNo(1), Sub::Current, back()));
    assert!(rt;
        has(
            alloc,
            &mut host,
            DirNo(1),
            Sub::Current,
            FileName::Seen,
            b"6\n"
        )
    );
    Ok(())
}

// ---- a call that fails in such a line, or inside which the run stops

const WORDS: &str = "run A B C";

// Three directories that were just formatted, where the calls of these numbers fail.
fn three(rt: &impl Abort, alloc: Global, fails: &[(u64, Part)]) -> Result<MemHost, NoMemory> {
    let mut host = host_of(rt, alloc, ". . .", fails)?;
    let _formatted = run(
        rt,
        alloc,
        "format --cluster c1 --namespace 7 A B C",
        &mut host,
    )?;
    Ok(host)
}

// Which call drops the second directory, as the first command is synced in it; and where the calls of the line that takes it back
// begin and end.
#[derive(Clone, Copy)]
struct Line {
    drop: u64,
    begins: u64,
    ends: u64,
}

// A run ends a segment by three calls in each live directory, and says `stopped`.
fn calls_of(
    rt: &impl Abort,
    alloc: Global,
    fails: &[(u64, Part)],
    script: &str,
    live: u64,
) -> Result<u64, NoMemory> {
    let mut host = three(rt, alloc, fails)?;
    let _status = run_script(rt, alloc, WORDS, script, &mut host)?;
    Ok(
        host.calls()
            .saturating_sub(3u64.saturating_mul(live))
            .saturating_sub(1),
    )
}

fn line_of(rt: &impl Abort, alloc: Global) -> Result<Line, NoMemory> {
    let drop = calls_of(rt, alloc, &[], "", 3)?.saturating_add(3);
    let fails = [(drop, Part::Nothing)];
    Ok(Line {
        drop,
        begins: calls_of(rt, alloc, &fails, "mkdir /a\n", 2)?,
        ends: calls_of(rt, alloc, &fails, "mkdir /a\nrestore 1\n", 3)?,
    })
}

// What is said behind the first command where one call fails in the line: another directory is dropped by it, or this one stays so.
static FAILED: [&str; 3] = [
    "refused failed\nok\ndir 0 live\ndir 1 dropped\ndir 2 live\nok\nstopped\n",
    "ok\nok\ndir 0 dropped\ndir 1 live\ndir 2 live\nok\nstopped\n",
    "ok\nok\ndir 0 live\ndir 1 live\ndir 2 dropped\nok\nstopped\n",
];

fn failed() -> &'static [&'static str] {
    &FAILED
}

// Which of these was said where this call fails, if any was, and how many directories the next start finds.
fn failing(
    rt: &impl Abort,
    alloc: Global,
    fails: &[(u64, Part)],
) -> Result<(Option<usize>, usize), NoMemory> {
    let mut host = three(rt, alloc, fails)?;
    let script = "mkdir /a\nrestore 1\nmkdir /b\ndirs\n";
    let _status = run_script(rt, alloc, WORDS, script, &mut host)?;
    let rest = host
        .said()
        .strip_prefix(b"formatted 3\nstarted 0\nok\n".as_slice())
        .unwrap_or(b"");
    let which = failed().iter().position(|text| rest == text.as_bytes());
    let from = host.said().len();
    let _status = run_script(rt, alloc, WORDS, "list /\n", &mut host)?;
    let found = listed(host.said().get(from..).unwrap_or(b""));
    Ok((which, found))
}

#[test]
fn a_call_that_fails_as_a_directory_is_taken_back_drops_the_one_it_was_made_on(
    rt: HostRuntime,
) -> Result<(), Fail> {
    let alloc = rt.alloc();
    let line = line_of(&rt, alloc)?;
    let mut seen = [0u64; 3];
    // The last call says the answer.
    for k in line.begins..line.ends.saturating_sub(1) {
        for part in [Part::Nothing, Part::Half, Part::All] {
            let fails = [(line.drop, Part::Nothing), (k, part)];
            let (which, found) = failing(&rt, alloc, &fails)?;
            assert!(rt; found == 2, "{k}");
            let Some(place) = which.and_then(|at| seen.get_mut(at)) else {
                return Err("neither dropped nor failed")?;
            };
            *place = place.saturating_add(1);
        }
    }
    assert!(rt; seen.iter().all(|times| *times > 0));
    Ok(())
}

#[test]
fn a_stop_as_a_directory_is_taken_back_leaves_what_the_next_start_opens(
    rt: HostRuntime,
) -> Result<(), Fail> {
    let alloc = rt.alloc();
    let line = line_of(&rt, alloc)?;
    let mut host = three(&rt, alloc, &[(line.drop, Part::Nothing)])?;
    let _status = run_script(&rt, alloc, WORDS, "mkdir /a\nrestore 1\n", &mut host)?;
    for keep in [Keep::Synced, Keep::Half, Keep::All, Keep::Torn] {
        for done in [false, true] {
            for k in line.begins..host.calls() {
                if let Ok(mut left) = host.stopped_at(k, Choice { done, keep }) {
                    let status = run_script(&rt, alloc, WORDS, "list /\n", &mut left)?;
                    assert_eq!(rt; status, 0, "{k}");
                    assert!(rt; listed(left.said()) == 1, "{k}");
                }
            }
        }
    }
    Ok(())
}
