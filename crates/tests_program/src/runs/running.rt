// Runs of `run` over a host in memory, each over what the run before it left.
use super::{has_said, host_of, run, run_line};
use nn_base::{DirNo, FileName, NoMemory, Sub};
use nn_host::Host;
use nn_memhost::{Choice, Keep, MemHost, MemSource, Part};
use std::alloc::Global;
use std::process::Abort;
use std::test::Fail;

// Two directories that were just formatted, where the calls of these numbers fail.
pub(super) fn fresh(
    rt: &impl Abort,
    alloc: Global,
    fails: &[(u64, Part)],
) -> Result<MemHost, NoMemory> {
    let mut host = host_of(rt, alloc, ". .", fails)?;
    let _formatted = run(
        rt,
        alloc,
        "format --cluster c1 --namespace 7 A B",
        &mut host,
    )?;
    Ok(host)
}

// Runs the words over a script, and answers the exit status.
pub(super) fn run_script(
    rt: &impl Abort,
    alloc: Global,
    line: &str,
    script: &str,
    host: &mut MemHost,
) -> Result<u8, NoMemory> {
    let mut source = MemSource::new(Vec::from_slice(alloc, script.as_bytes())?, Vec::new(alloc));
    Ok(run_line(rt, alloc, line, &mut source, host)?)
}

// Two scripts, one after the other over two new directories, and what is said to them. Both stop.
#[derive(Clone, Copy)]
struct Tale {
    words: &'static str,
    script: &'static str,
    next: &'static str,
    said: &'static str,
}

const TALES: [Tale; 8] = [
    Tale {
        words: "run A B",
        script: "",
        next: "list /",
        said: "started 0\nstopped\nstarted 2\nd 16385 0755 hdfs supergroup 0 - - 1 0 /\nok 1\nstopped\n",
    },
    Tale {
        words: "run A B --",
        script: "mkdir /d0\nmkdir /d1\nmkdir /d2\nmkdir /d3\nmkdir /d4\nmkdir /d5\nmkdir /d6\nmkdir /d7\nmkdir /d8\nmkdir /d9\n",
        next: "list /\n",
        said: "started 0\nok\nok\nok\nok\nok\nok\nok\nok\nok\nok\nstopped\nstarted 12\nd 16385 0755 hdfs supergroup 0 - - 11 0 /\nd 16386 0755 hdfs supergroup 0 - - 1 0 /d0\nd 16387 0755 hdfs supergroup 0 - - 1 0 /d1\nd 16388 0755 hdfs supergroup 0 - - 1 0 /d2\nd 16389 0755 hdfs supergroup 0 - - 1 0 /d3\nd 16390 0755 hdfs supergroup 0 - - 1 0 /d4\nd 16391 0755 hdfs supergroup 0 - - 1 0 /d5\nd 16392 0755 hdfs supergroup 0 - - 1 0 /d6\nd 16393 0755 hdfs supergroup 0 - - 1 0 /d7\nd 16394 0755 hdfs supergroup 0 - - 1 0 /d8\nd 16395 0755 hdfs supergroup 0 - - 1 0 /d9\nok 11\nstopped\n",
    },
    Tale {
        words: "run -- A B",
        script: "mkdir /a\nroll\nmkdir /b",
        next: "dirs",
        said: "started 0\nok\nok\nok\nstopped\nstarted 6\ndir 0 live\ndir 1 live\nok\nstopped\n",
    },
    Tale {
        words: "run --at 5 A B",
        script: "mkdir /a\nclock 9\nmkdir /a/b\nmkdir /a\n",
        next: "mkdir /c\nlist /\n",
        said: "started 0\nok\nok\nok\nrefused exists\nstopped\nstarted 4\nok\nd 16385 0755 hdfs supergroup 0 - - 4 0 /\nd 16386 0755 hdfs supergroup 9 - - 2 0 /a\nd 16387 0755 hdfs supergroup 9 - - 1 0 /a/b\nd 16388 0755 hdfs supergroup 0 - - 1 0 /c\nok 4\nstopped\n",
    },
    Tale {
        words: "run A B --at=5",
        script: "create /f 2\nblock /f 50\nclose /f\nlist /f\n",
        next: "delete /f\n",
        said: "started 0\nok\nok\nok\nf 16386 0644 hdfs supergroup 5 2 closed 1 50 /f\nb 1073741825 1001 50\nok 1\nstopped\nstarted 5\nok\nstopped\n",
    },
    Tale {
        words: "run A B",
        script: "finalize\nrestore 2\nmkdri /a\n# none\n\nmkdir a\n",
        next: "",
        said: "started 0\nrefused later\nrefused no-such-dir\nsyntax unknown\nsyntax path relative\nstopped\nstarted 2\nstopped\n",
    },
    Tale {
        words: "run A B",
        script: "mkdir /a\ncheckpoint\nmkdir /b\n",
        next: "list /\ncheckpoint",
        said: "started 0\nok\nok\nok\nstopped\nstarted 6\nd 16385 0755 hdfs supergroup 0 - - 3 0 /\nd 16386 0755 hdfs supergroup 0 - - 1 0 /a\nd 16387 0755 hdfs supergroup 0 - - 1 0 /b\nok 3\nok\nstopped\n",
    },
    Tale {
        words: "run A B",
        script: "roll\nroll\n",
        next: "roll",
        said: "started 0\nok\nok\nstopped\nstarted 6\nok\nstopped\n",
    },
];

#[test]
fn a_run_goes_on_where_the_one_before_it_stopped(rt: HostRuntime) -> Result<(), Fail> {
    let alloc = rt.alloc();
    for (k, tale) in TALES.iter().enumerate() {
        let mut host = fresh(&rt, alloc, &[])?;
        let first = run_script(&rt, alloc, tale.words, tale.script, &mut host)?;
        let second = run_script(&rt, alloc, "run A B", tale.next, &mut host)?;
        let said = format!(in alloc; "formatted 2\n{}", tale.said)?;
        assert!(rt; has_said(&host, said.as_str()), "tale {k}");
        assert_eq!(rt; (first, second, host.starved()), (0, 0, 0), "tale {k}");
    }
    Ok(())
}

// How many bytes a file of `current` has in a directory, or none where it isn't there.
fn size_in(rt: &impl Abort, host: &mut MemHost, i: u8, name: &str) -> Option<u64> {
    assert!(rt; i < host.count());
    let file = FileName::parse(name.as_bytes())?;
    let is_there = host.has_file(DirNo(i), Sub::Current, file).ok()?;
    if !is_there {
        return None;
    }
    let file = FileName::parse(name.as_bytes())?;
    host.size(DirNo(i), Sub::Current, file).ok()
}

#[test]
fn a_run_leaves_finalized_segments_and_the_image_that_it_began_with(
    rt: HostRuntime,
) -> Result<(), Fail> {
    let alloc = rt.alloc();
    let rows = [
        (
            "",
            "edits_0000000000000000001-0000000000000000002",
            Some(42),
        ),
        ("", "edits_inprogress_0000000000000000001", None),
        ("", "seen_txid", Some(2)),
        (
            "mkdir /d0\nmkdir /d1\nmkdir /d2\nmkdir /d3\nmkdir /d4\nmkdir /d5\nmkdir /d6\nmkdir /d7\nmkdir /d8\nmkdir /d9\n",
            "edits_0000000000000000001-0000000000000000012",
            Some(602),
        ),
        (
            "mkdir /a\nroll\nmkdir /b\n",
            "edits_0000000000000000001-0000000000000000003",
            Some(97),
        ),
        (
            "mkdir /a\nroll\nmkdir /b\n",
            "edits_0000000000000000004-0000000000000000006",
            Some(97),
        ),
        ("mkdir /a\nroll\nmkdir /b\n", "seen_txid", Some(2)),
    ];
    for (script, name, size) in rows {
        let mut host = fresh(&rt, alloc, &[])?;
        let status = run_script(&rt, alloc, "run A B", script, &mut host)?;
        assert_eq!(rt; status, 0);
        for i in [0, 1] {
            assert_eq!(rt; size_in(&rt, &mut host, i, name), size, "{script}{name}");
        }
    }
    Ok(())
}

// How many calls a format of two directories makes, and with a run of no script behind it all of them.
pub(super) fn calls_of_an_empty_run(
    rt: &impl Abort,
    alloc: Global,
) -> Result<(u64, u64), NoMemory> {
    let mut host = fresh(rt, alloc, &[])?;
    let formatted = host.calls();
    let _status = run_script(rt, alloc, "run A B", "", &mut host)?;
    Ok((formatted, host.calls()))
}

// A run in which calls fail, counted from the first that its script makes, and the start that follows.
#[derive(Clone, Copy)]
struct FailingRow {
    fails: [(u64, Part); 2],
    script: &'static str,
    said: &'static str,
    codes: (u8, u8),
}

// A call that doesn't come.
const NEVER: u64 = u64::MAX;

// A command appends to a directory and syncs there, and then in the next; the fifth call says its answer.
const FAILING: [FailingRow; 9] = [
    FailingRow {
        fails: [(3, Part::Nothing), (NEVER, Part::Nothing)],
        script: "mkdir /a\ndirs\n",
        said: "started 0\nok\ndir 0 live\ndir 1 dropped\nok\nstopped\nstarted 5\nstopped\n",
        codes: (0, 0),
    },
    FailingRow {
        fails: [(0, Part::Half), (NEVER, Part::Nothing)],
        script: "mkdir /a\ndirs\n",
        said: "started 0\nok\ndir 0 dropped\ndir 1 live\nok\nstopped\nstarted 5\nstopped\n",
        codes: (0, 0),
    },
    FailingRow {
        fails: [(5, Part::Nothing), (6, Part::Nothing)],
        script: "mkdir /a\nmkdir /b\nmkdir /c\n",
        said: "started 0\nok\nnone left\nstarted 2\nstopped\n",
        codes: (4, 0),
    },
    FailingRow {
        fails: [(6, Part::All), (8, Part::All)],
        script: "mkdir /a\nmkdir /b\n",
        said: "started 0\nok\nnone left\nstarted 3\nstopped\n",
        codes: (4, 0),
    },
    // A checkpoint ends the segment by three calls in each, and then writes the image in each.
    FailingRow {
        fails: [(1, Part::Half), (NEVER, Part::Nothing)],
        script: "checkpoint\ndirs\n",
        said: "started 0\nok\ndir 0 dropped\ndir 1 live\nok\nstopped\nstarted 6\nstopped\n",
        codes: (0, 0),
    },
    FailingRow {
        fails: [(18, Part::All), (NEVER, Part::Nothing)],
        script: "checkpoint\ndirs\n",
        said: "started 0\nok\ndir 0 live\ndir 1 dropped\nok\nstopped\nstarted 6\nstopped\n",
        codes: (0, 0),
    },
    FailingRow {
        fails: [(6, Part::Nothing), (7, Part::Nothing)],
        script: "checkpoint\ndirs\n",
        said: "started 0\nnone left\nstarted 2\nstopped\n",
        codes: (4, 0),
    },
    FailingRow {
        fails: [(4, Part::Half), (NEVER, Part::Nothing)],
        script: "mkdir /a\nmkdir /b\n",
        said: "started 0\nostarted 2\nstopped\n",
        codes: (8, 0),
    },
    FailingRow {
        fails: [(6, Part::Half), (NEVER, Part::Nothing)],
        script: "",
        said: "started 0\nstopstarted 2\nstopped\n",
        codes: (8, 0),
    },
];

#[test]
fn a_run_goes_on_while_a_directory_is_left_and_a_start_brings_the_others_back(
    rt: HostRuntime,
) -> Result<(), Fail> {
    let alloc = rt.alloc();
    let (_formatted, all) = calls_of_an_empty_run(&rt, alloc)?;
    // Behind the start an empty run ends a segment in two directories, by three calls each, and says `stopped`.
    let begun = all.saturating_sub(7);
    for (k, row) in FAILING.iter().enumerate() {
        let fails = row
            .fails
            .map(|fail: (u64, Part)| (begun.saturating_add(fail.0), fail.1));
        let mut host = fresh(&rt, alloc, &fails)?;
        let first = run_script(&rt, alloc, "run A B", row.script, &mut host)?;
        let second = run_script(&rt, alloc, "run A B", "", &mut host)?;
        let said = format!(in alloc; "formatted 2\n{}", row.said)?;
        assert!(rt; has_said(&host, said.as_str()), "row {k}");
        assert_eq!(rt; (first, second), row.codes, "row {k}");
    }
    Ok(())
}

#[test]
fn a_run_that_does_not_start_says_why(rt: HostRuntime) -> Result<(), Fail> {
    let alloc = rt.alloc();
    let rows = [
        (". .", "run A B", "refused not-formatted\n", 2),
        ("- .", "run A B", "refused missing 0\n", 2),
        (
            ". RVP",
            "run A B",
            "refused inconsistent 1 rollback-both\n",
            2,
        ),
        ("V", "run A", "refused bad-version 0\n", 2),
        ("", "run", "usage\n", 1),
        ("", "run A A", "usage\n", 1),
        ("", "run --batch 0 A", "usage\n", 1),
        ("", "run --at 1 --at 2 A", "usage\n", 1),
    ];
    for (dirs, words, said, code) in rows {
        let mut host = host_of(&rt, alloc, dirs, &[])?;
        let status = run_script(&rt, alloc, words, "mkdir /a\n", &mut host)?;
        assert!(rt; has_said(&host, said), "{words}");
        assert_eq!(rt; status, code, "{words}");
    }
    let (formatted, _all) = calls_of_an_empty_run(&rt, alloc)?;
    let mut host = fresh(&rt, alloc, &[(formatted, Part::Nothing)])?;
    let status = run_script(&rt, alloc, "run A B", "mkdir /a\n", &mut host)?;
    assert!(rt; has_said(&host, "formatted 2\nfault 0\n"));
    assert_eq!(rt; status, 3);
    Ok(())
}

#[test]
fn a_run_whose_source_fails_has_answered_the_lines_before(rt: HostRuntime) -> Result<(), Fail> {
    let alloc = rt.alloc();
    let rows = [
        (
            0,
            "mkdir /a\n",
            "started 0\nsource fault\nstarted 1\nstopped\n",
        ),
        (
            1,
            "mkdir /a\nmkdir /b",
            "started 0\nok\nsource fault\nstarted 2\nstopped\n",
        ),
    ];
    for (call, script, said) in rows {
        let mut host = fresh(&rt, alloc, &[])?;
        let mut unread = Vec::new(alloc);
        unread.push(call)?;
        let mut source = MemSource::new(Vec::from_slice(alloc, script.as_bytes())?, unread);
        let first = run_line(&rt, alloc, "run A B", &mut source, &mut host)?;
        let second = run_script(&rt, alloc, "run A B", "", &mut host)?;
        let said = format!(in alloc; "formatted 2\n{said}")?;
        assert!(rt; has_said(&host, said.as_str()), "{call}");
        assert_eq!(rt; (first, second), (5, 0), "{call}");
    }
    Ok(())
}

// How many directories a listing names below the root.
pub(super) fn listed(said: &[u8]) -> usize {
    said.split(|byte| *byte == b'\n')
        .filter(|line| line.starts_with(b"d 163") && !line.ends_with(b" /"))
        .count()
}

#[test]
fn a_stop_inside_any_call_of_a_run_leaves_what_the_next_start_opens(
    rt: HostRuntime,
) -> Result<(), Fail> {
    let alloc = rt.alloc();
    let (formatted, _all) = calls_of_an_empty_run(&rt, alloc)?;
    let mut host = fresh(&rt, alloc, &[])?;
    let script = "mkdir /a\nroll\ncheckpoint\nmkdir /b\n";
    let _status = run_script(&rt, alloc, "run A B", script, &mut host)?;
    // All was answered before the last segment is ended, which takes seven calls.
    let answered = host.calls().saturating_sub(7);
    for keep in [Keep::Synced, Keep::Half, Keep::All, Keep::Torn] {
        for k in formatted..host.calls() {
            if let Ok(mut left) = host.stopped_at(k, Choice { done: false, keep }) {
                let status = run_script(&rt, alloc, "run A B", "list /\n", &mut left)?;
                let found = listed(left.said());
                assert_eq!(rt; status, 0, "{k}");
                assert!(rt; found <= 2 && (k < answered || found == 2), "{k}");
            }
        }
    }
    Ok(())
}
