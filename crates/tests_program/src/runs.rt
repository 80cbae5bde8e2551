// Whole runs over a host in memory.
ghost use Rattle.std.specs.Prelude.{◌≡◌, ◌≤◌, ◌<◌, OnOk};
ghost use Rattle.nn_memhost.specs.Mem.{mem_state};

mod checkpoints;
mod generate;
mod restores;
mod running;
mod scripts;

use nn_base::{DirNo, FileName, NoMemory, Sub};
use nn_host::Host;
use nn_memhost::{Choice, Keep, MemHost, MemSource, Part, StopFault};
use nn_top::{command_of, exit_code};
use std::alloc::{AllocError, Global};
use std::process::Abort;
use std::test::Fail;

// A run: what stands in each directory, the words, what is said and the exit status.
#[derive(Clone, Copy)]
struct Row {
    dirs: &'static str,
    words: &'static str,
    said: &'static str,
    code: u8,
}

// Each letter of a directory is a file in it: V and S are VERSION and `seen_txid` in `current`, P one in `previous`,
// U, R, F and L one in the temporary folder of an upgrade, a rollback, a finalize and an import. `.` is an empty directory
// and `-` none.
const ROWS: [Row; 17] = [
    Row {
        dirs: ". V -",
        words: "state A B C",
        said: "0 NOT_FORMATTED\n1 NORMAL\n2 NON_EXISTENT\nrefused missing 2\n",
        code: 2,
    },
    Row {
        dirs: "RVP",
        words: "state A",
        said: "0 inconsistent rollback-both\nrefused inconsistent 0 rollback-both\n",
        code: 2,
    },
    Row {
        dirs: "S",
        words: "state A",
        said: "0 NOT_FORMATTED\n",
        code: 0,
    },
    Row {
        dirs: "V P - UF",
        words: "state A B C D",
        said: "0 NORMAL\n1 inconsistent previous-alone\n2 NON_EXISTENT\n3 inconsistent several-tmp\nrefused inconsistent 1 previous-alone\n",
        code: 2,
    },
    Row {
        dirs: "VU U VL L VR PR VF F",
        words: "state a b c d e f g h --",
        said: "0 COMPLETE_UPGRADE\n1 RECOVER_UPGRADE\n2 COMPLETE_CHECKPOINT\n3 RECOVER_CHECKPOINT\n4 COMPLETE_ROLLBACK\n5 RECOVER_ROLLBACK\n6 COMPLETE_FINALIZE\n7 COMPLETE_FINALIZE\n",
        code: 0,
    },
    Row {
        dirs: "",
        words: "state",
        said: "usage\n",
        code: 1,
    },
    Row {
        dirs: "",
        words: "state A A",
        said: "usage\n",
        code: 1,
    },
    Row {
        dirs: "",
        words: "state -x A",
        said: "usage\n",
        code: 1,
    },
    Row {
        dirs: "V",
        words: "state A --",
        said: "0 NORMAL\n",
        code: 0,
    },
    Row {
        dirs: ".",
        words: "format --cluster=c1 --namespace 7 A",
        said: "formatted 1\n",
        code: 0,
    },
    Row {
        dirs: ". S . . . . . .",
        words: "format a b c d e f g h --namespace=2147483647 --cluster c1 --",
        said: "formatted 8\n",
        code: 0,
    },
    Row {
        dirs: "",
        words: "format --cluster c1 A",
        said: "usage\n",
        code: 1,
    },
    Row {
        dirs: "",
        words: "format --cluster c1 --namespace 0 A",
        said: "usage\n",
        code: 1,
    },
    Row {
        dirs: "V",
        words: "format --cluster=c1 --namespace 7 A",
        said: "refused formatted 0\n",
        code: 2,
    },
    Row {
        dirs: ". - V",
        words: "format --cluster=c1 --namespace 7 A B C",
        said: "refused missing 1\n",
        code: 2,
    },
    Row {
        dirs: ". RVP -",
        words: "format --cluster=c1 --namespace 7 A B C",
        said: "refused inconsistent 1 rollback-both\n",
        code: 2,
    },
    Row {
        dirs: ". U",
        words: "format --cluster=c1 --namespace 7 A B",
        said: "refused formatted 1\n",
        code: 2,
    },
];

#[test]
fn each_run_says_its_lines_and_ends_by_its_status(rt: HostRuntime) -> Result<(), Fail> {
    for (k, row) in ROWS.into_iter().enumerate() {
        let mut host = host_of(&rt, rt.alloc(), row.dirs, &[])?;
        let status = run(&rt, rt.alloc(), row.words, &mut host)?;
        assert!(rt; has_said(&host, row.said), "row {k}");
        assert_eq!(rt; status, row.code, "row {k}");
        assert_eq!(rt; host.starved(), 0);
    }
    Ok(())
}

// What is said of a directory that holds VERSION in `current` (1), `previous` (2), and the temporary folders of an
// upgrade (4), a rollback (8), a finalize (16) and an import (32): the place in this table is the sum.
const STATES: [&str; 64] = [
    "NOT_FORMATTED",
    "NORMAL",
    "inconsistent previous-alone",
    "NORMAL",
    "RECOVER_UPGRADE",
    "COMPLETE_UPGRADE",
    "inconsistent upgrade-and-previous",
    "inconsistent upgrade-and-previous",
    "inconsistent rollback-neither",
    "COMPLETE_ROLLBACK",
    "RECOVER_ROLLBACK",
    "inconsistent rollback-both",
    "inconsistent several-tmp",
    "inconsistent several-tmp",
    "inconsistent several-tmp",
    "inconsistent several-tmp",
    "COMPLETE_FINALIZE",
    "COMPLETE_FINALIZE",
    "inconsistent finalized-and-previous",
    "inconsistent finalized-and-previous",
    "inconsistent several-tmp",
    "inconsistent several-tmp",
    "inconsistent several-tmp",
    "inconsistent several-tmp",
    "inconsistent several-tmp",
    "inconsistent several-tmp",
    "inconsistent several-tmp",
    "inconsistent several-tmp",
    "inconsistent several-tmp",
    "inconsistent several-tmp",
    "inconsistent several-tmp",
    "inconsistent several-tmp",
    "RECOVER_CHECKPOINT",
    "COMPLETE_CHECKPOINT",
    "RECOVER_CHECKPOINT",
    "COMPLETE_CHECKPOINT",
    "inconsistent several-tmp",
    "inconsistent several-tmp",
    "inconsistent several-tmp",
    "inconsistent several-tmp",
    "inconsistent several-tmp",
    "inconsistent several-tmp",
    "inconsistent several-tmp",
    "inconsistent several-tmp",
    "inconsistent several-tmp",
    "inconsistent several-tmp",
    "inconsistent several-tmp",
    "inconsistent several-tmp",
    "inconsistent several-tmp",
    "inconsistent several-tmp",
    "inconsistent several-tmp",
    "inconsistent several-tmp",
    "inconsistent several-tmp",
    "inconsistent several-tmp",
    "inconsistent several-tmp",
    "inconsistent several-tmp",
    "inconsistent several-tmp",
    "inconsistent several-tmp",
    "inconsistent several-tmp",
    "inconsistent several-tmp",
    "inconsistent several-tmp",
    "inconsistent several-tmp",
    "inconsistent several-tmp",
    "inconsistent several-tmp",
];

const LETTERS: [(usize, &str); 6] = [(1, "V"), (2, "P"), (4, "U"), (8, "R"), (16, "F"), (32, "L")];

#[test]
fn each_mix_of_folders_has_the_state_of_the_table(rt: HostRuntime) -> Result<(), Fail> {
    for (mix, state) in STATES.iter().enumerate() {
        for is_there in [true, false] {
            let mut letters = String::from_str(rt.alloc(), ".")?;
            for (bit, letter) in LETTERS {
                if mix / bit % 2 == 1 {
                    letters.push_str(letter)?;
                }
            }
            if !is_there {
                letters.push_str("-")?;
            }
            let mut host = host_of(&rt, rt.alloc(), letters.as_str(), &[])?;
            let _status = run(&rt, rt.alloc(), "state A", &mut host)?;
            let state = if is_there { *state } else { "NON_EXISTENT" };
            let line = format!(in rt.alloc(); "0 {state}\n")?;
            assert!(rt; host.said().starts_with(line.as_bytes()), "{letters}");
        }
    }
    Ok(())
}

#[test]
fn a_failed_call_ends_the_run_where_it_came(rt: HostRuntime) -> Result<(), Fail> {
    // The seven questions and the line of the first directory are the calls 0 to 7.
    let failing: [(&str, u64, &str, u8); 5] = [
        (". .", 3, "fault 0\n", 3),
        (". .", 10, "0 NOT_FORMATTED\nfault 1\n", 3),
        (". -", 10, "0 NOT_FORMATTED\nfault 1\n", 3),
        (". .", 7, "0 NOT_FO", 8),
        (". -", 16, "0 NOT_FORMATTED\n1 NON_EXISTENT\nrefused m", 8),
    ];
    for (dirs, call, said, code) in failing {
        let mut host = host_of(&rt, rt.alloc(), dirs, &[(call, Part::Half)])?;
        let status = run(&rt, rt.alloc(), "state A B", &mut host)?;
        assert_eq!(rt; status, code, "{call}");
        assert!(rt; has_said(&host, said), "{call}");
    }
    Ok(())
}

#[test]
fn a_format_that_fails_leaves_the_directories_before_it_formatted(
    rt: HostRuntime,
) -> Result<(), Fail> {
    // Each directory is settled and asked seven questions, the calls 0 to 15. Then the first takes nineteen calls, and the
    // second is cleared, gets `current`, and its image is made, filled and synced.
    let failing: [(u64, Part, &str, u8); 4] = [
        (40, Part::Nothing, "fault 1\n0 NORMAL\n1 NOT_FORMATTED\n", 3),
        (
            8,
            Part::All,
            "fault 1\n0 NOT_FORMATTED\n1 NOT_FORMATTED\n",
            3,
        ),
        (53, Part::All, "fault 1\n0 NORMAL\n1 NORMAL\n", 3),
        (54, Part::Half, "format0 NORMAL\n1 NORMAL\n", 8),
    ];
    for (call, part, said, code) in failing {
        let mut host = host_of(&rt, rt.alloc(), ". .", &[(call, part)])?;
        let status = run(
            &rt,
            rt.alloc(),
            "format --cluster c1 --namespace 7 A B",
            &mut host,
        )?;
        assert_eq!(rt; status, code, "{call}");
        let _status = run(&rt, rt.alloc(), "state A B", &mut host)?;
        assert!(rt; has_said(&host, said), "{call}");
    }
    Ok(())
}

#[test]
fn a_stop_inside_any_call_of_a_format_leaves_the_directory_as_it_was_or_formatted(
    rt: HostRuntime,
) -> Result<(), Fail> {
    let mut host = host_of(&rt, rt.alloc(), ".", &[])?;
    let _status = run(
        &rt,
        rt.alloc(),
        "format --cluster=c1 --namespace 7 A",
        &mut host,
    )?;
    for keep in [Keep::Synced, Keep::Half, Keep::All, Keep::Torn] {
        for done in [false, true] {
            let choice = Choice { done, keep };
            for k in 0..host.calls() {
                assert!(rt;
                    leaves_old_or_new(&rt, rt.alloc(), &host, k, choice)?,
                    "{k}"
                );
            }
            assert!(rt;
                matches!(
                    host.stopped_at(host.calls(), choice),
                    Err(StopFault::NoSuchCall)
                )
            );
        }
    }
    Ok(())
}

fn leaves_old_or_new(
    rt: &impl Abort,
    alloc: Global,
    host: &MemHost,
    k: u64,
    choice: Choice,
) -> Result<bool, AllocError> {
    match host.stopped_at(k, choice) {
        Ok(mut left) => {
            let _status = run(rt, alloc, "state A", &mut left)?;
            Ok(has_said(&left, "0 NOT_FORMATTED\n") || has_said(&left, "0 NORMAL\n"))
        }
        Err(_) => Ok(false),
    }
}

fn has_said(host: &MemHost, said: &str) -> bool {
    host.said() == said.as_bytes()
}

// A host whose directories hold what the letters say, and whose calls of these numbers fail.
fn host_of(
    rt: &impl Abort,
    alloc: Global,
    dirs: &str,
    failing: &[(u64, Part)],
) -> Result<MemHost, NoMemory> {
    let mut fails = Vec::new(alloc);
    for fail in failing {
        fails.push(*fail)?;
    }
    let count = dirs
        .split(' ')
        .filter(|letters| !letters.is_empty())
        .count();
    assert!(rt; count <= 8);
    let mut host = MemHost::new(alloc, count as u8, fails)?;
    for (i, letters) in dirs.split(' ').enumerate() {
        assert!(rt; i < 8);
        for letter in letters.bytes() {
            give(rt, &mut host, DirNo(i as u8), letter)?;
        }
    }
    Ok(host)
}

fn give(rt: &impl Abort, host: &mut MemHost, i: DirNo, letter: u8) -> Result<(), NoMemory> {
    assert!(rt; i.0 < host.count());
    let (sub, name) = match letter {
        b'.' => return Ok(()),
        b'V' => (Sub::Current, FileName::Version),
        b'S' => (Sub::Current, FileName::Seen),
        b'P' => (Sub::Previous, FileName::Version),
        b'U' => (Sub::PreviousTmp, FileName::Version),
        b'R' => (Sub::RemovedTmp, FileName::Version),
        b'F' => (Sub::FinalizedTmp, FileName::Version),
        b'L' => (Sub::LastCheckpointTmp, FileName::Version),
        _ => {
            host.without_root(i);
            return Ok(());
        }
    };
    host.with_file(i, sub, name, b"")
}

// Runs the words over a host that has as many directories as they name, without a script, and answers the exit status.
fn run(rt: &impl Abort, alloc: Global, line: &str, host: &mut MemHost) -> Result<u8, AllocError> {
    let mut none = MemSource::new(Vec::new(alloc), Vec::new(alloc));
    run_line(rt, alloc, line, &mut none, host)
}

fn run_line(
    rt: &impl Abort,
    alloc: Global,
    line: &str,
    source: &mut MemSource,
    host: &mut MemHost,
) -> Result<u8, AllocError> {
    let mut words = Vec::new(alloc);
    for word in line.split(' ') {
        words.push(String::from_str(alloc, word)?)?;
    }
    Ok(run_words(rt, alloc, &words, source, host))
}

fn run_words(
    rt: &impl Abort,
    alloc: Global,
    words: &[String],
    source: &mut MemSource,
    host: &mut MemHost,
) -> u8 {
    if let Some(command) = command_of(words) {
        assert!(rt; command.dirs().len() == host.count() as usize);
        return exit_code(alloc, words, source, host).code;
    }
    exit_code(alloc, words, source, host).code
}
