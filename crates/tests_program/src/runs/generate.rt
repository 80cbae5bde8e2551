// Runs that say a generated script, or do its lines.
use super::running::{fresh, run_script};
use super::{has_said, host_of, run_line};
use nn_memhost::{MemSource, Part};
use std::alloc::Global;
use std::process::Abort;
use std::test::Fail;

// A run of `generate`: its words, the call of the output that fails, how what is said begins and ends, of how many bytes it is, in
// how many calls, and the exit status.
struct Row {
    words: &'static str,
    unsaid: Option<u64>,
    front: &'static str,
    end: &'static str,
    len: usize,
    calls: u64,
    code: u8,
}

static ROWS: [Row; 10] = [
    Row {
        words: "generate 2",
        unsaid: None,
        front: "mkdir /g0\ncreate /g0/f0 3\nblock /g0/f0 1\nclose /g0/f0\n",
        end: "close /g0/f0\ncreate /g0/f1 3\nblock /g0/f1 9001\nclose /g0/f1\n",
        len: 101,
        calls: 1,
        code: 0,
    },
    Row {
        words: "generate 101",
        unsaid: None,
        front: "mkdir /g0\n",
        end: "close /g0/f99\nmkdir /g1\ncreate /g1/f100 3\nblock /g1/f100 900001\nclose /g1/f100\n",
        len: 5228,
        calls: 1,
        code: 0,
    },
    // The length of a block begins anew behind 128 MiB.
    Row {
        words: "generate 14915 --",
        unsaid: None,
        front: "mkdir /g0\n",
        end: "block /g149/f14913 134217001\nclose /g149/f14913\ncreate /g149/f14914 3\nblock /g149/f14914 8273\nclose /g149/f14914\n",
        len: 967_052,
        calls: 15,
        code: 0,
    },
    Row {
        words: "generate 2",
        unsaid: Some(0),
        front: "",
        end: "",
        len: 0,
        calls: 1,
        code: 8,
    },
    Row {
        words: "generate 14915",
        unsaid: Some(1),
        front: "mkdir /g0\n",
        end: "",
        len: 65_536,
        calls: 2,
        code: 8,
    },
    Row {
        words: "generate",
        unsaid: None,
        front: "usage\n",
        end: "",
        len: 6,
        calls: 1,
        code: 1,
    },
    Row {
        words: "generate 0",
        unsaid: None,
        front: "usage\n",
        end: "",
        len: 6,
        calls: 1,
        code: 1,
    },
    Row {
        words: "generate 500001",
        unsaid: None,
        front: "usage\n",
        end: "",
        len: 6,
        calls: 1,
        code: 1,
    },
    Row {
        words: "generate -- 5",
        unsaid: None,
        front: "usage\n",
        end: "",
        len: 6,
        calls: 1,
        code: 1,
    },
    Row {
        words: "generate 2 A",
        unsaid: Some(0),
        front: "",
        end: "",
        len: 0,
        calls: 1,
        code: 8,
    },
];

fn rows() -> &'static [Row] {
    &ROWS
}

// Whether a run goes as its row says, and reads no script.
fn goes_as(rt: &impl Abort, alloc: Global, row: &Row) -> Result<bool, Fail> {
    let script = Vec::from_slice(alloc, b"mkdir /a\n")?;
    let mut source = MemSource::new(script, Vec::new(alloc));
    let mut host = match row.unsaid {
        Some(call) => host_of(rt, alloc, "", &[(call, Part::Nothing)])?,
        None => host_of(rt, alloc, "", &[])?,
    };
    let code = run_line(rt, alloc, row.words, &mut source, &mut host)?;
    let said = host.said();
    let is_said = said.starts_with(row.front.as_bytes())
        && said.ends_with(row.end.as_bytes())
        && said.len() == row.len;
    Ok(is_said && host.calls() == row.calls && source.calls() == 0 && code == row.code)
}

#[test]
fn a_script_is_said_for_a_number_of_files(rt: HostRuntime) -> Result<(), Fail> {
    for (k, row) in rows().iter().enumerate() {
        assert!(rt; goes_as(&rt, rt.alloc(), row)?, "row {k}");
    }
    Ok(())
}

// What `dry` answers to the script of these words.
fn dry_over(rt: &impl Abort, alloc: Global, words: &str) -> Result<Vec<u8>, Fail> {
    let mut host = host_of(rt, alloc, "", &[])?;
    let mut none = MemSource::new(Vec::new(alloc), Vec::new(alloc));
    let _status = run_line(rt, alloc, words, &mut none, &mut host)?;
    let mut source = MemSource::new(Vec::from_slice(alloc, host.said())?, Vec::new(alloc));
    let mut later = host_of(rt, alloc, "", &[])?;
    let _status = run_line(rt, alloc, "dry", &mut source, &mut later)?;
    Ok(Vec::from_slice(alloc, later.said())?)
}

#[test]
fn each_line_of_a_generated_script_is_taken(rt: HostRuntime) -> Result<(), Fail> {
    let answers = dry_over(&rt, rt.alloc(), "generate 150")?;
    let mut all = String::new(rt.alloc());
    for _ in 0..452 {
        all.push_str("ok\n")?;
    }
    assert!(rt; answers.as_slice() == all.as_bytes());
    Ok(())
}

// Two runs over two new directories: the words of the first one, which of its calls fail behind its start, and what both say, with
// their exit statuses. The script that is there isn't read by the first.
struct Filling {
    words: &'static str,
    fails: &'static [(u64, Part)],
    next: &'static str,
    said: &'static str,
    codes: (u8, u8),
}

// A command appends to a directory and syncs there, and then in the next, and nothing is said. The last segment is ended by three
// calls in each.
static FILLINGS: [Filling; 6] = [
    Filling {
        words: "run --generate 2 A B",
        fails: &[],
        next: "run A B",
        said: "started 0\ncommands 7 ok 7\nstopped\nstarted 9\nrefused exists\nstopped\n",
        codes: (0, 0),
    },
    Filling {
        words: "run A B --at 5 --generate=101",
        fails: &[],
        next: "run --generate 102 A B",
        said: "started 0\ncommands 305 ok 305\nstopped\nstarted 307\ncommands 308 ok 3\nstopped\n",
        codes: (0, 0),
    },
    Filling {
        words: "run --generate 2 A B",
        fails: &[(3, Part::Nothing)],
        next: "run A B",
        said: "started 0\ncommands 7 ok 7\nstopped\nstarted 11\nrefused exists\nstopped\n",
        codes: (0, 0),
    },
    Filling {
        words: "run --generate 2 A B",
        fails: &[(4, Part::Nothing), (5, Part::Nothing)],
        next: "run A B",
        said: "started 0\nnone left\nstarted 2\nrefused exists\nstopped\n",
        codes: (4, 0),
    },
    Filling {
        words: "run --generate 2 A B",
        fails: &[(34, Part::Half)],
        next: "run A B",
        said: "started 0\ncommandsstarted 9\nrefused exists\nstopped\n",
        codes: (8, 0),
    },
    Filling {
        words: "run --generate 2 A B",
        fails: &[(35, Part::Nothing)],
        next: "run A B",
        said: "started 0\ncommands 7 ok 7\nstarted 9\nrefused exists\nstopped\n",
        codes: (8, 0),
    },
];

fn fillings() -> &'static [Filling] {
    &FILLINGS
}

// Whether both runs go as their row says, where the start of a first run is done after so many calls.
fn fills_as(rt: &impl Abort, alloc: Global, begun: u64, row: &Filling) -> Result<bool, Fail> {
    let mut fails = Vec::new(alloc);
    for fail in row.fails {
        fails.push((begun.saturating_add(fail.0), fail.1))?;
    }
    let mut host = fresh(rt, alloc, &fails)?;
    let first = run_script(rt, alloc, row.words, "mkdir /g0\n", &mut host)?;
    let second = run_script(rt, alloc, row.next, "mkdir /g0\n", &mut host)?;
    let said = format!(in alloc; "formatted 2\n{}", row.said)?;
    Ok(has_said(&host, said.as_str()) && (first, second) == row.codes)
}

// How many calls were made when a run has started. A run of no script ends its segment by six calls then, and says `stopped`.
fn calls_of_a_start(rt: &impl Abort, alloc: Global) -> Result<u64, Fail> {
    let mut host = fresh(rt, alloc, &[])?;
    let _status = run_script(rt, alloc, "run A B", "", &mut host)?;
    Ok(host.calls().saturating_sub(7))
}

#[test]
fn a_run_over_generated_lines_says_how_many_were_taken(rt: HostRuntime) -> Result<(), Fail> {
    let begun = calls_of_a_start(&rt, rt.alloc())?;
    for (k, row) in fillings().iter().enumerate() {
        assert!(rt; fills_as(&rt, rt.alloc(), begun, row)?, "row {k}");
    }
    Ok(())
}
