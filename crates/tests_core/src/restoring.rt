// A dropped directory that a line takes back, whatever fails.
use crate::events::{parts, reached};
use crate::run::{A, B, BEGUN, Run};
use nn_core::End;
use nn_memhost::Part;
use std::alloc::Global;
use std::test::Fail;

// The second directory fails in the first command, at its first call.
const DROPS: (u64, Part) = (BEGUN + 2, Part::Nothing);

// The last id of the segment that is ended in the first directory before the second is made: the marks of two segments, and the command.
const MADE: u64 = 5;

static LINES: [(&str, &str); 7] = [
    ("mkdir /a", "ok\n"),
    ("dirs", "dir 0 live\ndir 1 dropped\nok\n"),
    ("restore 2", "refused no-such-dir\n"),
    ("restore 1", "ok\n"),
    ("dirs", "dir 0 live\ndir 1 live\nok\n"),
    ("restore 1", "ok\n"),
    ("mkdir /b", "ok\n"),
];

fn lines() -> &'static [(&'static str, &'static str)] {
    &LINES
}

static SCRIPT: [&str; 3] = ["mkdir /a", "restore 1", "mkdir /b"];

fn script() -> &'static [&'static str] {
    &SCRIPT
}

#[test]
fn a_dropped_directory_is_taken_back_and_written_to_again(rt: HostRuntime) -> Result<(), Fail> {
    let alloc = rt.alloc();
    let mut run = Run::begun(alloc, Vec::from_array(alloc, [DROPS])?)?;
    for (line, told) in lines() {
        let from = run.said().len();
        assert!(rt; run.answer(alloc, line.as_bytes())?.is_none());
        assert!(rt; run.said().get(from..) == Some(told.as_bytes()), "{line}");
    }
    let (mut host, core) = run.parts();
    let last = core.last().0;
    assert_eq!(rt; last, MADE + 2);
    assert!(rt; core.live(A) && core.live(B));
    assert!(rt; reached(alloc, &mut host, A, 0) == Some(last));
    assert!(rt; reached(alloc, &mut host, B, MADE) == Some(last));
    Ok(())
}

// The first call of the line that takes the directory back, and the one behind its last.
fn calls_of_it(alloc: Global) -> Result<(u64, u64), Fail> {
    let mut run = Run::begun(alloc, Vec::from_array(alloc, [DROPS])?)?;
    let _ = run.answer(alloc, b"mkdir /a")?;
    let from = run.calls();
    let _ = run.answer(alloc, b"restore 1")?;
    Ok((from, run.calls()))
}

#[test]
fn a_call_that_fails_leaves_it_dropped_or_drops_the_other_or_ends_the_run(
    rt: HostRuntime,
) -> Result<(), Fail> {
    let alloc = rt.alloc();
    let (from, to) = calls_of_it(alloc)?;
    for k in from..to {
        for part in parts() {
            let mut run = Run::begun(alloc, Vec::from_array(alloc, [DROPS, (k, *part)])?)?;
            let end = run.answer_all(alloc, script())?;
            let taken = run.said() == b"ok\nok\nok\n".as_slice();
            let failed = run.said() == b"ok\nrefused failed\nok\n".as_slice();
            let (mut host, core) = run.parts();
            match end {
                None => {
                    assert!(rt;
                        taken && core.live(B) || failed && core.live(A),
                        "{k} {part:?}"
                    );
                    let last = core.last().0;
                    let a = reached(alloc, &mut host, A, 0);
                    let b = reached(alloc, &mut host, B, MADE);
                    assert!(rt; core.live(A) == (a == Some(last)), "{k} {part:?}");
                    assert!(rt; core.live(B) == (taken && b == Some(last)), "{k} {part:?}");
                }
                Some(End::NoneLeft) => assert!(rt; !core.live(A) && !core.live(B), "{k} {part:?}"),
                Some(end) => assert!(rt; end == End::OutFault, "{k} {part:?}"),
            }
        }
    }
    Ok(())
}
