// What the checkpoints of a run leave in its directories.
use super::has_said;
use super::running::{fresh, run_script};
use nn_base::{DirNo, FileName, NoMemory, Span, Sub, Txid};
use nn_host::Host;
use nn_memhost::MemHost;
use std::alloc::Global;
use std::process::Abort;
use std::test::Fail;
use tests_kit::{has, lists};

const BOTH: [DirNo; 2] = [DirNo(0), DirNo(1)];

const IMAGE_6: FileName = FileName::Image(Txid(6));

const SEGMENT_5: FileName = FileName::Edits(Span {
    first: Txid(5),
    last: Txid(6),
});

// What three checkpoints leave in each directory once the run has stopped.
static LEFT: [&str; 8] = [
    "VERSION",
    "edits_5-6",
    "edits_7-8",
    "fsimage_4",
    "fsimage_4.md5",
    "fsimage_6",
    "fsimage_6.md5",
    "seen_txid",
];

fn left() -> &'static [&'static str] {
    &LEFT
}

// Two directories behind a run that was checkpointed three times, if it was answered and stopped.
fn checkpointed(rt: &impl Abort, alloc: Global) -> Result<Option<MemHost>, NoMemory> {
    let mut host = fresh(rt, alloc, &[])?;
    let script = "checkpoint\ncheckpoint\ncheckpoint\n";
    let status = run_script(rt, alloc, "run A B", script, &mut host)?;
    if status == 0 && has_said(&host, "formatted 2\nstarted 0\nok\nok\nok\nstopped\n") {
        Ok(Some(host))
    } else {
        Ok(None)
    }
}

// Whether both directories hold these files, and 7 in `seen_txid`.
fn holds_two_images(alloc: Global, host: &mut MemHost) -> bool {
    let mut all = true;
    for i in BOTH {
        all = all && lists(alloc, host, i, Sub::Current, left());
        all = all && has(alloc, host, i, Sub::Current, FileName::Seen, b"7\n");
    }
    all
}

#[test]
fn three_checkpoints_leave_two_images_and_the_segments_behind_the_older(
    rt: HostRuntime,
) -> Result<(), Fail> {
    let alloc = rt.alloc();
    let held = match checkpointed(&rt, alloc)? {
        Some(mut host) => holds_two_images(alloc, &mut host),
        None => false,
    };
    assert!(rt; held);
    Ok(())
}

// What the next run says, and its status, where the last image is damaged in both directories, and this segment is gone, if one is told.
fn next_run(
    rt: &impl Abort,
    alloc: Global,
    gone: Option<FileName>,
) -> Result<Option<(String, u8)>, Fail> {
    let Some(mut host) = checkpointed(rt, alloc)? else {
        return Ok(None);
    };
    for i in BOTH {
        if i.0 < host.count() {
            host.with_file(i, Sub::Current, IMAGE_6, b"HDFSIMG1")?;
        }
    }
    if let Some(name) = gone {
        for i in BOTH {
            if i.0 < host.count() {
                let _ = host.remove_file(i, Sub::Current, name);
            }
        }
    }
    let from = host.said().len();
    let status = run_script(rt, alloc, "run A B", "", &mut host)?;
    let said = host.said().get(from..).unwrap_or(b"");
    Ok(Some((String::from_str(alloc, str::from_utf8(said)?)?, status)))
}

#[test]
fn a_start_falls_back_on_the_older_image_and_needs_the_segments_behind_it(
    rt: HostRuntime,
) -> Result<(), Fail> {
    let alloc = rt.alloc();
    let rows = [
        (None, "started 8\nstopped\n", 0),
        (Some(SEGMENT_5), "refused gap 7 4\n", 2),
    ];
    for (gone, said, code) in rows {
        let found = next_run(&rt, alloc, gone)?;
        assert!(rt;
            found.is_some_and(|it| it.0.as_str() == said && it.1 == code),
            "{said}"
        );
    }
    Ok(())
}
