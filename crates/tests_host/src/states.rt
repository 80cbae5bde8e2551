// Storage states of directories in memory.
use nn_base::{DirNo, FileName, Sub};
use nn_host::Host;
use nn_memhost::MemHost;
use nn_state::{found, look, seat, table};
use std::alloc::Global;
use std::process::Abort;
use std::test::Fail;

const DIR: DirNo = DirNo(0);

// The folders that hold a VERSION, the name of the state by Hadoop's Storage.analyzeStorage or why there is none, and the
// folders that serve as current and as previous.
static ROWS: [(&[Sub], &str, Option<Sub>, Option<Sub>); 17] = [
    (&[], "NOT_FORMATTED", None, None),
    (&[Sub::Current], "NORMAL", Some(Sub::Current), None),
    (
        &[Sub::Current, Sub::Previous],
        "NORMAL",
        Some(Sub::Current),
        Some(Sub::Previous),
    ),
    (&[Sub::Previous], "previous-alone", None, None),
    (
        &[Sub::Current, Sub::PreviousTmp],
        "COMPLETE_UPGRADE",
        Some(Sub::Current),
        Some(Sub::PreviousTmp),
    ),
    (
        &[Sub::PreviousTmp],
        "RECOVER_UPGRADE",
        Some(Sub::PreviousTmp),
        None,
    ),
    (
        &[Sub::PreviousTmp, Sub::Previous],
        "upgrade-and-previous",
        None,
        None,
    ),
    (
        &[Sub::Current, Sub::FinalizedTmp],
        "COMPLETE_FINALIZE",
        Some(Sub::Current),
        None,
    ),
    (&[Sub::FinalizedTmp], "COMPLETE_FINALIZE", None, None),
    (
        &[Sub::FinalizedTmp, Sub::Previous],
        "finalized-and-previous",
        None,
        None,
    ),
    (
        &[Sub::Current, Sub::RemovedTmp],
        "COMPLETE_ROLLBACK",
        Some(Sub::Current),
        None,
    ),
    (
        &[Sub::Previous, Sub::RemovedTmp],
        "RECOVER_ROLLBACK",
        Some(Sub::RemovedTmp),
        Some(Sub::Previous),
    ),
    (
        &[Sub::Current, Sub::Previous, Sub::RemovedTmp],
        "rollback-both",
        None,
        None,
    ),
    (&[Sub::RemovedTmp], "rollback-neither", None, None),
    (
        &[Sub::Current, Sub::LastCheckpointTmp],
        "COMPLETE_CHECKPOINT",
        Some(Sub::Current),
        None,
    ),
    (
        &[Sub::LastCheckpointTmp],
        "RECOVER_CHECKPOINT",
        Some(Sub::LastCheckpointTmp),
        None,
    ),
    (
        &[Sub::Current, Sub::PreviousTmp, Sub::RemovedTmp],
        "several-tmp",
        None,
        None,
    ),
];

// The table, by reference: a function that named it would be proved with each of its rows.
fn rows() -> &'static [(&'static [Sub], &'static str, Option<Sub>, Option<Sub>)] {
    &ROWS
}

#[test]
fn the_folders_of_a_directory_name_its_state_and_those_that_serve(
    rt: HostRuntime,
) -> Result<(), Fail> {
    for &(subs, name, current, previous) in rows() {
        let mut host = holding(&rt, rt.alloc(), subs)?;
        assert!(rt; 0 < host.count());
        let seven = look(&mut host, DIR)?;
        let text = match table(seven) {
            Ok(state) => format!(in rt.alloc(); "{state}")?,
            Err(why) => format!(in rt.alloc(); "{why}")?,
        };
        assert_eq!(rt; text.as_str(), name);
        assert_eq!(rt; seat(seven), (current, previous), "{text}");
        assert_eq!(rt; found(DIR, seven).is_ok(), table(seven).is_ok(), "{text}");
    }
    Ok(())
}

#[test]
fn a_directory_that_is_not_there_is_non_existent(rt: HostRuntime) -> Result<(), Fail> {
    let mut host = holding(&rt, rt.alloc(), &[Sub::Current])?;
    assert!(rt; 0 < host.count());
    host.without_root(DIR);
    assert!(rt; 0 < host.count());
    let seven = look(&mut host, DIR)?;
    let state = table(seven)?;
    assert_eq!(rt; format!(in rt.alloc(); "{state}")?.as_str(), "NON_EXISTENT");
    Ok(())
}

// A directory with a VERSION in each of these subfolders.
fn holding(rt: &impl Abort, alloc: Global, subs: &[Sub]) -> Result<MemHost, Fail> {
    let mut host = MemHost::new(alloc, 1, Vec::new(alloc))?;
    for sub in subs {
        assert!(rt; 0 < host.count());
        host.with_file(DIR, *sub, FileName::Version, b"")?;
    }
    Ok(host)
}
