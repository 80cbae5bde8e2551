// Directories that are tidied.
use crate::folder::{AFTER, DIR, FROM_4_TO_5, STAYS, VERSION, count, has, keeps, untidy};
use nn_base::Txid;
use nn_host::Host;
use nn_marks::version_read;
use nn_memhost::{Choice, Keep, MemHost, Part};
use nn_remake::MakeFault;
use nn_tidy::tidy;
use std::alloc::Global;
use std::test::Fail;

// Tidies directory 0 beside the image of the id 5.
fn tidy_5(alloc: Global, host: &mut MemHost) -> Result<(), MakeFault> {
    if host.count() == 0 {
        return Err(MakeFault::Memory);
    }
    match version_read(VERSION) {
        Ok(version) => tidy(alloc, host, DIR, Txid(5), &version),
        Err(_) => Err(MakeFault::Memory),
    }
}

// Just what is to stay is there, with the segment that was in progress under its last name.
fn is_tidy(alloc: Global, host: &mut MemHost) -> bool {
    keeps(alloc, host)
        && has(alloc, host, AFTER, FROM_4_TO_5)
        && count(alloc, host) == STAYS.len() + 1
}

#[test]
fn what_counts_stays_and_a_segment_in_progress_gets_its_last_name(
    rt: HostRuntime,
) -> Result<(), Fail> {
    let alloc = rt.alloc();
    let mut host = untidy(alloc, Vec::new(alloc))?;
    assert!(rt; count(alloc, &mut host) == STAYS.len() + 12);
    assert!(rt; tidy_5(alloc, &mut host).is_ok());
    assert!(rt; is_tidy(alloc, &mut host));
    // What is tidy stays so.
    assert!(rt; tidy_5(alloc, &mut host).is_ok());
    assert!(rt; is_tidy(alloc, &mut host));
    Ok(())
}

#[test]
fn a_stop_inside_any_call_leaves_all_that_counts(rt: HostRuntime) -> Result<(), Fail> {
    let alloc = rt.alloc();
    let mut host = untidy(alloc, Vec::new(alloc))?;
    assert!(rt; tidy_5(alloc, &mut host).is_ok());
    for k in 0..host.calls() {
        for done in [false, true] {
            let choice = Choice {
                done,
                keep: Keep::Torn,
            };
            let mut left = host.stopped_at(k, choice)?;
            assert!(rt; keeps(alloc, &mut left));
        }
    }
    Ok(())
}

#[test]
fn each_call_that_fails_is_answered_and_the_next_tidying_ends_it(
    rt: HostRuntime,
) -> Result<(), Fail> {
    let alloc = rt.alloc();
    let mut whole = untidy(alloc, Vec::new(alloc))?;
    assert!(rt; tidy_5(alloc, &mut whole).is_ok());
    for k in 0..whole.calls() {
        for part in [Part::Nothing, Part::All] {
            let fails = Vec::from_array(alloc, [(k, part)])?;
            let mut host = untidy(alloc, fails)?;
            assert!(rt; tidy_5(alloc, &mut host) == Err(MakeFault::Failed));
            assert!(rt; host.calls() == k + 1);
            assert!(rt; host.starved() == 0);
            assert!(rt; keeps(alloc, &mut host));
            assert!(rt; tidy_5(alloc, &mut host).is_ok());
            assert!(rt; is_tidy(alloc, &mut host));
        }
    }
    Ok(())
}
