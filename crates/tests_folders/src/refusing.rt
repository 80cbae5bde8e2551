// Refusals as they are said, and what refuses.
use nn_base::{DirNo, Txid};
use nn_chain::ImageWhy;
use nn_marks::{Key, VersionFault};
use nn_pick::{PreviousWhy, Refusal, earlier, unformattable, unusable};
use nn_state::{StorageState, Why};
use std::test::Fail;

#[test]
fn each_refusal_has_a_line_of_its_own(rt: HostRuntime) -> Result<(), Fail> {
    let alloc = rt.alloc();
    let rows = [
        (Refusal::Missing(DirNo(1)), "refused missing 1\n"),
        (
            Refusal::Inconsistent(DirNo(0), Why::SeveralTmp),
            "refused inconsistent 0 several-tmp\n",
        ),
        (Refusal::Formatted(DirNo(7)), "refused formatted 7\n"),
        (Refusal::NotFormatted, "refused not-formatted\n"),
        (
            Refusal::BadVersion(DirNo(3), VersionFault::NoFile),
            "refused bad-version 3\n",
        ),
        (
            Refusal::Mismatch {
                first: DirNo(0),
                dir: DirNo(2),
                key: Key::ClusterId,
            },
            "refused mismatch 0 2 clusterID\n",
        ),
        (
            Refusal::FutureLayout(DirNo(1), -1003),
            "refused future-layout 1 -1003\n",
        ),
        (
            Refusal::ForeignLayout(DirNo(1), -66),
            "refused foreign-layout 1 -66\n",
        ),
        (
            Refusal::NoImage(DirNo(0), ImageWhy::Absent),
            "refused no-image 0 absent\n",
        ),
        (
            Refusal::Gap {
                seen: 9,
                last: Txid(5),
            },
            "refused gap 9 5\n",
        ),
        (
            Refusal::Spent(Txid(4_611_686_018_427_387_904)),
            "refused spent 4611686018427387904\n",
        ),
        (
            Refusal::PreviousExists(DirNo(4)),
            "refused previous-exists 4\n",
        ),
        (
            Refusal::CtimeSpent(9_223_372_036_854_775_807),
            "refused ctime-spent 9223372036854775807\n",
        ),
        (Refusal::NoPrevious, "refused no-previous\n"),
        (
            Refusal::BadPrevious(DirNo(0), PreviousWhy::Ids),
            "refused bad-previous 0 ids\n",
        ),
    ];
    for (refusal, line) in rows {
        let mut out = Vec::new(alloc);
        refusal.line(alloc, &mut out)?;
        assert!(rt; out.as_slice() == line.as_bytes(), "{line}");
    }
    Ok(())
}

#[test]
fn a_state_that_is_half_recovered_can_be_worked_on_and_not_formatted(rt: HostRuntime) {
    let i = DirNo(2);
    let rows = [
        (Ok(StorageState::NotFormatted), None, None),
        (Ok(StorageState::Normal), None, Some(Refusal::Formatted(i))),
        (
            Ok(StorageState::RecoverUpgrade),
            None,
            Some(Refusal::Formatted(i)),
        ),
        (
            Ok(StorageState::NonExistent),
            Some(Refusal::Missing(i)),
            Some(Refusal::Missing(i)),
        ),
        (
            Err(Why::PreviousAlone),
            Some(Refusal::Inconsistent(i, Why::PreviousAlone)),
            Some(Refusal::Inconsistent(i, Why::PreviousAlone)),
        ),
    ];
    for (found, use_refused, format_refused) in rows {
        assert!(rt; unusable(i, found) == use_refused);
        assert!(rt; unformattable(i, found) == format_refused);
    }
    assert!(rt;
        earlier(
            Some(Refusal::Missing(DirNo(0))),
            Some(Refusal::Formatted(i))
        ) == Some(Refusal::Missing(DirNo(0)))
    );
    assert!(rt; earlier(None, Some(Refusal::Formatted(i))) == Some(Refusal::Formatted(i)));
}
