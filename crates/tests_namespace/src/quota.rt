// What a directory may take under its quota.
use nn_quota::{Quota, Usage, fits};

#[test]
fn only_what_grows_is_held_to_its_quota(rt: HostRuntime) {
    let used = Usage {
        names: 3,
        space: 100,
    };
    for (names, space, name_quota, space_quota, want) in [
        (1, 0, None, None, true),
        (1, 0, Some(4), None, true),
        (1, 0, Some(3), None, false),
        (0, 0, Some(1), Some(1), true),
        (0, 1, Some(1), Some(101), true),
        (0, 1, None, Some(100), false),
        (2, 10, Some(5), Some(109), false),
        (u64::MAX, u128::MAX, None, Some(u64::MAX), false),
    ] {
        let quota = Quota {
            names: name_quota,
            space: space_quota,
        };
        assert_eq!(rt;
            fits(used, Usage { names, space }, quota),
            want,
            "{names} {space} {quota:?}"
        );
    }
}
