// Sets of directories, against lists of their members that were written down by hand.
use nn_base::{DirNo, DirSet};

fn has_just(set: DirSet, members: &[u8]) -> bool {
    (0..=255u8).all(|i| set.has(DirNo(i)) == members.contains(&i))
}

#[test]
fn a_set_has_just_the_directories_that_were_put_into_it(rt: HostRuntime) {
    let none = DirSet::none();
    assert!(rt; none.is_empty() && has_just(none, &[]));
    assert!(rt; has_just(DirSet::first(3), &[0, 1, 2]));
    assert!(rt; has_just(DirSet::first(8), &[0, 1, 2, 3, 4, 5, 6, 7]));

    let odd = none
        .with(DirNo(7))
        .with(DirNo(1))
        .with(DirNo(5))
        .with(DirNo(1));
    assert!(rt; !odd.is_empty() && has_just(odd, &[1, 5, 7]));
    assert!(rt; has_just(odd.without(DirNo(5)).without(DirNo(2)), &[1, 7]));
    assert!(rt; has_just(odd.and(DirSet::first(6)), &[1, 5]));
    assert!(rt; has_just(odd.and_not(DirSet::first(6)), &[7]));
    assert!(rt; odd == none.with(DirNo(1)).with(DirNo(5)).with(DirNo(7)));
    assert!(rt; odd != odd.without(DirNo(1)));
}
