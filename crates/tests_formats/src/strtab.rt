// Names numbered as an image numbers them.
use nn_strtab::Names;
use std::test::Fail;

// Hadoop's superuser, its group and a third name, used as the inodes of an image would use them.
#[test]
fn names_are_numbered_from_1_in_the_order_of_their_first_use(rt: HostRuntime) -> Result<(), Fail> {
    let uses: [(&[u8], u32, u32); 7] = [
        (b"hdfs", 1, 1),
        (b"supergroup", 2, 2),
        (b"hdfs", 1, 2),
        (b"", 3, 3),
        (b"supergroup", 2, 3),
        (b"hdf", 4, 4),
        (b"", 3, 4),
    ];
    let mut names = Names::new(rt.alloc());
    for (name, number, len) in uses {
        if names.len() < 7 {
            assert_eq!(rt; names.number_of(name)?, number, "of {name:?}");
        }
        assert_eq!(rt; names.len(), len);
    }
    Ok(())
}

#[test]
fn a_number_names_what_got_it_and_no_other_names_anything(rt: HostRuntime) -> Result<(), Fail> {
    let mut names = Names::new(rt.alloc());
    for name in [b"hdfs".as_slice(), b"supergroup"] {
        if names.len() < 2 {
            names.number_of(name)?;
        }
    }
    let known: [(u32, Option<&[u8]>); 5] = [
        (0, None),
        (1, Some(b"hdfs")),
        (2, Some(b"supergroup")),
        (3, None),
        (u32::MAX, None),
    ];
    for (number, name) in known {
        assert_eq!(rt; names.name_of(number), name, "of {number}");
    }
    Ok(())
}
