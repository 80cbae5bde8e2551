// Small files over a host in memory.
use nn_base::{DirNo, FileName, Sub};
use nn_host::Host;
use nn_memhost::MemHost;
use nn_small::{ReadAll, read_all, write_small};
use std::test::Fail;

#[test]
fn a_file_that_was_written_reads_back_whole(rt: HostRuntime) -> Result<(), Fail> {
    let alloc = rt.alloc();
    let mut host = MemHost::new(alloc, 1, Vec::new(alloc))?;
    assert!(rt; host.count() == 1);
    host.with_file(DirNo(0), Sub::Current, FileName::Seen, b"0\n")?;
    let new: [(&[u8], u64); 3] = [(b"12\n", 3), (b"", 0), (b"13\n", 256)];
    for (bytes, limit) in new {
        assert!(rt; host.count() == 1);
        let written = write_small(
            &mut host,
            DirNo(0),
            Sub::Current,
            FileName::SeenTmp,
            FileName::Seen,
            bytes,
        );
        assert!(rt; written.is_ok());
        assert!(rt; host.count() == 1);
        let read = read_all(
            alloc,
            &mut host,
            DirNo(0),
            Sub::Current,
            FileName::Seen,
            limit,
        )?;
        assert!(rt; read.as_slice() == bytes);
    }
    assert!(rt; host.count() == 1);
    let above = read_all(alloc, &mut host, DirNo(0), Sub::Current, FileName::Seen, 2);
    assert!(rt; above.err() == Some(ReadAll::TooLarge(3)));
    assert!(rt; host.count() == 1);
    let staged = read_all(
        alloc,
        &mut host,
        DirNo(0),
        Sub::Current,
        FileName::SeenTmp,
        256,
    );
    assert!(rt; staged.err() == Some(ReadAll::Absent));
    assert!(rt; host.starved() == 0);
    Ok(())
}
