// What no clause says: that the calls succeed where memory is ample, and that a stop leaves what it should.
ghost use Rattle.std.specs.Prelude.{◌≡◌, ◌<◌};
ghost use Rattle.nn_memhost.specs.Mem.{mem_state};

use nn_base::{DirNo, FileName, NoMemory, Sub, Txid};
use nn_host::{Failed, Host, Source};
use nn_memhost::{Choice, Keep, MemHost, MemSource, Part, StopFault};

// Writes VERSION the safe way: under another name, synced, renamed. These are calls 0 to 4.
fn save(host: &mut MemHost, text: &[u8]) -> Result<(), Failed>
    requires { 0 < (mem_state host.old).count }
    ensures { (mem_state host.new).count ≡ (mem_state host.old).count }
{
    host.make_sub(DirNo(0), Sub::Current)?;
    host.make_file(DirNo(0), Sub::Current, FileName::VersionTmp)?;
    host.append(DirNo(0), Sub::Current, FileName::VersionTmp, text)?;
    host.sync(DirNo(0), Sub::Current, FileName::VersionTmp)?;
    host.rename_file(
        DirNo(0),
        Sub::Current,
        FileName::VersionTmp,
        FileName::Version,
    )
}

// How many bytes the file has, or 99 where it isn't there.
fn size_of(host: &mut MemHost, name: FileName) -> Result<u64, Failed>
    requires { 0 < (mem_state host.old).count }
    ensures { (mem_state host.new).count ≡ (mem_state host.old).count }
{
    if !host.has_file(DirNo(0), Sub::Current, name)? {
        return Ok(99);
    }
    host.size(DirNo(0), Sub::Current, name)
}

#[test]
fn a_file_is_saved_and_read_back(rt: HostRuntime) -> Result<(), NoMemory> {
    let mut host = MemHost::new(rt.alloc(), 1, Vec::new(rt.alloc()))?;
    assert!(rt; save(&mut host, b"abcde").is_ok());
    assert_eq!(rt; size_of(&mut host, FileName::Version), Ok(5));
    let mut out = [0; 4];
    assert_eq!(rt;
        host.read_at(DirNo(0), Sub::Current, FileName::Version, 2, &mut out),
        Ok(3)
    );
    assert_eq!(rt; out, [b'c', b'd', b'e', 0]);
    assert!(rt; host.say(b"saved").is_ok());
    assert_eq!(rt; host.said().len(), 5);
    assert_eq!(rt; (host.calls(), host.starved()), (9, 0));
    Ok(())
}

#[test]
fn a_stop_inside_any_call_leaves_the_old_name_or_the_new(rt: HostRuntime) -> Result<(), NoMemory> {
    let mut host = MemHost::new(rt.alloc(), 1, Vec::new(rt.alloc()))?;
    assert!(rt; save(&mut host, b"abcde").is_ok());
    // Call, whether it took place, what stays, and then the sizes of VERSION.tmp and VERSION.
    let cases = [
        (1, false, Keep::All, 99, 99),
        (1, true, Keep::All, 0, 99),
        (2, false, Keep::Synced, 0, 99),
        (2, true, Keep::Half, 2, 99),
        (2, true, Keep::All, 5, 99),
        (3, true, Keep::Torn, 5, 99),
        (4, false, Keep::Synced, 5, 99),
        (4, true, Keep::Synced, 99, 5),
    ];
    for (k, done, keep, tmp, version) in cases {
        match host.stopped_at(k, Choice { done, keep }) {
            Ok(mut left) => {
                assert_eq!(rt; size_of(&mut left, FileName::VersionTmp), Ok(tmp));
                assert_eq!(rt; size_of(&mut left, FileName::Version), Ok(version));
            }
            Err(_) => assert!(rt; false),
        }
    }
    let choice = Choice {
        done: true,
        keep: Keep::All,
    };
    assert!(rt; matches!(host.stopped_at(5, choice), Err(StopFault::NoSuchCall)));
    Ok(())
}

#[test]
fn a_call_of_the_list_fails_and_leaves_its_part(rt: HostRuntime) -> Result<(), NoMemory> {
    // Call, what it is to leave, and then the sizes of VERSION.tmp and VERSION.
    let cases = [
        (1, Part::Half, 99, 99),
        (1, Part::All, 0, 99),
        (2, Part::Nothing, 0, 99),
        (2, Part::Half, 2, 99),
        (2, Part::All, 5, 99),
        (4, Part::Half, 5, 99),
        (4, Part::All, 99, 5),
    ];
    for (k, part, tmp, version) in cases {
        let fails = Vec::from_array(rt.alloc(), [(k, part)])?;
        let mut host = MemHost::new(rt.alloc(), 1, fails)?;
        assert_eq!(rt; save(&mut host, b"abcde"), Err(Failed));
        assert_eq!(rt; host.calls(), k + 1);
        assert_eq!(rt; size_of(&mut host, FileName::VersionTmp), Ok(tmp));
        assert_eq!(rt; size_of(&mut host, FileName::Version), Ok(version));
    }
    Ok(())
}

#[test]
fn given_contents_begin_the_record_anew(rt: HostRuntime) -> Result<(), NoMemory> {
    let mut host = MemHost::new(rt.alloc(), 1, Vec::new(rt.alloc()))?;
    assert!(rt; save(&mut host, b"abcde").is_ok());
    assert!(rt;
        host.with_file(DirNo(0), Sub::Previous, FileName::Seen, b"7")
            .is_ok()
    );
    assert_eq!(rt; host.calls(), 0);
    assert_eq!(rt; host.has_sub(DirNo(0), Sub::Previous), Ok(true));
    host.without_root(DirNo(0));
    assert_eq!(rt; host.has_root(DirNo(0)), Ok(false));
    Ok(())
}

#[test]
fn a_failed_read_takes_nothing_from_the_text(rt: HostRuntime) -> Result<(), NoMemory> {
    let text = Vec::from_slice(rt.alloc(), b"abcdef")?;
    let mut source = MemSource::new(text, Vec::from_array(rt.alloc(), [1])?);
    // The room of a read, its answer, and what stands in the room afterwards.
    let reads = [
        (2, Ok(2), [b'a', b'b', 0, 0]),
        (2, Err(Failed), [0, 0, 0, 0]),
        (3, Ok(3), [b'c', b'd', b'e', 0]),
        (0, Ok(0), [0, 0, 0, 0]),
        (4, Ok(1), [b'f', 0, 0, 0]),
        (4, Ok(0), [0, 0, 0, 0]),
    ];
    for (room, answer, held) in reads {
        let mut out = [0; 4];
        assert_eq!(rt; source.take(&mut out[..4.min(room)]), answer);
        assert_eq!(rt; out, held);
    }
    assert_eq!(rt; source.calls(), 6);
    Ok(())
}

#[test]
fn names_are_listed_in_the_order_of_their_texts(rt: HostRuntime) -> Result<(), NoMemory> {
    let mut host = MemHost::new(rt.alloc(), 1, Vec::new(rt.alloc()))?;
    assert!(rt;
        host.with_file(DirNo(0), Sub::Current, FileName::Seen, b"0")
            .is_ok()
    );
    assert!(rt;
        host.with_file(DirNo(0), Sub::Current, FileName::Md5(Txid(9)), b"")
            .is_ok()
    );
    assert!(rt;
        host.with_file(DirNo(0), Sub::Current, FileName::Image(Txid(10)), b"")
            .is_ok()
    );
    assert!(rt;
        host.with_file(DirNo(0), Sub::Current, FileName::Version, b"")
            .is_ok()
    );
    let mut names = Vec::new(rt.alloc());
    assert_eq!(rt; host.list(DirNo(0), Sub::Current, &mut names), Ok(()));
    let ordered = [
        FileName::Version,
        FileName::Md5(Txid(9)),
        FileName::Image(Txid(10)),
        FileName::Seen,
    ];
    assert!(rt; names.as_slice() == ordered.as_slice());
    Ok(())
}
