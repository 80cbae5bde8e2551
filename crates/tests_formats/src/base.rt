// Names, words and paths with expected values that were written down by hand.
use nn_base::{FileName, FirstTxid, Label, Name, NoMemory, Path, PathFault, Span, Txid, Word};
use std::alloc::Global;
use std::test::Fail;

const LAST: u64 = 9_223_372_036_854_775_807;

const NAMES: [(&str, FileName); 12] = [
    ("VERSION", FileName::Version),
    ("VERSION.tmp", FileName::VersionTmp),
    ("seen_txid", FileName::Seen),
    ("seen_txid.tmp", FileName::SeenTmp),
    ("fsimage_0000000000000000000", FileName::Image(Txid(0))),
    ("fsimage_9223372036854775807", FileName::Image(Txid(LAST))),
    ("fsimage_0000000000000000012.md5", FileName::Md5(Txid(12))),
    (
        "fsimage_0000000000000000012.md5.tmp",
        FileName::Md5Tmp(Txid(12)),
    ),
    (
        "fsimage.ckpt_0000000000000060202",
        FileName::Ckpt(Txid(60202)),
    ),
    (
        "edits_0000000000000000001-0000000000000000002",
        FileName::Edits(Span {
            first: Txid(1),
            last: Txid(2),
        }),
    ),
    (
        "edits_0000000000000000007-0000000000000000007",
        FileName::Edits(Span {
            first: Txid(7),
            last: Txid(7),
        }),
    ),
    (
        "edits_inprogress_0000000000000000001",
        FileName::InProgress(FirstTxid(Txid(1))),
    ),
];

static OTHERS: [&str; 14] = [
    "",
    "version",
    "VERSION.tmp2",
    "seen_txid.",
    "fsimage_",
    "fsimage_000000000000000000",
    "fsimage_00000000000000000000",
    "fsimage_9223372036854775808",
    "fsimage_000000000000000000x",
    "fsimage_0000000000000000012.md5.tm",
    "edits_0000000000000000005-0000000000000000003",
    "edits_0000000000000000000-0000000000000000003",
    "edits_0000000000000000001_0000000000000000002",
    "edits_inprogress_0000000000000000000",
];

fn others() -> &'static [&'static str] {
    &OTHERS
}

#[test]
fn a_name_is_written_and_read_by_its_one_text(rt: HostRuntime) -> Result<(), Fail> {
    for (text, name) in NAMES {
        let mut out = Vec::new(rt.alloc());
        name.text(&mut out)?;
        assert!(rt; out.as_slice() == text.as_bytes(), "{text}");
        let read = FileName::parse(text.as_bytes()).ok_or(text)?;
        assert!(rt; read == name, "{text}");
    }
    for &text in others() {
        assert!(rt; FileName::parse(text.as_bytes()).is_none(), "{text}");
    }
    Ok(())
}

#[test]
fn a_word_has_one_to_255_bytes_that_print(rt: HostRuntime) -> Result<(), Fail> {
    let long = [b'~'; 255];
    for text in [
        b"c1".as_slice(),
        b"BP-7".as_slice(),
        b"!".as_slice(),
        long.as_slice(),
    ] {
        let word = Word::of(text).ok_or("a word")?;
        assert!(rt; word.bytes() == text);
    }
    let longer = [b'a'; 256];
    for text in [
        b"".as_slice(),
        b"a b".as_slice(),
        b"\x7F".as_slice(),
        longer.as_slice(),
    ] {
        assert!(rt; Word::of(text).is_none());
    }
    Ok(())
}

// Texts of paths with their first fault.
static TEXTS: [(&[u8], Option<PathFault>); 16] = [
    (b"/", None),
    (b"/a", None),
    (b"/...", None),
    (b"/user/hdfs/.a", None),
    (b"/a%2fb", None),
    (b"", Some(PathFault::Empty)),
    (b"a", Some(PathFault::Relative)),
    (b"a//b", Some(PathFault::Relative)),
    (b"/a/", Some(PathFault::BadName)),
    (b"//", Some(PathFault::BadName)),
    (b"//a", Some(PathFault::BadName)),
    (b"/a//b", Some(PathFault::BadName)),
    (b"/.", Some(PathFault::BadName)),
    (b"/a/..", Some(PathFault::BadName)),
    (b"/a:b", Some(PathFault::BadName)),
    (b"/a\0", Some(PathFault::BadName)),
];

// The table, by reference: a function that named it would be proved with each of its rows.
fn texts() -> &'static [(&'static [u8], Option<PathFault>)] {
    &TEXTS
}

// Texts of parts, so many of so many letters each.
static LONG_TEXTS: [(&[(usize, usize)], Option<PathFault>); 10] = [
    (&[(1, 255)], None),
    (&[(1, 256)], Some(PathFault::LongName)),
    (&[(1, 0), (1, 256)], Some(PathFault::BadName)),
    (&[(1, 256), (1, 0)], Some(PathFault::LongName)),
    (&[(31, 255), (1, 63)], None),
    (&[(31, 255), (1, 64)], Some(PathFault::LongPath)),
    (&[(1, 8000), (1, 0)], Some(PathFault::LongPath)),
    (&[(1000, 1)], None),
    (&[(1001, 1)], Some(PathFault::Deep)),
    (&[(1001, 1), (1, 0)], Some(PathFault::BadName)),
];

fn long_texts() -> &'static [(&'static [(usize, usize)], Option<PathFault>)] {
    &LONG_TEXTS
}

#[test]
fn a_text_has_its_first_fault_or_is_that_of_the_path_that_was_read(
    rt: HostRuntime,
) -> Result<(), Fail> {
    let alloc = rt.alloc();
    for &(text, fault) in texts() {
        assert!(rt; is_told(alloc, text, fault)?, "at {text:?}");
    }
    for &(parts, fault) in long_texts() {
        let text = letters(alloc, parts)?;
        assert!(rt; is_told(alloc, &text, fault)?, "at {parts:?}");
    }
    Ok(())
}

fn letters(alloc: Global, parts: &[(usize, usize)]) -> Result<Vec<u8>, NoMemory> {
    let mut text = Vec::new(alloc);
    for (count, len) in parts {
        for _ in 0..*count {
            text.push(b'/')?;
            for _ in 0..*len {
                text.push(b'a')?;
            }
        }
    }
    Ok(text)
}

fn is_told(alloc: Global, text: &[u8], fault: Option<PathFault>) -> Result<bool, NoMemory> {
    match Path::parse(alloc, text) {
        Err(told) => Ok(fault == Some(told)),
        Ok(path) => {
            let mut written = Vec::new(alloc);
            path.text(&mut written)?;
            Ok(fault.is_none() && written.as_slice() == text)
        }
    }
}

#[test]
fn each_fault_of_a_path_has_its_word(rt: HostRuntime) -> Result<(), Fail> {
    let words = [
        (PathFault::Empty, "empty"),
        (PathFault::Relative, "relative"),
        (PathFault::LongPath, "long-path"),
        (PathFault::BadName, "bad-name"),
        (PathFault::LongName, "long-name"),
        (PathFault::Deep, "deep"),
    ];
    for (fault, word) in words {
        let told = format!(in rt.alloc(); "{fault}")?;
        assert!(rt; told.as_str() == word, "{word}");
    }
    Ok(())
}

#[test]
fn names_labels_and_paths_take_what_their_form_allows(rt: HostRuntime) -> Result<(), Fail> {
    let alloc = rt.alloc();
    let long = vec![in alloc; b'a'; 256]?;
    assert_eq!(rt; long.len(), 256);
    let names: [(&[u8], bool); 10] = [
        (b"a", true),
        (b"...", true),
        (&long[..255], true),
        (&long, false),
        (b"", false),
        (b".", false),
        (b"..", false),
        (b"a/b", false),
        (b"a:b", false),
        (b"a\0", false),
    ];
    for (bytes, is_name) in names {
        assert_eq!(rt; Name::of(alloc, bytes)?.is_some(), is_name, "at {bytes:?}");
    }
    for (len, is_label) in [(0, false), (1, true), (32, true), (33, false)] {
        assert!(rt; len <= long.len());
        assert_eq!(rt; Label::of(&long[..len]).is_some(), is_label, "at {len}");
    }

    let mut names = Vec::new(alloc);
    for bytes in [b"user", b"hdfs"] {
        names.push(Name::of(alloc, bytes)?.ok_or("a name")?.copy(alloc)?)?;
    }
    let path = Path::of(alloc, &names)?.ok_or("a path")?;
    assert_eq!(rt; path.depth(), 2);
    assert_eq!(rt; path.bytes(), b"/user/hdfs".as_slice());
    assert_eq!(rt; path.last_name(alloc)?.bytes(), b"hdfs".as_slice());
    assert_eq!(rt; path.copy(alloc)?.bytes(), path.bytes());
    assert_eq!(rt; path.components().take_name(), b"user".as_slice());
    let parent = path.parent(alloc)?;
    assert_eq!(rt; parent.depth(), 1);
    assert_eq!(rt; parent.bytes(), b"/user".as_slice());
    assert_eq!(rt; Path::root(alloc).depth(), 0);
    assert_eq!(rt; Path::root(alloc).bytes(), b"/".as_slice());
    Ok(())
}
