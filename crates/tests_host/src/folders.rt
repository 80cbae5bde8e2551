// Calls on real folders, each test in a folder of its own.
use crate::acting::{DIR, act, host_of, made_root, sub_of};
use nn_base::{FileName, Sub};
use nn_host::{Failed, Host, ListFault};
use std::alloc::Global;
use std::process::Abort;
use std::rt::Files;
use std::test::Fail;
use std::{fs, process};

// A call on the one directory, and what it holds afterwards. INPROGRESS and EDITS stand for the names of segments.
static CHANGES: [(&str, &str); 38] = [
    ("settle", ""),
    ("file current VERSION", ""),
    ("make current", "current"),
    ("make current", "current"),
    ("append current VERSION abc", "current"),
    ("sync current VERSION", "current"),
    ("file current VERSION", "current VERSION="),
    ("append current VERSION abc", "current VERSION=abc"),
    ("append current VERSION de", "current VERSION=abcde"),
    ("sync current VERSION", "current VERSION=abcde"),
    ("make current", "current VERSION=abcde"),
    ("file current VERSION", "current VERSION="),
    ("append current VERSION fg", "current VERSION=fg"),
    ("file current INPROGRESS", "current VERSION=fg INPROGRESS="),
    (
        "append current INPROGRESS one",
        "current VERSION=fg INPROGRESS=one",
    ),
    (
        "append current INPROGRESS two",
        "current VERSION=fg INPROGRESS=onetwo",
    ),
    (
        "sync current INPROGRESS",
        "current VERSION=fg INPROGRESS=onetwo",
    ),
    (
        "rename current INPROGRESS EDITS",
        "current VERSION=fg EDITS=onetwo",
    ),
    (
        "append current INPROGRESS lost",
        "current VERSION=fg EDITS=onetwo",
    ),
    (
        "file current INPROGRESS",
        "current VERSION=fg EDITS=onetwo INPROGRESS=",
    ),
    (
        "append current INPROGRESS x",
        "current VERSION=fg EDITS=onetwo INPROGRESS=x",
    ),
    (
        "file current INPROGRESS",
        "current VERSION=fg EDITS=onetwo INPROGRESS=",
    ),
    (
        "append current INPROGRESS y",
        "current VERSION=fg EDITS=onetwo INPROGRESS=y",
    ),
    (
        "rename current VERSION seen_txid",
        "current EDITS=onetwo INPROGRESS=y seen_txid=fg",
    ),
    (
        "rename current EDITS seen_txid",
        "current INPROGRESS=y seen_txid=onetwo",
    ),
    (
        "rename current VERSION seen_txid",
        "current INPROGRESS=y seen_txid=onetwo",
    ),
    (
        "remove current VERSION",
        "current INPROGRESS=y seen_txid=onetwo",
    ),
    (
        "make previous",
        "current INPROGRESS=y seen_txid=onetwo, previous",
    ),
    (
        "move current previous",
        "current INPROGRESS=y seen_txid=onetwo, previous",
    ),
    ("drop previous", "current INPROGRESS=y seen_txid=onetwo"),
    (
        "move current previous",
        "previous INPROGRESS=y seen_txid=onetwo",
    ),
    (
        "append current INPROGRESS lost",
        "previous INPROGRESS=y seen_txid=onetwo",
    ),
    (
        "move current removed.tmp",
        "previous INPROGRESS=y seen_txid=onetwo",
    ),
    (
        "append previous INPROGRESS z",
        "previous INPROGRESS=yz seen_txid=onetwo",
    ),
    ("settle", "previous INPROGRESS=yz seen_txid=onetwo"),
    ("remove previous seen_txid", "previous INPROGRESS=yz"),
    ("drop current", "previous INPROGRESS=yz"),
    ("drop previous", ""),
];

// The table, by reference: a function that named it would be proved with each of its rows.
fn changes() -> &'static [(&'static str, &'static str)] {
    &CHANGES
}

#[test]
fn each_change_leaves_what_its_row_says(rt: HostRuntime) -> Result<(), Fail> {
    let root = made_root(&rt, rt.alloc(), "changes", process::id(rt.process()))?;
    let mut host = host_of(&rt, rt.alloc(), root.as_str())?;
    for &(call, after) in changes() {
        let outcome = act(&rt, &mut host, call);
        assert!(rt; outcome.is_ok(), "{call}");
        let found = shown(&rt, rt.alloc(), &mut host)?;
        assert_eq!(rt; found.as_str(), after, "{call}");
    }
    rt.remove_dir_all(rt.alloc(), root.as_str())?;
    Ok(())
}

// Nothing stands in the directory but what a row names, and no call changes it.
static ABSENT: [&str; 9] = [
    "make current",
    "file current VERSION",
    "append current VERSION abc",
    "sync current VERSION",
    "rename current VERSION seen_txid",
    "move current previous",
    "remove current VERSION",
    "drop current",
    "settle",
];

fn absent() -> &'static [&'static str] {
    &ABSENT
}

#[test]
fn a_missing_root_is_no_fault(rt: HostRuntime) -> Result<(), Fail> {
    let root = made_root(&rt, rt.alloc(), "absent", process::id(rt.process()))?;
    rt.remove_dir_all(rt.alloc(), root.as_str())?;
    for path in [root.as_str(), ""] {
        let mut host = host_of(&rt, rt.alloc(), path)?;
        for &call in absent() {
            let outcome = act(&rt, &mut host, call);
            assert!(rt; outcome.is_ok(), "{call}");
        }
        assert!(rt; !has_root(&rt, &mut host)?);
        assert_eq!(rt; shown(&rt, rt.alloc(), &mut host)?.as_str(), "");
    }
    assert!(rt; !fs::exists(&rt, root.as_str())?);
    Ok(())
}

#[test]
fn another_thing_under_a_name_counts_as_absent(rt: HostRuntime) -> Result<(), Fail> {
    let root = made_root(&rt, rt.alloc(), "others", process::id(rt.process()))?;
    write(
        &rt,
        rt.alloc(),
        root.as_str(),
        "current",
        "a file in place of a folder",
    )?;
    write(&rt, rt.alloc(), root.as_str(), "previous.tmp", "another")?;
    fs::create_dir(&rt, format!(in rt.alloc(); "{root}/previous")?.as_str())?;
    fs::create_dir(
        &rt,
        format!(in rt.alloc(); "{root}/previous/VERSION")?.as_str(),
    )?;
    write(&rt, rt.alloc(), root.as_str(), "previous/seen_txid", "7")?;
    let mut host = host_of(&rt, rt.alloc(), root.as_str())?;
    // What the system refuses is a failed call.
    for (call, is_ok) in [
        ("file current VERSION", true),
        ("append current VERSION abc", true),
        ("drop current", true),
        ("remove previous VERSION", true),
        ("append previous VERSION abc", true),
        ("rename previous VERSION VERSION.tmp", true),
        ("make current", false),
        ("file previous VERSION", false),
        ("rename previous seen_txid VERSION", false),
        ("move previous previous.tmp", false),
    ] {
        let outcome = act(&rt, &mut host, call);
        assert_eq!(rt; outcome.is_ok(), is_ok, "{call}");
        let found = shown(&rt, rt.alloc(), &mut host)?;
        assert_eq!(rt; found.as_str(), "previous seen_txid=7", "{call}");
    }
    let mut host = host_of(
        &rt,
        rt.alloc(),
        format!(in rt.alloc(); "{root}/current")?.as_str(),
    )?;
    assert!(rt; !has_root(&rt, &mut host)?);
    assert!(rt; act(&rt, &mut host, "make current").is_ok());
    rt.remove_dir_all(rt.alloc(), root.as_str())?;
    Ok(())
}

// Each form of a file name, in the byte order of the texts.
static FORMS: [&str; 14] = [
    "VERSION",
    "VERSION.tmp",
    "edits_0000000000000000001-0000000000000000002",
    "edits_0000000000000000001-0000000000000000010",
    "edits_0000000000000000003-0000000000000000003",
    "edits_inprogress_0000000000000000004",
    "fsimage.ckpt_0000000000000000009",
    "fsimage_0000000000000000000",
    "fsimage_0000000000000000000.md5",
    "fsimage_0000000000000000000.md5.tmp",
    "fsimage_0000000000000000002",
    "fsimage_9223372036854775807.md5",
    "seen_txid",
    "seen_txid.tmp",
];

fn forms() -> &'static [&'static str] {
    &FORMS
}

static OTHERS: [&str; 6] = [
    "version",
    "fsimage_1",
    "edits_0000000000000000002-0000000000000000001",
    "fsimage_9223372036854775808",
    "seen_txid.md5",
    ".hidden",
];

fn others() -> &'static [&'static str] {
    &OTHERS
}

#[test]
fn a_listing_has_each_form_in_order_and_nothing_else(rt: HostRuntime) -> Result<(), Fail> {
    let root = made_root(&rt, rt.alloc(), "listing", process::id(rt.process()))?;
    fs::create_dir(&rt, format!(in rt.alloc(); "{root}/kept")?.as_str())?;
    for name in forms().iter().rev() {
        write(
            &rt,
            rt.alloc(),
            root.as_str(),
            format!(in rt.alloc(); "kept/{name}")?.as_str(),
            "",
        )?;
    }
    for &name in others() {
        write(
            &rt,
            rt.alloc(),
            root.as_str(),
            format!(in rt.alloc(); "kept/{name}")?.as_str(),
            "",
        )?;
    }
    fs::create_dir(
        &rt,
        format!(in rt.alloc(); "{root}/kept/fsimage_0000000000000000003")?.as_str(),
    )?;
    // A link counts as what it leads to.
    rt.symlink("kept", format!(in rt.alloc(); "{root}/current")?.as_str())?;
    let mut host = host_of(&rt, rt.alloc(), root.as_str())?;
    let mut names = Vec::new(rt.alloc());
    list(&rt, &mut host, Sub::Current, &mut names)?;
    assert_eq!(rt; names.len(), forms().len());
    for (name, form) in names.iter().zip(forms()) {
        assert_eq!(rt; text_of(rt.alloc(), *name)?.as_str(), *form);
    }
    rt.remove_dir_all(rt.alloc(), root.as_str())?;
    Ok(())
}

#[test]
fn a_read_gives_the_bytes_up_to_the_end(rt: HostRuntime) -> Result<(), Fail> {
    let root = made_root(&rt, rt.alloc(), "reading", process::id(rt.process()))?;
    fs::create_dir(&rt, format!(in rt.alloc(); "{root}/current")?.as_str())?;
    write(
        &rt,
        rt.alloc(),
        root.as_str(),
        "current/VERSION",
        "0123456789",
    )?;
    let mut host = host_of(&rt, rt.alloc(), root.as_str())?;
    for (at, read) in [
        (0, "0123"),
        (6, "6789"),
        (8, "89"),
        (10, ""),
        (11, ""),
        (u64::MAX, ""),
    ] {
        let mut out = [b'.'; 4];
        let count = read_at(
            &rt,
            &mut host,
            Sub::Current,
            FileName::Version,
            at,
            &mut out,
        )?;
        assert_eq!(rt; count, read.len(), "{at}");
        assert!(rt; out.starts_with(read.as_bytes()), "{at}");
        assert!(rt; out.iter().skip(count).all(|byte| *byte == b'.'), "{at}");
    }
    let count = read_at(&rt, &mut host, Sub::Current, FileName::Version, 0, &mut [])?;
    assert_eq!(rt; count, 0);
    rt.remove_dir_all(rt.alloc(), root.as_str())?;
    Ok(())
}

fn write(rt: &impl Files, alloc: Global, root: &str, below: &str, text: &str) -> Result<(), Fail> {
    let path = format!(in alloc; "{root}/{below}")?;
    fs::write(rt, path.as_str(), text)?;
    Ok(())
}

fn has_root<H: Host>(rt: &impl Abort, host: &mut H) -> Result<bool, Failed> {
    assert!(rt; 0 < host.count());
    host.has_root(DIR)
}

fn list<H: Host>(
    rt: &impl Abort,
    host: &mut H,
    sub: Sub,
    names: &mut Vec<FileName>,
) -> Result<(), ListFault> {
    assert!(rt; 0 < host.count());
    host.list(DIR, sub, names)
}

fn read_at<H: Host>(
    rt: &impl Abort,
    host: &mut H,
    sub: Sub,
    name: FileName,
    at: u64,
    out: &mut [u8],
) -> Result<usize, Failed> {
    assert!(rt; 0 < host.count());
    host.read_at(DIR, sub, name, at, out)
}

fn size<H: Host>(rt: &impl Abort, host: &mut H, sub: Sub, name: FileName) -> Result<u64, Failed> {
    assert!(rt; 0 < host.count());
    host.size(DIR, sub, name)
}

// The subfolders that are there, each with its files and their bytes.
fn shown<H: Host>(rt: &impl Abort, alloc: Global, host: &mut H) -> Result<String, Fail> {
    let mut text = String::new(alloc);
    for word in ["current", "previous", "previous.tmp", "removed.tmp"] {
        if has_sub(rt, host, sub_of(word))? {
            if !text.is_empty() {
                text.push_str(", ")?;
            }
            text.push_str(word)?;
            show_files(rt, alloc, host, sub_of(word), &mut text)?;
        }
    }
    Ok(text)
}

fn show_files<H: Host>(
    rt: &impl Abort,
    alloc: Global,
    host: &mut H,
    sub: Sub,
    text: &mut String,
) -> Result<(), Fail> {
    let mut names = Vec::new(alloc);
    list(rt, host, sub, &mut names)?;
    for name in &names {
        let mut bytes = [0u8; 16];
        let count = read_at(rt, host, sub, *name, 0, &mut bytes)?;
        assert_eq!(rt; size(rt, host, sub, *name)?, count as u64);
        assert!(rt; has_file(rt, host, sub, *name)?);
        let name = text_of(alloc, *name)?;
        let name = match name.as_str() {
            "edits_inprogress_0000000000000000001" => "INPROGRESS",
            "edits_0000000000000000001-0000000000000000002" => "EDITS",
            other => other,
        };
        text.push_str(format!(in alloc; " {name}=")?.as_str())?;
        for byte in bytes.iter().take(count) {
            text.push(char::from(*byte))?;
        }
    }
    Ok(())
}

fn has_sub<H: Host>(rt: &impl Abort, host: &mut H, sub: Sub) -> Result<bool, Failed> {
    assert!(rt; 0 < host.count());
    host.has_sub(DIR, sub)
}

fn has_file<H: Host>(
    rt: &impl Abort,
    host: &mut H,
    sub: Sub,
    name: FileName,
) -> Result<bool, Failed> {
    assert!(rt; 0 < host.count());
    host.has_file(DIR, sub, name)
}

fn text_of(alloc: Global, name: FileName) -> Result<String, Fail> {
    let mut text = Vec::new(alloc);
    name.text(&mut text)?;
    match String::from_utf8(text) {
        Ok(text) => Ok(text),
        Err(_) => Err(Fail::new("no text")),
    }
}
