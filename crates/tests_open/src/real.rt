// Folders on a disk: what they hold beside the files of a name directory, and files that are too large to be read.
use nn_base::NoMemory;
use nn_choose::pick;
use nn_files::FileHost;
use nn_pick::{OpenFault, Refusal};
use nn_tree::PlainTree;
use std::alloc::Global;
use std::fs::OpenFile;
use std::path::AsPath;
use std::rt::{Env, Files};
use std::test::Fail;
use std::{env, fs, process};
use tests_kit::contents;
use tests_kit::texts::{DIGEST_0, HEADER, IMAGE_0, MARK_1, MARK_2, VERSION};

// More than an image or a segment may have.
const TOO_LARGE: u64 = 1_073_741_825;

// Files that are none of a name directory, though they nearly are.
static NEARLY: [&str; 6] = [
    "version",
    "fsimage_9",
    "edits_0000000000000000003-0000000000000000002",
    "edits_0000000000000000003-0000000000000000004.bak",
    "edits_inprogress_3",
    "fsimage_9223372036854775808",
];

// A folder of its own for a test, whose `current` holds an image of the id 0 and the records 1 and 2.
fn made<R: Files + Env + Alloc>(
    rt: &R,
    alloc: Global,
    test: &str,
    process: u32,
) -> Result<String, Fail> {
    let place = env::temp_dir(rt)?;
    let place = place.path_text();
    let root = format!(in alloc; "{place}/nn_open_{test}_{process}")?;
    fs::create_dir(rt, root.as_str())?;
    fs::create_dir(rt, format!(in alloc; "{root}/current")?.as_str())?;
    write(rt, alloc, root.as_str(), "VERSION", VERSION)?;
    write(
        rt,
        alloc,
        root.as_str(),
        "fsimage_0000000000000000000",
        IMAGE_0,
    )?;
    write(
        rt,
        alloc,
        root.as_str(),
        "fsimage_0000000000000000000.md5",
        DIGEST_0,
    )?;
    write_records(rt, alloc, root.as_str())?;
    Ok(root)
}

fn write_records(rt: &impl Files, alloc: Global, root: &str) -> Result<(), Fail> {
    let mut bytes = Vec::new(alloc);
    for part in [HEADER, MARK_1, MARK_2] {
        bytes.extend_from_slice(part)?;
    }
    write(
        rt,
        alloc,
        root,
        "edits_0000000000000000001-0000000000000000002",
        &bytes,
    )
}

fn write(rt: &impl Files, alloc: Global, root: &str, name: &str, bytes: &[u8]) -> Result<(), Fail> {
    let path = format!(in alloc; "{root}/current/{name}")?;
    fs::write(rt, path.as_str(), bytes)?;
    Ok(())
}

// A file of so many bytes, of which none is written.
fn stretch<R: Files>(rt: &R, alloc: Global, root: &str, name: &str, size: u64) -> Result<(), Fail> {
    let path = format!(in alloc; "{root}/current/{name}")?;
    let file = fs::create(rt, path.as_str())?;
    file.set_len(size)?;
    Ok(())
}

// The last id that the folder opens to, or why it doesn't; None where it doesn't read as before.
fn opened<R: Files + Print + Eprint + Drop>(
    rt: R,
    alloc: Global,
    root: &str,
) -> Result<Option<Result<u64, OpenFault>>, NoMemory> {
    let mut paths = Vec::new(alloc);
    paths.push(String::from_str(alloc, root)?)?;
    let mut host = FileHost::open(rt, alloc, paths)?;
    let before = contents(alloc, &mut host)?;
    let told = match pick::<FileHost<R>, PlainTree>(alloc, &mut host) {
        Ok(picked) => Ok(picked.last.0),
        Err(fault) => Err(fault),
    };
    let after = contents(alloc, &mut host)?;
    match before.as_slice() == after.as_slice() {
        true => Ok(Some(told)),
        false => Ok(None),
    }
}

// The word for the image that it is refused for.
fn word_of(told: Option<Result<u64, OpenFault>>) -> &'static str {
    let Some(Err(fault)) = told else {
        return "another";
    };
    match fault {
        OpenFault::Refused(Refusal::NoImage(_, why)) => why.word(),
        _ => "another",
    }
}

#[test]
fn ten_thousand_other_files_change_nothing(rt: HostRuntime) -> Result<(), Fail> {
    let alloc = rt.alloc();
    let root = made(&rt, alloc, "others", process::id(rt.process()))?;
    for k in 0..10_000u32 {
        write(
            &rt,
            alloc,
            root.as_str(),
            format!(in alloc; "other_{k}")?.as_str(),
            b"",
        )?;
    }
    for name in &NEARLY {
        write(&rt, alloc, root.as_str(), name, b"nothing of ours")?;
    }
    assert!(rt; opened(&rt, alloc, root.as_str())? == Some(Ok(2)));
    rt.remove_dir_all(alloc, root.as_str())?;
    Ok(())
}

#[test]
fn a_file_above_2_to_the_30_bytes_is_not_read(rt: HostRuntime) -> Result<(), Fail> {
    let alloc = rt.alloc();
    let root = made(&rt, alloc, "large", process::id(rt.process()))?;
    stretch(
        &rt,
        alloc,
        root.as_str(),
        "edits_0000000000000000003-0000000000000000004",
        TOO_LARGE,
    )?;
    stretch(
        &rt,
        alloc,
        root.as_str(),
        "fsimage_0000000000000000009",
        TOO_LARGE,
    )?;
    assert!(rt; opened(&rt, alloc, root.as_str())? == Some(Ok(2)));
    stretch(
        &rt,
        alloc,
        root.as_str(),
        "fsimage_0000000000000000000",
        TOO_LARGE,
    )?;
    let told = opened(&rt, alloc, root.as_str())?;
    assert!(rt; word_of(told) == "too-large");
    rt.remove_dir_all(alloc, root.as_str())?;
    Ok(())
}
