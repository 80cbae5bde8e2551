// What the tests on real folders share: a folder of its own for each, and calls that are lines of words.
use nn_base::{DirNo, FileName, NoMemory, Sub};
use nn_files::FileHost;
use nn_host::{Failed, Host};
use std::alloc::Global;
use std::path::AsPath;
use std::process::Abort;
use std::rt::{Env, Files};
use std::test::Fail;
use std::{env, fs};

/// The one directory.
pub const DIR: DirNo = DirNo(0);

/// A folder of its own for a test, by the test's name and the process.
pub fn made_root<R: Files + Env + Alloc>(
    rt: &R,
    alloc: Global,
    test: &str,
    process: u32,
) -> Result<String, Fail> {
    let place = env::temp_dir(rt)?;
    let place = place.path_text();
    let root = format!(in alloc; "{place}/nn_files_{test}_{process}")?;
    fs::create_dir(rt, root.as_str())?;
    Ok(root)
}

/// A host with the one directory at this path.
pub fn host_of<R: Files + Print + Eprint + Drop>(
    rt: R,
    alloc: Global,
    root: &str,
) -> Result<FileHost<R>, NoMemory> {
    let mut paths = Vec::new(alloc);
    paths.push(String::from_str(alloc, root)?)?;
    FileHost::open(rt, alloc, paths)
}

/// Does what a line says: a verb, a subfolder and what the verb takes.
pub fn act<H: Host>(rt: &impl Abort, host: &mut H, line: &str) -> Result<(), Failed> {
    assert!(rt; 0 < host.count());
    let mut words = line.split(' ');
    let verb = words.next().unwrap_or("");
    let sub = sub_of(words.next().unwrap_or(""));
    let object = words.next().unwrap_or("");
    let further = words.next().unwrap_or("");
    match verb {
        "make" => host.make_sub(DIR, sub),
        "file" => host.make_file(DIR, sub, name_of(object)),
        "append" => host.append(DIR, sub, name_of(object), further.as_bytes()),
        "sync" => host.sync(DIR, sub, name_of(object)),
        "rename" => host.rename_file(DIR, sub, name_of(object), name_of(further)),
        "remove" => host.remove_file(DIR, sub, name_of(object)),
        "move" => host.rename_sub(DIR, sub, sub_of(object)),
        "drop" => host.remove_sub(DIR, sub),
        "settle" => host.settle(DIR),
        _ => Err(Failed),
    }
}

/// The subfolder of a word.
pub fn sub_of(word: &str) -> Sub {
    match word {
        "current" => Sub::Current,
        "previous" => Sub::Previous,
        "previous.tmp" => Sub::PreviousTmp,
        _ => Sub::RemovedTmp,
    }
}

/// The file of a word. INPROGRESS and EDITS stand for the names of segments.
pub fn name_of(word: &str) -> FileName {
    let text = match word {
        "INPROGRESS" => "edits_inprogress_0000000000000000001",
        "EDITS" => "edits_0000000000000000001-0000000000000000002",
        _ => word,
    };
    FileName::parse(text.as_bytes()).unwrap_or(FileName::Version)
}
