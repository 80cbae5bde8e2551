// Looks at what a directory holds. A directory that isn't below the count holds nothing.
use nn_base::{DirNo, FileName, NoMemory, Sub};
use nn_host::Host;
use nn_small::read_all;
use std::alloc::Global;

const SUBS: [Sub; 7] = [
    Sub::Current,
    Sub::Previous,
    Sub::PreviousTmp,
    Sub::RemovedTmp,
    Sub::FinalizedTmp,
    Sub::LastCheckpointTmp,
    Sub::PreviousCheckpoint,
];

/// Whether the directory has the folder.
pub fn has_sub<H: Host>(host: &mut H, i: DirNo, sub: Sub) -> bool {
    i.0 < host.count() && host.has_sub(i, sub) == Ok(true)
}

/// Whether `current` has no such file.
pub fn lacks<H: Host>(host: &mut H, i: DirNo, name: FileName) -> bool {
    i.0 < host.count() && host.has_file(i, Sub::Current, name) == Ok(false)
}

/// Whether the file of the folder has these bytes.
pub fn has<H: Host>(
    alloc: Global,
    host: &mut H,
    i: DirNo,
    sub: Sub,
    name: FileName,
    bytes: &[u8],
) -> bool {
    match bytes_of(alloc, host, i, sub, name) {
        Some(found) => found.as_slice() == bytes,
        None => false,
    }
}

/// Whether these are the files of the folder, in the order of their names.
pub fn lists<H: Host>(
    alloc: Global,
    host: &mut H,
    i: DirNo,
    sub: Sub,
    wanted: &[&'static str],
) -> bool {
    let names = names(alloc, host, i, sub);
    names.len() == wanted.len()
        && names
            .iter()
            .zip(wanted)
            .all(|(name, text)| *name == crate::file(text))
}

/// All that the directories hold: each file of each folder, with its bytes. Two hosts that read the same have the same.
pub fn contents<H: Host>(alloc: Global, host: &mut H) -> Result<Vec<u8>, NoMemory> {
    let mut out = Vec::new(alloc);
    for i in 0..host.count() {
        for (k, sub) in (0u8..).zip(SUBS) {
            if has_sub(host, DirNo(i), sub) {
                out.extend_from_slice(&[i, k])?;
                add_files(alloc, host, DirNo(i), sub, &mut out)?;
            }
        }
    }
    Ok(out)
}

fn add_files<H: Host>(
    alloc: Global,
    host: &mut H,
    i: DirNo,
    sub: Sub,
    out: &mut Vec<u8>,
) -> Result<(), NoMemory> {
    for name in names(alloc, host, i, sub).iter() {
        name.text(out)?;
        if let Some(bytes) = bytes_of(alloc, host, i, sub, *name) {
            out.extend_from_slice(&(bytes.len() as u64).to_be_bytes())?;
            out.extend_from_slice(&bytes)?;
        }
    }
    Ok(())
}

fn names<H: Host>(alloc: Global, host: &mut H, i: DirNo, sub: Sub) -> Vec<FileName> {
    let mut names = Vec::new(alloc);
    if i.0 < host.count() {
        let _ = host.list(i, sub, &mut names);
    }
    names
}

fn bytes_of<H: Host>(
    alloc: Global,
    host: &mut H,
    i: DirNo,
    sub: Sub,
    name: FileName,
) -> Option<Vec<u8>> {
    if host.count() <= i.0 {
        return None;
    }
    read_all(alloc, host, i, sub, name, 1_000_000).ok()
}
