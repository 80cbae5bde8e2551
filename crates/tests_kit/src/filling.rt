// Directories in memory that are filled with files.
use nn_base::decimal::number;
use nn_base::{DirNo, FileName, FirstTxid, NoMemory, Span, Sub, Txid};
use nn_host::Host;
use nn_memhost::MemHost;
use std::alloc::Global;

/// A file's name, with its ids without leading zeros, and the parts of its bytes, one behind the other.
pub type File = (&'static str, &'static [&'static [u8]]);

/// The file of a name whose ids are written without leading zeros; any other text counts as `VERSION`.
pub fn file(name: &str) -> FileName {
    match name {
        "VERSION.tmp" => FileName::VersionTmp,
        "seen_txid" => FileName::Seen,
        "seen_txid.tmp" => FileName::SeenTmp,
        _ => numbered(name).unwrap_or(FileName::Version),
    }
}

fn numbered(name: &str) -> Option<FileName> {
    if let Some(id) = name.strip_prefix("edits_inprogress_") {
        return in_progress(txid(id)?);
    }
    if let Some(ids) = name.strip_prefix("edits_") {
        let (first, last) = ids.split_once('-')?;
        return finalized(txid(first)?, txid(last)?);
    }
    if let Some(id) = name.strip_prefix("fsimage.ckpt_") {
        return Some(FileName::Ckpt(txid(id)?));
    }
    let id = name.strip_prefix("fsimage_")?;
    match id.strip_suffix(".md5") {
        Some(id) => Some(FileName::Md5(txid(id)?)),
        None => Some(FileName::Image(txid(id)?)),
    }
}

fn txid(digits: &str) -> Option<Txid> {
    Some(Txid(number(digits.as_bytes())?))
}

fn in_progress(first: Txid) -> Option<FileName> {
    match first.0 {
        0 => None,
        _ => Some(FileName::InProgress(FirstTxid(first))),
    }
}

fn finalized(first: Txid, last: Txid) -> Option<FileName> {
    match 0 < first.0 && first.0 <= last.0 {
        true => Some(FileName::Edits(Span { first, last })),
        false => None,
    }
}

/// Gives the directory a file; none where it isn't below the count.
pub fn give(
    host: &mut MemHost,
    i: DirNo,
    sub: Sub,
    name: FileName,
    bytes: &[u8],
) -> Result<(), NoMemory> {
    if host.count() <= i.0 {
        return Ok(());
    }
    host.with_file(i, sub, name, bytes)
}

/// Gives the subfolder of a directory these files.
pub fn give_all(
    alloc: Global,
    host: &mut MemHost,
    i: DirNo,
    sub: Sub,
    files: &[File],
) -> Result<(), NoMemory> {
    for (name, parts) in files {
        let mut bytes = Vec::new(alloc);
        for part in *parts {
            bytes.extend_from_slice(part)?;
        }
        give(host, i, sub, file(name), &bytes)?;
    }
    Ok(())
}
