// What the segments of a directory hold, read plainly.
use nn_base::{DirNo, FileName, Sub, Txid};
use nn_host::Host;
use nn_memhost::MemHost;
use nn_segment::intact_run;
use nn_small::read_all;
use std::alloc::Global;

pub const LAYOUT: i32 = -1001;

// More bytes than any file of these tests has.
const MOST: u64 = 1 << 27;

/// The bytes of a file in `current`; none where it isn't there.
pub fn bytes(alloc: Global, host: &mut MemHost, i: DirNo, name: &FileName) -> Vec<u8> {
    if host.count() <= i.0 {
        return Vec::new(alloc);
    }
    match read_all(alloc, host, i, Sub::Current, *name, MOST) {
        Ok(found) => found,
        Err(_) => Vec::new(alloc),
    }
}

/// The names in `current`, in their order; none where the host failed.
pub fn names(alloc: Global, host: &mut MemHost, i: DirNo) -> Vec<FileName> {
    let mut names = Vec::new(alloc);
    if i.0 < host.count() {
        let _ = host.list(i, Sub::Current, &mut names);
    }
    names
}

/// The last id that segments of the directory lead to from the id 0, or None where one begins behind an id that none has, or
/// has the name of a finalized one and doesn't go to the id of its name.
pub fn reached(alloc: Global, host: &mut MemHost, i: DirNo) -> Option<u64> {
    let mut last = 0;
    for name in names(alloc, host, i).iter() {
        if let Some(first) = first_of(*name) {
            let text = bytes(alloc, host, i, name);
            let end = end_of(alloc, &text, first)?;
            if last < first.0.saturating_sub(1) || !goes_to_its_end(*name, end) {
                return None;
            }
            last = last.max(end);
        }
    }
    Some(last)
}

/// The number in `seen_txid`, or 0 where it isn't there.
pub fn seen(alloc: Global, host: &mut MemHost, i: DirNo) -> u64 {
    let mut number = 0_u64;
    for byte in bytes(alloc, host, i, &FileName::Seen).iter() {
        if byte.is_ascii_digit() {
            number = number
                .saturating_mul(10)
                .saturating_add(u64::from(byte.saturating_sub(b'0')));
        }
    }
    number
}

fn first_of(name: FileName) -> Option<Txid> {
    match name {
        FileName::Edits(span) => Some(span.first),
        FileName::InProgress(first) => Some(first.0),
        _ => None,
    }
}

// The last id of the segment's intact run, or 0 where it has no record.
fn end_of(alloc: Global, text: &[u8], first: Txid) -> Option<u64> {
    let run = intact_run(alloc, text, LAYOUT, first).ok()?;
    match run.last {
        Some(id) => Some(id.0),
        None => Some(0),
    }
}

fn goes_to_its_end(name: FileName, end: u64) -> bool {
    match name {
        FileName::Edits(span) => span.last.0 == end,
        _ => true,
    }
}
