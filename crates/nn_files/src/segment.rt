// Appending to files and syncing them. The segment in progress stays open from one append to the next.
use crate::paths::Place;
use nn_base::{FileName, FirstTxid, Sub};
use std::fs::{File, OpenFile, OpenOptions};
use std::io;
use std::io::{ErrorKind, Write};
use std::rt::Files;

/// An open segment in progress. It is closed before its file is renamed, removed or made anew.
#[derive(Drop)]
pub struct Segment<F> {
    sub: Sub,
    first: FirstTxid,
    file: F,
}

impl<F> Segment<F> {
    /// Whether it is this file.
    pub fn is(&self, sub: Sub, name: &FileName) -> bool {
        match *name {
            FileName::InProgress(first) => first == self.first && sub == self.sub,
            _ => false,
        }
    }
}

impl<F: OpenFile + Write> Segment<F> {
    /// Writes all the bytes at its end.
    pub fn append(&mut self, bytes: &[u8]) -> io::Result<()> {
        match self.file.write(bytes) {
            // As a rule one call takes them all.
            Ok(count) if count == bytes.len() => Ok(()),
            part => append_rest(&mut self.file, bytes, part),
        }
    }

    /// Syncs its bytes. `sync_data` syncs its length with them.
    pub fn sync(&self) -> io::Result<()> {
        self.file.sync_data()
    }
}

// Goes on behind a call that took a part of the bytes, or that a signal interrupted.
#[cold]
#[inline(never)]
fn append_rest<F: Write>(file: &mut F, bytes: &[u8], part: io::Result<usize>) -> io::Result<()> {
    let taken = match part {
        Ok(count) => count,
        Err(error) if error.kind() == ErrorKind::Interrupted => 0,
        Err(error) => return Err(error),
    };
    match bytes.get(taken..) {
        Some(rest) => file.write_all(rest),
        None => Ok(()),
    }
}

/// Closes the segment if it is this file, and says whether it was.
pub fn close_file<F: Drop>(segment: &mut Option<Segment<F>>, sub: Sub, name: &FileName) -> bool {
    if let Some(open) = segment
        && open.is(sub, name)
    {
        *segment = None;
        return true;
    }
    false
}

/// Closes the segment if it is in this subfolder.
pub fn close_sub<F: Drop>(segment: &mut Option<Segment<F>>, sub: Sub) {
    if let Some(open) = segment
        && open.sub == sub
    {
        *segment = None;
    }
}

/// Writes all the bytes at the end of a file that isn't open, and keeps it open if it is a segment in progress.
pub fn append_closed<R: Files>(
    place: &Place<'_, R>,
    segment: &mut Option<Segment<R::File>>,
    sub: Sub,
    name: FileName,
    bytes: &[u8],
) -> io::Result<()> {
    let path = place.file_path(sub, &name)?;
    if !place.is_file(path.as_str())? {
        return Ok(());
    }
    let mut file = OpenOptions::new()
        .append(true)
        .open(place.rt, path.as_str())?;
    file.write_all(bytes)?;
    if let FileName::InProgress(first) = name {
        *segment = Some(Segment { sub, first, file });
    }
    Ok(())
}

/// Syncs the bytes of a file that isn't open.
pub fn sync_closed<R: Files>(place: &Place<'_, R>, sub: Sub, name: FileName) -> io::Result<()> {
    let path = place.file_path(sub, &name)?;
    if !place.is_file(path.as_str())? {
        return Ok(());
    }
    File::open(place.rt, path.as_str())?.sync_data()
}
