// Looking at a directory: what is there, and the bytes of a file.
//
// Only a folder counts as a folder and only a regular file as a file; a link counts as what it leads to.
ghost use Rattle.std.specs.Prelude.{◌≤◌, IfOk, length};

use crate::paths::Place;
use nn_base::{FileName, Sub};
use std::fs::{File, Metadata, OpenFile, metadata};
use std::io;
use std::io::{ErrorKind, Read, Seek, SeekFrom};
use std::rt::Files;

impl<'a, R: Files> Place<'a, R> {
    pub fn has_root(&self) -> io::Result<bool> {
        self.is_folder(self.root)
    }

    pub fn has_sub(&self, sub: Sub) -> io::Result<bool> {
        let path = self.sub_path(sub)?;
        self.is_folder(path.as_str())
    }

    pub fn has_file(&self, sub: Sub, name: &FileName) -> io::Result<bool> {
        let path = self.file_path(sub, name)?;
        self.is_file(path.as_str())
    }

    /// How many bytes a file has; 0 where it isn't there.
    pub fn size(&self, sub: Sub, name: &FileName) -> io::Result<u64> {
        let path = self.file_path(sub, name)?;
        match self.found(path.as_str())? {
            Some(file) if file.is_file() => Ok(file.len()),
            _ => Ok(0),
        }
    }

    /// Fills the front of `out` with the file's bytes from `at` on, and says how many there were.
    pub fn read_at(&self, sub: Sub, name: &FileName, at: u64, out: &mut [u8]) -> io::Result<usize>
        ensures { IfOk result (λ n. n ≤ length out.old) }
    {
        let path = self.file_path(sub, name)?;
        if !self.is_file(path.as_str())? {
            return Ok(0);
        }
        let mut file = File::open(self.rt, path.as_str())?;
        // A place behind the end may be one that the system can't go to.
        if file.metadata()?.len() <= at {
            return Ok(0);
        }
        file.seek(SeekFrom::Start(at))?;
        fill(&mut file, out)
    }

    pub fn is_folder(&self, path: &str) -> io::Result<bool> {
        Ok(self.found(path)?.is_some_and(|thing| thing.is_dir()))
    }

    /// Tested before each opening, since to open another thing than a file, a pipe say, may wait for ever.
    pub fn is_file(&self, path: &str) -> io::Result<bool> {
        Ok(self.found(path)?.is_some_and(|thing| thing.is_file()))
    }

    /// What stands at this path, if anything does. Below a plain file nothing does.
    pub fn found(&self, path: &str) -> io::Result<Option<Metadata>> {
        match metadata(self.rt, path) {
            Ok(thing) => Ok(Some(thing)),
            Err(error) => match error.kind() {
                ErrorKind::NotFound | ErrorKind::NotADirectory => Ok(None),
                _ => Err(error),
            },
        }
    }
}

// Reads until the buffer is full or the file ends: one read may give fewer bytes than there are.
fn fill<F: Read>(file: &mut F, out: &mut [u8]) -> io::Result<usize>
    ensures { IfOk result (λ n. n ≤ length out.old) }
{
    let mut filled = 0;
    'reads: for _ in 0..u64::MAX {
        let count = read_some(file, &mut out[filled..])?;
        if count == 0 {
            break;
        }
        filled += count;
    }
    Ok(filled)
}

/// One read, tried again where a signal interrupts it. It gives 0 bytes only at the end, or where there is no room.
pub fn read_some<F: Read>(file: &mut F, out: &mut [u8]) -> io::Result<usize>
    ensures { IfOk result (λ n. n ≤ length out.old) }
{
    'tries: for _ in 0..u64::MAX {
        match file.read(out) {
            Err(error) if error.kind() == ErrorKind::Interrupted => {}
            answer => return answer,
        }
    }
    Err(ErrorKind::Interrupted.into())
}
