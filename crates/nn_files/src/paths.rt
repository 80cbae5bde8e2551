// Where a directory, its subfolders and its files stand.
use nn_base::{FileName, NoMemory, Sub};
use std::alloc::Global;
use std::io;
use std::io::ErrorKind;

/// One name directory of the system.
#[derive(Drop)]
pub struct Place<'a, R> {
    pub rt: &'a R,
    pub alloc: Global,
    pub root: &'a str,
}

impl<'a, R> Place<'a, R> {
    pub fn new(rt: &'a R, alloc: Global, root: &'a str) -> Place<'a, R> {
        Place { rt, alloc, root }
    }

    /// The path of a subfolder. Nothing stands below an empty path, so it stays empty: a separator would make it the root of
    /// the system.
    pub fn sub_path(&self, sub: Sub) -> io::Result<String> {
        if self.root.is_empty() {
            return Ok(String::new(self.alloc));
        }
        let (root, sub) = (self.root, sub_name(sub));
        Ok(format!(in self.alloc; "{root}/{sub}")?)
    }

    /// The path of a file.
    pub fn file_path(&self, sub: Sub, name: &FileName) -> io::Result<String> {
        let mut path = self.sub_path(sub)?.into_bytes();
        if !path.is_empty() {
            path.push(b'/')?;
            add_text(name, &mut path)?;
        }
        match String::from_utf8(path) {
            Ok(path) => Ok(path),
            Err(_) => Err(ErrorKind::InvalidFilename.into()),
        }
    }
}

fn add_text(name: &FileName, path: &mut Vec<u8>) -> io::Result<()> {
    let name = *name;
    match name.text(path) {
        Ok(()) => Ok(()),
        Err(NoMemory) => Err(ErrorKind::OutOfMemory.into()),
    }
}

fn sub_name(sub: Sub) -> &'static str {
    match sub {
        Sub::Current => "current",
        Sub::Previous => "previous",
        Sub::PreviousTmp => "previous.tmp",
        Sub::RemovedTmp => "removed.tmp",
        Sub::FinalizedTmp => "finalized.tmp",
        Sub::LastCheckpointTmp => "lastcheckpoint.tmp",
        Sub::PreviousCheckpoint => "previous.checkpoint",
    }
}
