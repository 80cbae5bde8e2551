// Changing a directory: making, renaming and removing, each with the sync of the folder that holds the name.
//
// What is there is looked at first, so that an error of the change itself is a failure, whatever its kind.
use crate::doing::{Doing, Verb};
use crate::paths::Place;
use nn_base::{FileName, Sub};
use std::fs::{File, OpenFile, create_dir, remove_file, rename};
use std::io;
use std::io::ErrorKind;
use std::rt::Files;

impl<'a, R: Files> Place<'a, R> {
    pub fn make_sub(&self, sub: Sub) -> io::Result<()> {
        let path = self.sub_path(sub)?;
        if !self.has_root()? || self.is_folder(path.as_str())? {
            return Ok(());
        }
        create_dir(self.rt, path.as_str())?;
        self.sync_folder(self.root)
    }

    pub fn make_file(&self, sub: Sub, name: &FileName) -> io::Result<()> {
        let folder = self.sub_path(sub)?;
        if !self.is_folder(folder.as_str())? {
            return Ok(());
        }
        let path = self.file_path(sub, name)?;
        if self
            .found(path.as_str())?
            .is_some_and(|thing| !thing.is_file())
        {
            return Err(ErrorKind::AlreadyExists.into());
        }
        // A file that was emptied has to stay empty, so its length is synced too.
        File::create(self.rt, path.as_str())?.sync_all()?;
        self.sync_folder(folder.as_str())
    }

    pub fn rename_file(&self, sub: Sub, from: &FileName, to: &FileName) -> io::Result<()> {
        let from = self.file_path(sub, from)?;
        if !self.is_file(from.as_str())? {
            return Ok(());
        }
        let to = self.file_path(sub, to)?;
        rename(self.rt, from.as_str(), to.as_str())?;
        self.sync_sub(sub)
    }

    /// As `rename_file`, of a file that was open until now: one that isn't there any more was taken away by someone else,
    /// with what was written to it.
    pub fn rename_written(&self, sub: Sub, from: &FileName, to: &FileName) -> io::Result<()> {
        let path = self.file_path(sub, from)?;
        if !self.is_file(path.as_str())? {
            return Err(ErrorKind::NotFound.into());
        }
        self.rename_file(sub, from, to)
    }

    pub fn rename_sub(&self, from: Sub, to: Sub) -> io::Result<()> {
        let from = self.sub_path(from)?;
        if !self.is_folder(from.as_str())? {
            return Ok(());
        }
        let to = self.sub_path(to)?;
        // The system itself would replace an empty folder.
        match self.found(to.as_str())? {
            Some(thing) if thing.is_dir() => return Ok(()),
            Some(_) => return Err(ErrorKind::AlreadyExists.into()),
            None => {}
        }
        rename(self.rt, from.as_str(), to.as_str())?;
        self.sync_folder(self.root)
    }

    pub fn remove_file(&self, sub: Sub, name: &FileName) -> io::Result<()> {
        let path = self.file_path(sub, name)?;
        if !self.is_file(path.as_str())? {
            return Ok(());
        }
        remove_file(self.rt, path.as_str())?;
        self.sync_sub(sub)
    }

    pub fn remove_sub(&self, sub: Sub) -> io::Result<()> {
        let path = self.sub_path(sub)?;
        if !self.is_folder(path.as_str())? {
            return Ok(());
        }
        self.rt.remove_dir_all(self.alloc, path.as_str())?;
        self.sync_folder(self.root)
    }

    /// Syncs all that the directory reads: each file, then the subfolder that holds it, then the directory itself. After an error
    /// `doing` is what was refused.
    pub fn settle(&self, doing: &mut Doing) -> io::Result<()> {
        if !self.has_root()? {
            return Ok(());
        }
        'subs: for sub in SUBS {
            *doing = Doing::sub(Verb::LookAt, sub);
            if self.has_sub(sub)? {
                self.settle_sub(sub, doing)?;
            }
        }
        *doing = Doing::root(Verb::Sync);
        self.sync_folder(self.root)
    }

    fn settle_sub(&self, sub: Sub, doing: &mut Doing) -> io::Result<()> {
        *doing = Doing::sub(Verb::List, sub);
        let names = self.list(sub)?;
        'files: for name in names {
            *doing = Doing::file(Verb::Sync, sub, &name);
            let path = self.file_path(sub, &name)?;
            File::open(self.rt, path.as_str())?.sync_all()?;
        }
        *doing = Doing::sub(Verb::Sync, sub);
        self.sync_sub(sub)
    }

    fn sync_sub(&self, sub: Sub) -> io::Result<()> {
        let path = self.sub_path(sub)?;
        self.sync_folder(path.as_str())
    }

    // A name lasts once the folder that holds it is synced.
    fn sync_folder(&self, path: &str) -> io::Result<()> {
        File::open(self.rt, path)?.sync_all()
    }
}

const SUBS: [Sub; 7] = [
    Sub::Current,
    Sub::Previous,
    Sub::PreviousTmp,
    Sub::RemovedTmp,
    Sub::FinalizedTmp,
    Sub::LastCheckpointTmp,
    Sub::PreviousCheckpoint,
];
