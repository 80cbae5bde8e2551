// Listing the files of a subfolder.
use crate::looks::read_some;
use crate::paths::Place;
use nn_base::{FileName, Sub};
use std::alloc::AllocFailed;
use std::io;
use std::io::ErrorKind;
use std::rt::Files;

/// Why a subfolder wasn't listed.
#[derive(Drop)]
pub enum Unlisted {
    /// The system refused it, or there was no memory for a path.
    Failed(io::Error),
    /// There was no memory for the names.
    Memory,
}

impl From<io::Error> for Unlisted {
    fn from(error: io::Error) -> Unlisted {
        Unlisted::Failed(error)
    }
}

impl From<AllocFailed<FileName>> for Unlisted {
    fn from(_: AllocFailed<FileName>) -> Unlisted {
        Unlisted::Memory
    }
}

impl From<Unlisted> for io::Error {
    fn from(fault: Unlisted) -> io::Error {
        match fault {
            Unlisted::Failed(error) => error,
            Unlisted::Memory => ErrorKind::OutOfMemory.into(),
        }
    }
}

// Room for at least one entry of a folder: a name has at most 255 bytes and one that ends it.
const CHUNK: usize = 4096;

impl<'a, R: Files> Place<'a, R> {
    /// The names of the files of a subfolder, in the byte order of their texts.
    pub fn list(&self, sub: Sub) -> Result<Vec<FileName>, Unlisted> {
        let mut names = Vec::new(self.alloc);
        if self.has_sub(sub)? {
            self.add_names(sub, &mut names)?;
        }
        names.sort_unstable_by_key(|name| order_of(*name));
        Ok(names)
    }

    fn add_names(&self, sub: Sub, names: &mut Vec<FileName>) -> Result<(), Unlisted> {
        let mut folder = self.sub_path(sub)?;
        // With a separator behind it a link is followed.
        folder.push('/').map_err(io::Error::from)?;
        let mut entries = self.rt.open_dir(folder.as_str())?;
        let mut chunk = [0u8; CHUNK];
        'chunks: for _ in 0..u64::MAX {
            let count = read_some(&mut entries, &mut chunk)?;
            if count == 0 {
                break;
            }
            self.add_chunk(sub, &chunk[..count], names)?;
        }
        Ok(())
    }

    // Each text of a chunk ends with a zero byte.
    fn add_chunk(&self, sub: Sub, chunk: &[u8], names: &mut Vec<FileName>) -> Result<(), Unlisted> {
        'texts: for text in chunk.split(|byte| *byte == 0) {
            self.add_name(sub, text, names)?;
        }
        Ok(())
    }

    // Texts that are no form of a file name are passed over, and so is what is no file.
    fn add_name(&self, sub: Sub, text: &[u8], names: &mut Vec<FileName>) -> Result<(), Unlisted> {
        let Some(name) = FileName::parse(text) else {
            return Ok(());
        };
        if self.has_file(sub, &name)? {
            names.push(name)?;
        }
        Ok(())
    }
}

// What orders names as their texts: the front of the form, and behind it ids of 19 digits.
fn order_of(name: FileName) -> (u8, u64, u64) {
    match name {
        FileName::Version => (0, 0, 0),
        FileName::VersionTmp => (1, 0, 0),
        FileName::Edits(span) => (2, span.first.0, span.last.0),
        FileName::InProgress(first) => (3, first.0.0, 0),
        FileName::Ckpt(id) => (4, id.0, 0),
        FileName::Image(id) => (5, id.0, 0),
        FileName::Md5(id) => (5, id.0, 1),
        FileName::Md5Tmp(id) => (5, id.0, 2),
        FileName::Seen => (6, 0, 0),
        FileName::SeenTmp => (7, 0, 0),
    }
}
