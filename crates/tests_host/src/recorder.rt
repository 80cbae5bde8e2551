// A runtime that does what another does and writes down each change and each sync; looks are left out.
use std::alloc::{Allocator, Global};
use std::cell::RefCell;
use std::fmt::Display;
use std::fs::{Metadata, OpenFile, OpenOptions};
use std::io;
use std::io::{ErrorKind, Read, Seek, SeekFrom, Write};
use std::rt::Files;

/// The calls so far, with paths from the root on, how many more are done before one fails, and how many bytes a write takes.
#[derive(Drop)]
pub struct Record {
    root: String,
    calls: String,
    lasts: usize,
    most: usize,
}

impl Record {
    pub fn calls(&self) -> &str {
        self.calls.as_str()
    }

    pub fn new(alloc: Global, root: &str) -> io::Result<Record> {
        Ok(Record {
            root: String::from_str(alloc, root)?,
            calls: String::new(alloc),
            lasts: usize::MAX,
            most: usize::MAX,
        })
    }

    /// The calls from here on, of which so many are done before one fails.
    pub fn begin(&mut self, lasts: usize) {
        self.calls.clear();
        self.lasts = lasts;
    }

    /// From here on a write takes at most so many bytes.
    pub fn shorten(&mut self, most: usize) {
        self.most = most;
    }

    fn add(&mut self, call: &str, path: &str, to: Option<&str>) -> io::Result<()> {
        if !self.calls.is_empty() {
            self.calls.push_str(", ")?;
        }
        self.calls.push_str(call)?;
        self.add_path(path)?;
        if let Some(to) = to {
            self.calls.push_str(" to")?;
            self.add_path(to)?;
        }
        if self.lasts == 0 {
            return Err(ErrorKind::PermissionDenied.into());
        }
        self.lasts -= 1;
        Ok(())
    }

    // The root itself is `.`.
    fn add_path(&mut self, path: &str) -> io::Result<()> {
        let below = path.strip_prefix(self.root.as_str()).unwrap_or(path);
        let below = below.strip_prefix("/").unwrap_or(below);
        self.calls.push(' ')?;
        self.calls
            .push_str(if below.is_empty() { "." } else { below })?;
        Ok(())
    }
}

// Writes a call down that is about to be done, and fails where it is to fail.
fn note(record: &RefCell<Record>, call: &str, path: &str, to: Option<&str>) -> io::Result<()> {
    match record.try_borrow_mut() {
        Ok(mut record) => record.add(call, path, to),
        Err(_) => Err(ErrorKind::Other.into()),
    }
}

/// The runtime `rt`, with a record of its calls.
#[derive(Drop)]
pub struct Recorder<'a, R> {
    pub rt: &'a R,
    pub alloc: Global,
    pub record: &'a RefCell<Record>,
}

/// An open file of it.
#[derive(Drop)]
pub struct Recorded<'a, F> {
    file: F,
    path: String,
    record: &'a RefCell<Record>,
}

impl<'a, F: Read> Read for Recorded<'a, F> {
    fn read(&mut self, out: &mut [u8]) -> io::Result<usize> {
        self.file.read(out)
    }
}

impl<'a, F: Write> Write for Recorded<'a, F> {
    fn write(&mut self, bytes: &[u8]) -> io::Result<usize> {
        note(self.record, "write", self.path.as_str(), None)?;
        let most = match self.record.try_borrow() {
            Ok(record) => record.most.min(bytes.len()),
            Err(_) => return Err(ErrorKind::Other.into()),
        };
        self.file.write(&bytes[..most])
    }

    fn flush(&mut self) -> io::Result<()> {
        self.file.flush()
    }
}

impl<'a, F: Seek> Seek for Recorded<'a, F> {
    fn seek(&mut self, to: SeekFrom) -> io::Result<u64> {
        self.file.seek(to)
    }
}

impl<'a, F: OpenFile> OpenFile for Recorded<'a, F> {
    fn metadata(&self) -> io::Result<Metadata> {
        self.file.metadata()
    }

    fn set_len(&self, size: u64) -> io::Result<()> {
        note(self.record, "ftruncate", self.path.as_str(), None)?;
        self.file.set_len(size)
    }

    fn sync_all(&self) -> io::Result<()> {
        note(self.record, "fsync", self.path.as_str(), None)?;
        self.file.sync_all()
    }

    fn sync_data(&self) -> io::Result<()> {
        note(self.record, "fdatasync", self.path.as_str(), None)?;
        self.file.sync_data()
    }
}

impl<'a, R: Files> Files for Recorder<'a, R> {
    type File = Recorded<'a, R::File>;

    type Dir = R::Dir;

    fn open_file(&self, how: &OpenOptions, path: &str) -> io::Result<Recorded<'a, R::File>> {
        if how.asks_create() {
            note(self.record, "create", path, None)?;
        } else if how.asks_append() {
            note(self.record, "open", path, None)?;
        }
        let path_of = String::from_str(self.alloc, path)?;
        Ok(Recorded {
            file: self.rt.open_file(how, path)?,
            path: path_of,
            record: self.record,
        })
    }

    fn open_dir(&self, path: &str) -> io::Result<R::Dir> {
        self.rt.open_dir(path)
    }

    fn metadata(&self, path: &str) -> io::Result<Metadata> {
        self.rt.metadata(path)
    }

    fn symlink_metadata(&self, path: &str) -> io::Result<Metadata> {
        self.rt.symlink_metadata(path)
    }

    fn copy(&self, from: &str, to: &str) -> io::Result<u64> {
        note(self.record, "copy", to, None)?;
        self.rt.copy(from, to)
    }

    fn rename(&self, from: &str, to: &str) -> io::Result<()> {
        note(self.record, "rename", from, Some(to))?;
        self.rt.rename(from, to)
    }

    fn remove_file(&self, path: &str) -> io::Result<()> {
        note(self.record, "unlink", path, None)?;
        self.rt.remove_file(path)
    }

    fn create_dir(&self, path: &str) -> io::Result<()> {
        note(self.record, "mkdir", path, None)?;
        self.rt.create_dir(path)
    }

    fn remove_dir(&self, path: &str) -> io::Result<()> {
        note(self.record, "rmdir", path, None)?;
        self.rt.remove_dir(path)
    }

    fn remove_dir_all<B: Allocator>(&self, alloc: B, path: &str) -> io::Result<()> {
        note(self.record, "rmtree", path, None)?;
        self.rt.remove_dir_all(alloc, path)
    }
}

impl<'a, R: Print> Print for Recorder<'a, R> {
    fn print<D: Display + Drop>(&self, value: D) -> io::Result<()> {
        self.rt.print(value)
    }

    fn println<D: Display + Drop>(&self, value: D) -> io::Result<()> {
        self.rt.println(value)
    }

    fn write_all(&self, bytes: &[u8]) -> io::Result<()> {
        self.rt.write_all(bytes)
    }
}

impl<'a, R: Eprint> Eprint for Recorder<'a, R> {
    fn eprint<D: Display + Drop>(&self, value: D) -> io::Result<()> {
        self.rt.eprint(value)
    }

    fn eprintln<D: Display + Drop>(&self, value: D) -> io::Result<()> {
        self.rt.eprintln(value)
    }
}
