// A file that is kept in memory.
ghost use Rattle.std.specs.Prelude.{◌≡◌, ℕ, ◌+◌, ◌-◌, ◌≤◌, ◌<◌, ◌&&◌, ◌++◌, [], true, false, Some, None, is_some, OnOk, OnErr, IfOk, option_map, if◌then◌else◌, length, map, take};
ghost use Rattle.std.specs.List.{position_or_len};
ghost use Rattle.nn_base.specs.Names.{sub_eq, file_eq};
ghost use Rattle.nn_base.specs.declared.sub.Sub.{Sub as S};
ghost use Rattle.nn_base.specs.declared.file_name.FileName.{FileName as N};
ghost use Rattle.nn_host.specs.Disk.{added};
ghost use Rattle.nn_memhost.specs.Content.{fresh_content, synced_content, grown};

use crate::stop::{Keep, keep_tail};
use nn_base::{FileName, NoMemory, Sub};
use std::alloc::Global;

/// A file: its bytes as they read, how many of them are synced, and all bytes that were handed over since.
#[derive(Drop)]
pub struct KeptFile {
    pub sub: Sub,
    pub name: FileName,
    pub bytes: Vec<u8>,
    pub synced: usize,
    pub pending: Vec<u8>,
    ghost within: { synced ≤ length bytes.items },
    ghost handed: { length bytes.items - synced ≤ length pending.items },
}

impl KeptFile {
    ghost use Rattle.nn_memhost.specs.Kept.{content_of};
    ghost use Rattle.nn_memhost.specs.Stop.{stopped_content};

    pub fn fresh(alloc: Global, sub: Sub, name: FileName) -> KeptFile
        ensures content { content_of result ≡ fresh_content }
        ensures at { (result.sub ≡ sub) × (result.name ≡ name) }
    {
        KeptFile {
            sub,
            name,
            bytes: Vec::new(alloc),
            synced: 0,
            pending: Vec::new(alloc),
        }
    }

    /// A file with these bytes, all of them synced.
    pub fn synced(sub: Sub, name: FileName, bytes: Vec<u8>) -> KeptFile
        ensures content { content_of result ≡ record { bytes = bytes.items; synced = bytes.items; pending = [] } }
        ensures at { (result.sub ≡ sub) × (result.name ≡ name) }
    {
        let synced = bytes.len();
        let pending = Vec::new(*bytes.allocator());
        KeptFile {
            sub,
            name,
            bytes,
            synced,
            pending,
        }
    }

    pub fn copy_of(&self, alloc: Global) -> Result<KeptFile, NoMemory>
        ensures content { IfOk result (λ copy. content_of copy ≡ content_of self.now) }
        ensures at { IfOk result (λ copy. (copy.sub ≡ self.now.sub) × (copy.name ≡ self.now.name)) }
    {
        let bytes = Vec::from_slice(alloc, &self.bytes)?;
        let pending = Vec::from_slice(alloc, &self.pending)?;
        Ok(KeptFile {
            sub: self.sub,
            name: self.name,
            bytes,
            synced: self.synced,
            pending,
        })
    }

    /// A copy of what a stop leaves of it.
    pub fn stopped(&self, alloc: Global, keep: Keep) -> Result<KeptFile, NoMemory>
        ensures content { IfOk result (λ left. content_of left ≡ stopped_content keep (content_of self.now)) }
        ensures at { IfOk result (λ left. (left.sub ≡ self.now.sub) × (left.name ≡ self.now.name)) }
    {
        let mut bytes = Vec::from_slice(alloc, &self.bytes[..self.synced])?;
        keep_tail(&mut bytes, &self.pending, keep)?;
        Ok(KeptFile::synced(self.sub, self.name, bytes))
    }

    // Takes these bytes, of which the first are written.
    pub fn grow(&mut self, bytes: &[u8], written: usize) -> Result<(), NoMemory>
        requires { written ≤ length bytes.now }
        ensures ok { OnOk result (content_of self.new ≡ grown written bytes.now (content_of self.old)) }
        ensures err { OnErr result (content_of self.new ≡ content_of self.old) }
        ensures at { (self.new.sub ≡ self.old.sub) × (self.new.name ≡ self.old.name) }
    {
        let before = self.bytes.len();
        self.bytes.extend_from_slice(&bytes[..written])?;
        if self.pending.extend_from_slice(bytes).is_err() {
            self.bytes.truncate(before);
            return Err(NoMemory);
        }
        Ok(())
    }

    pub fn sync(&mut self)
        ensures content { content_of self.new ≡ synced_content (content_of self.old) }
        ensures at { (self.new.sub ≡ self.old.sub) × (self.new.name ≡ self.old.name) }
    {
        self.synced = self.bytes.len();
        self.pending.clear();
    }
}
