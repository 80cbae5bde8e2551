// A name directory as it is kept in memory.
pub mod file;
pub mod files;

ghost use Rattle.std.specs.Prelude.{◌≡◌, ℕ, ◌+◌, ◌≤◌, ◌<◌, ◌++◌, true, false, Some, None, OnOk, OnErr, IfOk, is_some, length, if◌then◌else◌};
ghost use Rattle.nn_base.specs.Names.{sub_eq, sub_code};
ghost use Rattle.nn_base.specs.declared.sub.Sub.{Sub as S};
ghost use Rattle.nn_base.specs.declared.file_name.FileName.{FileName as N};
ghost use Rattle.nn_memhost.specs.Kept.{content_at, has_flag};

use crate::kept::file::KeptFile;
use crate::stop::Keep;
use nn_base::{FileName, NoMemory, Sub};
use std::alloc::Global;

/// A directory: whether its root is there, which of its subfolders are, by their places, and the files in them.
#[derive(Drop)]
pub struct KeptDir {
    pub root: bool,
    pub subs: [bool; 7],
    pub files: Vec<KeptFile>,
    ghost rooted: { (s : S) → root ≡ false → has_flag subs s ≡ false },
    ghost housed: { (s : S) (n : N) → has_flag subs s ≡ false → content_at files.items s n ≡ None },
}

// A place of its own for each subfolder.
fn place(sub: Sub) -> usize
    ensures code { result ≡ sub_code sub }
    ensures below { result < 7 }
{
    match sub {
        Sub::Current => 0,
        Sub::Previous => 1,
        Sub::PreviousTmp => 2,
        Sub::RemovedTmp => 3,
        Sub::FinalizedTmp => 4,
        Sub::LastCheckpointTmp => 5,
        Sub::PreviousCheckpoint => 6,
    }
}

pub fn has_sub(subs: &[bool; 7], sub: Sub) -> bool
    ensures { result ≡ has_flag subs.now sub }
{
    subs[place(sub)]
}

fn set_flag(subs: &mut [bool; 7], sub: Sub, there: bool)
    ensures { (s : S) → has_flag subs.new s ≡ (if sub_eq s sub then there else has_flag subs.old s) }
{
    subs[place(sub)] = there;
}

impl KeptDir {
    ghost use Rattle.std.specs.Prelude.{not, option_map};
    ghost use Rattle.nn_host.specs.Disk.{MakeSub, MakeFile, Append, Sync, RenameFile, RenameSub, RemoveFile, RemoveSub, Settle};
    ghost use Rattle.nn_memhost.specs.Held.{held_of, bare, kept_after, given, rootless, written, settled, map_held};
    ghost use Rattle.nn_memhost.specs.Stop.{stopped_content};

    /// A directory with a root and nothing in it.
    pub fn bare(alloc: Global) -> KeptDir
        ensures { held_of result ≡ bare }
    {
        KeptDir {
            root: true,
            subs: [false; 7],
            files: Vec::new(alloc),
        }
    }

    pub fn make_sub(&mut self, sub: Sub)
        ensures { held_of self.new ≡ kept_after (MakeSub sub) (held_of self.old) }
    {
        if self.root && !has_sub(&self.subs, sub) {
            set_flag(&mut self.subs, sub, true);
        }
    }

    pub fn remove_sub(&mut self, sub: Sub)
        ensures { held_of self.new ≡ kept_after (RemoveSub sub) (held_of self.old) }
    {
        set_flag(&mut self.subs, sub, false);
        files::remove_all(&mut self.files, sub);
    }

    pub fn remove_file(&mut self, sub: Sub, name: &FileName)
        ensures { held_of self.new ≡ kept_after (RemoveFile sub name.now) (held_of self.old) }
    {
        files::remove(&mut self.files, sub, name);
    }

    pub fn make_file(&mut self, alloc: Global, sub: Sub, name: FileName) -> Result<(), NoMemory>
        ensures ok { OnOk result (held_of self.new ≡ kept_after (MakeFile sub name) (held_of self.old)) }
        ensures err { OnErr result (held_of self.new ≡ held_of self.old) }
    {
        if !has_sub(&self.subs, sub) {
            return Ok(());
        }
        files::put(&mut self.files, KeptFile::fresh(alloc, sub, name))
    }

    /// Hands bytes to a file, of which the first are written.
    pub fn append(
        &mut self,
        sub: Sub,
        name: &FileName,
        bytes: &[u8],
        count: usize,
    ) -> Result<(), NoMemory>
        requires { count ≤ length bytes.now }
        ensures ok { OnOk result (held_of self.new ≡ written count sub name.now bytes.now (held_of self.old)) }
        ensures err { OnErr result (held_of self.new ≡ held_of self.old) }
    {
        files::grow(&mut self.files, sub, name, bytes, count)
    }

    pub fn sync(&mut self, sub: Sub, name: &FileName)
        ensures { held_of self.new ≡ kept_after (Sync sub name.now) (held_of self.old) }
    {
        files::sync(&mut self.files, sub, name);
    }

    pub fn settle(&mut self)
        ensures { held_of self.new ≡ settled (held_of self.old) }
    {
        files::sync_all(&mut self.files);
    }

    pub fn rename_sub(&mut self, from: Sub, to: Sub)
        ensures { held_of self.new ≡ kept_after (RenameSub from to) (held_of self.old) }
    {
        if has_sub(&self.subs, from) && !has_sub(&self.subs, to) {
            files::move_all(&mut self.files, from, to);
            set_flag(&mut self.subs, from, false);
            set_flag(&mut self.subs, to, true);
        }
    }

    pub fn rename_file(&mut self, sub: Sub, from: &FileName, to: &FileName)
        ensures { held_of self.new ≡ kept_after (RenameFile sub from.now to.now) (held_of self.old) }
    {
        if files::same_name(from, to) {
            return;
        }
        if files::has(&self.files, sub, from) {
            files::remove(&mut self.files, sub, to);
            files::rename(&mut self.files, sub, from, to);
        }
    }

    /// Gives the file of this name these bytes, synced; its root, its subfolder and the file are made where they are
    /// not there.
    pub fn give(&mut self, sub: Sub, name: FileName, bytes: Vec<u8>) -> Result<(), NoMemory>
        ensures ok { OnOk result (held_of self.new ≡ given sub name bytes.items (held_of self.old)) }
        ensures err { OnErr result (held_of self.new ≡ held_of self.old) }
    {
        files::put(&mut self.files, KeptFile::synced(sub, name, bytes))?;
        self.root = true;
        set_flag(&mut self.subs, sub, true);
        Ok(())
    }

    /// Takes the root away, with all that is in it.
    pub fn unroot(&mut self)
        ensures { held_of self.new ≡ rootless }
    {
        self.root = false;
        self.subs = [false; 7];
        self.files.clear();
    }

    /// A copy of it.
    pub fn copy_of(&self, alloc: Global) -> Result<KeptDir, NoMemory>
        ensures { IfOk result (λ copy. held_of copy ≡ held_of self.now) }
    {
        let files = files::copy_all(alloc, &self.files)?;
        let subs = self.subs;
        Ok(KeptDir {
            root: self.root,
            subs,
            files,
        })
    }

    /// A copy of what a stop leaves of it.
    pub fn stopped(&self, alloc: Global, keep: Keep) -> Result<KeptDir, NoMemory>
        ensures { IfOk result (λ left. held_of left ≡ map_held (stopped_content keep) (held_of self.now)) }
    {
        let files = files::stopped(alloc, &self.files, keep)?;
        let subs = self.subs;
        Ok(KeptDir {
            root: self.root,
            subs,
            files,
        })
    }
}
