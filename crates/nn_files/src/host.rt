// The host over real folders and the real output.
ghost use Rattle.std.specs.Prelude.{◌≡◌, ◌≢◌, ◌<◌, ◌≤◌, ℕ, Ok, IfOk, OnErr, IsErr, length, slice_index};
ghost use Rattle.nn_host.specs.Disk.{Look};
ghost use Rattle.nn_host.specs.Calls.{Called, next_count};

use crate::doing::{Doing, Verb};
use crate::listing::Unlisted;
use crate::paths::Place;
use crate::segment::{self, Segment};
use nn_base::{DirNo, FileName, NoMemory, Sub};
use nn_host::{Failed, Host, ListFault};
use std::alloc::Global;
use std::io;
use std::rt::Files;

/// The name directories at these paths, and the output of `rt`. It tells nothing.
///
/// A call that the system refuses is `Failed`, and so is one that finds no memory for a path; an absent name is an answer. For each
/// such call a line on the standard error of `rt` says to a person what was refused, where, and the system's error.
/// A name that was made, renamed or removed lasts when the call returns. One program at a time is to use the folders.
#[derive(Drop)]
pub struct FileHost<R: Files> {
    rt: R,
    alloc: Global,
    roots: Vec<String>,
    segments: Vec<Option<Segment<R::File>>>,
    faults: [u64; 8],
    out_faults: u64,
    ghost few: { length roots.items ≤ 8 },
    ghost paired: { length segments.items ≡ length roots.items },
}

impl<R: Files + Print + Eprint + Drop> FileHost<R> {
    ghost use Rattle.nn_files.specs.Untold.{untold_state, unfailed_state};

    /// The directories at these paths, numbered in their order. Nothing is looked at yet.
    pub fn open(rt: R, alloc: Global, paths: Vec<String>) -> Result<FileHost<R>, NoMemory>
        requires { length paths.items ≤ 8 }
        ensures { IfOk result (λ host. ⟦<FileHost<R> as Host>⟧.state host ≡ unfailed_state (length paths.items)) }
    {
        let mut segments = Vec::new(alloc);
        'paths: for _ in 0..paths.len() {
            segments.push(None)?;
        }
        Ok(FileHost {
            rt,
            alloc,
            roots: paths,
            segments,
            faults: [0; 8],
            out_faults: 0,
        })
    }

    /// The paths of the directories, in their order.
    pub fn paths(&self) -> &[String] {
        &self.roots
    }

    /// Whether a call on directory `i` has failed.
    pub fn has_failed(&self, i: DirNo) -> bool {
        match self.faults.get(i.0 as usize) {
            Some(count) => 0 < *count,
            None => false,
        }
    }

    fn place(&self, i: DirNo) -> Place<'_, R>
        requires { i.0 < length self.now.roots.items }
    {
        Place::new(&self.rt, self.alloc, self.roots[i.0 as usize].as_str())
    }

    // Raises the count of directory `i` where a call on it failed, and tells a person of it.
    fn counted<T: Drop>(
        &mut self,
        i: DirNo,
        doing: Doing,
        outcome: io::Result<T>,
    ) -> Result<T, Failed>
        requires { i.0 < length self.old.roots.items }
        ensures ok { IfOk result (λ value. outcome ≡ Ok value) }
        ensures err { OnErr result (IsErr outcome) }
        ensures call { Called ⊥ i.0 Look (untold_state (length self.old.roots.items) self.old.faults self.old.out_faults) (untold_state (length self.new.roots.items) self.new.faults self.new.out_faults) result }
    {
        match outcome {
            Ok(value) => Ok(value),
            Err(error) => self.refused(i, doing, &error),
        }
    }

    // Raises the count of directory `i`, on which a call failed, and tells a person of it.
    fn refused<T: Drop>(&mut self, i: DirNo, doing: Doing, error: &io::Error) -> Result<T, Failed>
        requires { i.0 < length self.old.roots.items }
        ensures err { IsErr result }
        ensures call { Called ⊥ i.0 Look (untold_state (length self.old.roots.items) self.old.faults self.old.out_faults) (untold_state (length self.new.roots.items) self.new.faults self.new.out_faults) result }
    {
        doing.refused(&self.place(i), i, error);
        raise(&mut self.faults, i.0);
        Err(Failed)
    }

    // This and the two below stand apart, so that a record behind an open segment doesn't pay for them: a function pays at its
    // entry for all its locals.
    #[cold]
    #[inline(never)]
    fn refused_file(
        &mut self,
        i: DirNo,
        verb: Verb,
        sub: Sub,
        name: FileName,
        error: &io::Error,
    ) -> Result<(), Failed>
        requires { i.0 < length self.old.roots.items }
        ensures call { Called ⊥ i.0 Look (untold_state (length self.old.roots.items) self.old.faults self.old.out_faults) (untold_state (length self.new.roots.items) self.new.faults self.new.out_faults) result }
    {
        self.refused(i, Doing::file(verb, sub, &name), error)
    }

    // Appends to a file that isn't open.
    #[cold]
    #[inline(never)]
    fn append_closed(
        &mut self,
        i: DirNo,
        sub: Sub,
        name: FileName,
        bytes: &[u8],
    ) -> Result<(), Failed>
        requires { i.0 < length self.old.roots.items }
        ensures call { Called ⊥ i.0 Look (untold_state (length self.old.roots.items) self.old.faults self.old.out_faults) (untold_state (length self.new.roots.items) self.new.faults self.new.out_faults) result }
    {
        let at = i.0 as usize;
        let place = Place::new(&self.rt, self.alloc, self.roots[at].as_str());
        let done = segment::append_closed(&place, &mut self.segments[at], sub, name, bytes);
        self.counted(i, Doing::file(Verb::WriteTo, sub, &name), done)
    }

    // Syncs a file that isn't open.
    #[cold]
    #[inline(never)]
    fn sync_closed(&mut self, i: DirNo, sub: Sub, name: FileName) -> Result<(), Failed>
        requires { i.0 < length self.old.roots.items }
        ensures call { Called ⊥ i.0 Look (untold_state (length self.old.roots.items) self.old.faults self.old.out_faults) (untold_state (length self.new.roots.items) self.new.faults self.new.out_faults) result }
    {
        let done = segment::sync_closed(&self.place(i), sub, name);
        self.counted(i, Doing::file(Verb::Sync, sub, &name), done)
    }
}

fn raise(counts: &mut [u64; 8], i: u8)
    requires { i < 8 }
    ensures here { slice_index counts.new i ≡ next_count (slice_index counts.old i) }
    ensures others { (j : ℕ) → j ≢ i → slice_index counts.new j ≡ slice_index counts.old j }
{
    let at = i as usize;
    counts[at] = counts[at].saturating_add(1);
}

#[tactic(auto, using(crate::proofs::UntoldLemmas::any_call))]
impl<R: Files + Print + Eprint + Drop> Host for FileHost<R> {
    ghost use Rattle.nn_files.specs.Untold.{untold_state};

    ghost told = { ⊥ };

    ghost state = { λ it. untold_state (length it.roots.items) it.faults it.out_faults };

    ghost lawful = { λ told it. absurd told };

    fn count(&self) -> u8 {
        self.roots.len() as u8
    }

    fn has_root(&mut self, i: DirNo) -> Result<bool, Failed> {
        let found = self.place(i).has_root();
        self.counted(i, Doing::root(Verb::LookAt), found)
    }

    fn has_sub(&mut self, i: DirNo, sub: Sub) -> Result<bool, Failed> {
        let found = self.place(i).has_sub(sub);
        self.counted(i, Doing::sub(Verb::LookAt, sub), found)
    }

    fn has_file(&mut self, i: DirNo, sub: Sub, name: FileName) -> Result<bool, Failed> {
        let found = self.place(i).has_file(sub, &name);
        self.counted(i, Doing::file(Verb::LookAt, sub, &name), found)
    }

    fn list(&mut self, i: DirNo, sub: Sub, out: &mut Vec<FileName>) -> Result<(), ListFault> {
        let listed = match self.place(i).list(sub) {
            Ok(names) => Ok(names),
            Err(Unlisted::Memory) => return Err(ListFault::Memory),
            Err(Unlisted::Failed(error)) => Err(error),
        };
        match self.counted(i, Doing::sub(Verb::List, sub), listed) {
            Ok(names) => match out.extend_from_slice(&names) {
                Ok(()) => Ok(()),
                Err(_) => Err(ListFault::Memory),
            },
            Err(Failed) => Err(ListFault::Failed),
        }
    }

    fn size(&mut self, i: DirNo, sub: Sub, name: FileName) -> Result<u64, Failed> {
        let size = self.place(i).size(sub, &name);
        self.counted(i, Doing::file(Verb::LookAt, sub, &name), size)
    }

    fn read_at(
        &mut self,
        i: DirNo,
        sub: Sub,
        name: FileName,
        at: u64,
        out: &mut [u8],
    ) -> Result<usize, Failed> {
        let count = self.place(i).read_at(sub, &name, at, out);
        self.counted(i, Doing::file(Verb::Read, sub, &name), count)
    }

    fn make_sub(&mut self, i: DirNo, sub: Sub) -> Result<(), Failed> {
        let done = self.place(i).make_sub(sub);
        self.counted(i, Doing::sub(Verb::Make, sub), done)
    }

    fn make_file(&mut self, i: DirNo, sub: Sub, name: FileName) -> Result<(), Failed> {
        segment::close_file(&mut self.segments[i.0 as usize], sub, &name);
        let done = self.place(i).make_file(sub, &name);
        self.counted(i, Doing::file(Verb::Make, sub, &name), done)
    }

    fn append(&mut self, i: DirNo, sub: Sub, name: FileName, bytes: &[u8]) -> Result<(), Failed> {
        if let Some(open) = &mut self.segments[i.0 as usize]
            && open.is(sub, &name)
        {
            return match open.append(bytes) {
                Ok(()) => Ok(()),
                Err(error) => self.refused_file(i, Verb::WriteTo, sub, name, &error),
            };
        }
        self.append_closed(i, sub, name, bytes)
    }

    fn sync(&mut self, i: DirNo, sub: Sub, name: FileName) -> Result<(), Failed> {
        if let Some(open) = &self.segments[i.0 as usize]
            && open.is(sub, &name)
        {
            return match open.sync() {
                Ok(()) => Ok(()),
                Err(error) => self.refused_file(i, Verb::Sync, sub, name, &error),
            };
        }
        self.sync_closed(i, sub, name)
    }

    fn rename_file(
        &mut self,
        i: DirNo,
        sub: Sub,
        from: FileName,
        to: FileName,
    ) -> Result<(), Failed> {
        let was_open = segment::close_file(&mut self.segments[i.0 as usize], sub, &from);
        segment::close_file(&mut self.segments[i.0 as usize], sub, &to);
        let done = match was_open {
            true => self.place(i).rename_written(sub, &from, &to),
            false => self.place(i).rename_file(sub, &from, &to),
        };
        self.counted(i, Doing::file(Verb::Rename, sub, &from), done)
    }

    fn rename_sub(&mut self, i: DirNo, from: Sub, to: Sub) -> Result<(), Failed> {
        segment::close_sub(&mut self.segments[i.0 as usize], from);
        let done = self.place(i).rename_sub(from, to);
        self.counted(i, Doing::sub(Verb::Rename, from), done)
    }

    fn remove_file(&mut self, i: DirNo, sub: Sub, name: FileName) -> Result<(), Failed> {
        segment::close_file(&mut self.segments[i.0 as usize], sub, &name);
        let done = self.place(i).remove_file(sub, &name);
        self.counted(i, Doing::file(Verb::Remove, sub, &name), done)
    }

    fn remove_sub(&mut self, i: DirNo, sub: Sub) -> Result<(), Failed> {
        segment::close_sub(&mut self.segments[i.0 as usize], sub);
        let done = self.place(i).remove_sub(sub);
        self.counted(i, Doing::sub(Verb::Remove, sub), done)
    }

    fn settle(&mut self, i: DirNo) -> Result<(), Failed> {
        let mut doing = Doing::root(Verb::Sync);
        let done = self.place(i).settle(&mut doing);
        self.counted(i, doing, done)
    }

    fn say(&mut self, bytes: &[u8]) -> Result<(), Failed> {
        match self.rt.write_all(bytes) {
            Ok(()) => Ok(()),
            Err(error) => {
                let _ = eprintln!(self.rt; "namenode: can't write to standard output: {error}");
                self.out_faults = self.out_faults.saturating_add(1);
                Err(Failed)
            }
        }
    }
}
