// The host in memory.
mod calls;
mod stops;

ghost use Rattle.std.specs.Prelude.{◌≡◌, ◌≤◌, ℕ, true, length, take};
ghost use Rattle.std.specs.List.{list_all};
ghost use Rattle.nn_memhost.specs.Base.{base_of};
ghost use Rattle.nn_memhost.specs.Past.{start, run, kept_at, is_below};

use crate::counts::{self, Counts};
use crate::dirs;
use crate::kept::KeptDir;
use crate::past::{Logged, Part};
use nn_base::{DirNo, FileName, NoMemory, Sub};
use std::alloc::Global;

/// A host in memory, for tests. It tells everything: how it reads, and what a stop inside any of its calls may leave.
///
/// Its calls are numbered from 0 over all directories and `say`, since the contents were last given; `count` is no call.
/// Those that its list names fail. Any other call fails only for want of memory in the host: it is then not begun, not
/// recorded, and counted by `starved`.
#[derive(Drop)]
pub struct MemHost {
    alloc: Global,
    dirs: Vec<KeptDir>,
    base: Option<Vec<KeptDir>>,
    said: Vec<u8>,
    counts: Counts,
    fails: Vec<(u64, Part)>,
    starved: u64,
    calls: Vec<Logged>,
    began: Counts,
    said_before: usize,
    ghost few: { length dirs.items ≤ 8 },
    ghost earlier: { said_before ≤ length said.items },
    ghost spoken: { (run (start (kept_at (base_of base dirs.items)) (take said_before said.items) began) calls.items).now.said ≡ said.items },
    ghost based: { length (base_of base dirs.items) ≡ length dirs.items },
    ghost placed: { list_all (is_below (length dirs.items)) calls.items ≡ true },
    ghost tied: { (j : ℕ) → (run (start (kept_at (base_of base dirs.items)) (take said_before said.items) began) calls.items).now.kept j ≡ kept_at dirs.items j },
}

impl MemHost {
    ghost use Rattle.std.specs.Prelude.{◌<◌, OnOk, OnErr, IfOk};
    ghost use Rattle.nn_host.specs.Moments.{moment};
    ghost use Rattle.nn_memhost.specs.Given.{Anew, with_given, no_reads};
    ghost use Rattle.nn_memhost.specs.Mem.{mem_state, new_state};

    /// A host of so many directories, with all roots and nothing in them. The calls whose numbers the list has fail, and
    /// leave the part that stands beside the number; of several mentions the first counts.
    pub fn new(alloc: Global, dirs: u8, fails: Vec<(u64, Part)>) -> Result<MemHost, NoMemory>
        requires { dirs ≤ 8 }
        ensures state { IfOk result (λ m. mem_state m ≡ new_state dirs) }
        ensures fails { IfOk result (λ m. m.fails ≡ fails) }
        ensures starved { IfOk result (λ m. m.starved ≡ 0) }
    {
        let bare = dirs::bare(alloc, dirs)?;
        Ok(MemHost {
            alloc,
            dirs: bare,
            base: None,
            said: Vec::new(alloc),
            counts: counts::none(),
            fails,
            starved: 0,
            calls: Vec::new(alloc),
            began: counts::none(),
            said_before: 0,
        })
    }

    /// How many calls were recorded since the contents were last given.
    pub fn calls(&self) -> u64
        ensures { result ≡ moment (mem_state self.now) }
    {
        self.calls.len() as u64
    }

    /// How many calls failed for want of memory in the host.
    pub fn starved(&self) -> u64
        ensures { result ≡ self.now.starved }
    {
        self.starved
    }

    /// All bytes that were said.
    pub fn said(&self) -> &[u8]
        ensures { result.now ≡ (mem_state self.now).now.said }
    {
        &self.said
    }

    /// Gives directory `i` this file. Its root and its subfolder are made where they are not there.
    ///
    /// All contents, as they read, count as synced, and the record of calls begins anew, so that the next call has
    /// number 0. The counts of faults and what was said stay.
    pub fn with_file(
        &mut self,
        i: DirNo,
        sub: Sub,
        name: FileName,
        bytes: &[u8],
    ) -> Result<(), NoMemory>
        requires { i.0 < (mem_state self.old).count }
        ensures ok { OnOk result (Anew i.0 (with_given sub name bytes.now ((mem_state self.old).reads i.0)) (mem_state self.old) (mem_state self.new)) }
        ensures err { OnErr result (mem_state self.new ≡ mem_state self.old) }
        ensures kept { (self.new.fails ≡ self.old.fails) × (self.new.starved ≡ self.old.starved) }
    {
        let copy = Vec::from_slice(self.alloc, bytes)?;
        dirs::give_at(&mut self.dirs, i, sub, name, copy)?;
        dirs::settle_all(&mut self.dirs);
        self.base = None;
        self.calls.clear();
        self.began = self.counts;
        self.said_before = self.said.len();
        Ok(())
    }

    /// Takes the root of directory `i` away, with all that is in it. The rest is as by `with_file`.
    pub fn without_root(&mut self, i: DirNo)
        requires { i.0 < (mem_state self.old).count }
        ensures anew { Anew i.0 no_reads (mem_state self.old) (mem_state self.new) }
        ensures kept { (self.new.fails ≡ self.old.fails) × (self.new.starved ≡ self.old.starved) }
    {
        dirs::unroot_at(&mut self.dirs, i);
        dirs::settle_all(&mut self.dirs);
        self.base = None;
        self.calls.clear();
        self.began = self.counts;
        self.said_before = self.said.len();
    }
}
