// A run over two directories, line by line.
ghost use Rattle.std.specs.Prelude.{◌≡◌, ◌<◌, ℕ, true, false, [], IfOk};
ghost use Rattle.nn_tree.specs.Imaged.{IsImaged};
ghost use Rattle.nn_tree.specs.Links.{meaning_of};
ghost use Rattle.nn_tree.specs.Plain.{links_of};
ghost use Rattle.nn_base.specs.DirSets.{has};
ghost use Rattle.nn_journal.specs.Places.{IsFit};
ghost use Rattle.nn_core.specs.Ready.{IsReady};
ghost use Rattle.nn_memhost.specs.Mem.{mem_state};

use nn_base::{DirNo, DirSet, FileName, FirstTxid, NoMemory, Sub, Txid};
use nn_core::{Core, End, Event};
use nn_host::Host;
use nn_journal::JournalSet;
use nn_marks::version_read;
use nn_memhost::{MemHost, Part};
use nn_script::{Syntax, line_read};
use nn_tree::{PlainTree, Tree};
use std::alloc::Global;
use std::test::Fail;

pub const A: DirNo = DirNo(0);

pub const B: DirNo = DirNo(1);

pub const LAYOUT: i32 = -1001;

const VERSION: &[u8] =
    b"namespaceID=7\nclusterID=c1\ncTime=0\nstorageType=NAME_NODE\nblockpoolID=BP-7\nlayoutVersion=-1001\n";

/// The calls of the host that begin a segment in two directories.
pub const BEGUN: u64 = 14;

/// A run over two directories, and whether a line has ended it: what an event asks for is so until then.
#[derive(Drop)]
pub struct Run {
    host: MemHost,
    core: Core<PlainTree>,
    ended: bool,
    ghost ready: { ended ≡ false → IsReady core.journal core.count (mem_state host) },
}

impl Run {
    /// A segment is in progress in each directory. The calls fail as the list says.
    pub fn begun(alloc: Global, fails: Vec<(u64, Part)>) -> Result<Run, Fail>
        ensures imaged { IfOk result (λ run. IsImaged (meaning_of (links_of run.core.tree.entries.items) run.core.tree.counters)) }
    {
        let mut host = MemHost::new(alloc, 2, fails)?;
        for i in [A, B] {
            if i.0 < host.count() {
                host.with_file(i, Sub::Current, FileName::Version, VERSION)?;
            }
        }
        let count = host.count();
        let mut journal = over(alloc, &host)?;
        let _ = journal.start_segment(&mut host);
        let Ok(version) = version_read(VERSION) else {
            return Err("no version")?;
        };
        let tree = PlainTree::new(alloc)?;
        let core = Core::new(alloc, tree, journal, version, 0, count)?;
        Ok(Run {
            host,
            core,
            ended: false,
        })
    }

    /// Answers a line, and says how the run ends by it, if it does.
    pub fn answer(&mut self, alloc: Global, line: &[u8]) -> Result<Option<End>, Fail>
        requires imaged { IsImaged (meaning_of (links_of self.old.core.tree.entries.items) self.old.core.tree.counters) }
        ensures imaged { IsImaged (meaning_of (links_of self.new.core.tree.entries.items) self.new.core.tree.counters) }
    {
        if self.ended || self.core.last().0 > 1_000 {
            return Err("nothing is asked any more")?;
        }
        let event = match line_read(alloc, line) {
            Ok(None) => return Ok(None),
            Ok(Some(command)) => Event::Line(command),
            Err(Syntax::Memory) => return Err("no memory")?,
            Err(fault) => Event::Bad(fault),
        };
        match self.core.step(alloc, &mut self.host, event) {
            Ok(()) => Ok(None),
            Err(end) => {
                self.ended = true;
                Ok(Some(end))
            }
        }
    }

    /// Answers lines until the run ends by one.
    pub fn answer_all(&mut self, alloc: Global, lines: &[&str]) -> Result<Option<End>, Fail>
        requires imaged { IsImaged (meaning_of (links_of self.old.core.tree.entries.items) self.old.core.tree.counters) }
    {
        for line in lines {
            let end = self.answer(alloc, line.as_bytes())?;
            if end.is_some() {
                return Ok(end);
            }
        }
        Ok(None)
    }

    /// How many calls there were.
    pub fn calls(&self) -> u64 {
        self.host.calls()
    }

    /// All that was said.
    pub fn said(&self) -> &[u8] {
        self.host.said()
    }

    /// The last id given.
    pub fn last(&self) -> Txid {
        self.core.last()
    }

    /// The directories and the core.
    pub fn parts(self) -> (MemHost, Core<PlainTree>) {
        (self.host, self.core)
    }
}

// A journal over all directories of a host, whose next id is 1.
fn over(alloc: Global, host: &MemHost) -> Result<JournalSet, NoMemory>
    ensures below { IfOk result (λ journal. (j : ℕ) → has journal.live j ≡ true → j < (mem_state host.now).count) }
    ensures ready { IfOk result (λ journal. (journal.going ≡ false) × (journal.buffer.items ≡ []) × IsFit journal) }
    ensures ids { IfOk result (λ journal. journal.last ≡ 0) }
{
    let live = DirSet::first(host.count());
    JournalSet::reserve(alloc, live, DirSet::none(), FirstTxid(Txid(1)), LAYOUT)
}
