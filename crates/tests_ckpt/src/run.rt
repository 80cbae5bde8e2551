// A run over directories in memory that is checkpointed, and whose dropped directories are taken back.
ghost use Rattle.std.specs.Prelude.{◌≡◌, ◌<◌, ◌≤◌, ℕ, true, false, [], IfOk};
ghost use Rattle.nn_base.specs.DirSets.{has};
ghost use Rattle.nn_memhost.specs.Mem.{mem_state};
ghost use Rattle.nn_journal.specs.Places.{IsFit};

use nn_base::{DirNo, DirSet, FirstTxid, NoMemory, Sub, Txid};
use nn_ckpt::{RunFault, checkpoint};
use nn_host::Host;
use nn_journal::JournalSet;
use nn_load::load_dir;
use nn_marks::version_read;
use nn_memhost::{MemHost, Part};
use nn_restore::{Restored, restore};
use nn_tree::{PlainTree, Tree};
use std::alloc::Global;
use tests_kit::texts::{DIGEST_0, IMAGE_0, VERSION};
use tests_kit::{File, give_all};

const LAYOUT: i32 = -1001;

// No test gives as many ids.
const MOST_IDS: u64 = 1_000_000;

// The image of the empty namespace.
const EMPTY: [File; 4] = [
    ("VERSION", &[VERSION]),
    ("fsimage_0", &[IMAGE_0]),
    ("fsimage_0.md5", &[DIGEST_0]),
    ("seen_txid", &[b"0\n"]),
];

/// A journal over directories that have the image of the empty namespace: what its calls ask for is so at any time.
#[derive(Drop)]
pub struct Run {
    host: MemHost,
    journal: JournalSet,
    started: bool,
    ghost below: { (j : ℕ) → has journal.live j ≡ true → j < (mem_state host).count },
    ghost fit: { IsFit journal },
    ghost going: { started ≡ true → journal.going ≡ true },
    ghost empty: { journal.buffer.items ≡ [] },
}

impl Run {
    /// So many directories, the first of which has these files too, with a segment in progress. The calls fail as the list says.
    pub fn begun(alloc: Global, count: u8, more: &[File], fails: Vec<(u64, Part)>) -> Option<Run> {
        Run::of(alloc, made(alloc, count, more, fails)?)
    }

    /// These directories, with a segment in progress.
    pub fn of(alloc: Global, mut host: MemHost) -> Option<Run> {
        match over(alloc, &host) {
            Ok(mut journal) => {
                let started = journal.start_segment(&mut host).is_ok();
                Some(Run {
                    host,
                    journal,
                    started,
                })
            }
            Err(_) => None,
        }
    }

    /// The directories and the journal.
    pub fn parts(self) -> (MemHost, JournalSet) {
        (self.host, self.journal)
    }

    /// How many calls there were.
    pub fn calls(&self) -> u64 {
        self.host.calls()
    }

    /// Checkpoints the empty namespace so often, or until one isn't taken. The id of the last one, or why; none where no
    /// segment is in progress.
    pub fn checkpoints(&mut self, alloc: Global, times: u8) -> Option<Result<Txid, RunFault>> {
        let mut answer = None;
        for _ in 0..times {
            answer = self.once(alloc);
        }
        answer
    }

    /// Drops this directory. Whether it was live, and another is left.
    pub fn drops(&mut self, i: DirNo) -> bool {
        if i.0 >= 8 || !self.journal.live(i) || self.journal.last().0 >= MOST_IDS {
            return false;
        }
        self.journal.drop_dir(&mut self.host, i).is_ok()
    }

    /// Takes this directory back at the empty namespace; none where no segment is in progress, or there is no such directory.
    pub fn restores(&mut self, alloc: Global, i: DirNo) -> Option<Result<Restored, RunFault>> {
        if !self.started
            || i.0 >= 8
            || i.0 >= self.host.count()
            || self.journal.last().0 >= MOST_IDS
        {
            return None;
        }
        let Ok(tree) = PlainTree::new(alloc) else {
            return None;
        };
        let version = version_read(VERSION).ok()?;
        let answer = restore(alloc, &mut self.host, &mut self.journal, &tree, &version, i);
        self.started = answer.is_ok();
        Some(answer)
    }

    fn once(&mut self, alloc: Global) -> Option<Result<Txid, RunFault>> {
        if !self.started || self.journal.last().0 >= MOST_IDS {
            return None;
        }
        let Ok(tree) = PlainTree::new(alloc) else {
            return None;
        };
        let version = version_read(VERSION).ok()?;
        let answer = checkpoint(alloc, &mut self.host, &mut self.journal, &tree, &version);
        self.started = answer.is_ok();
        Some(answer)
    }
}

/// So many directories with the empty namespace, the first of which has these files too.
pub fn made(alloc: Global, count: u8, more: &[File], fails: Vec<(u64, Part)>) -> Option<MemHost> {
    if count > 8 {
        return None;
    }
    let mut host = MemHost::new(alloc, count, fails).ok()?;
    for i in 0..count {
        give_all(alloc, &mut host, DirNo(i), Sub::Current, &EMPTY).ok()?;
    }
    give_all(alloc, &mut host, DirNo(0), Sub::Current, more).ok()?;
    Some(host)
}

// A journal over all directories of a host, whose next id is 1.
fn over(alloc: Global, host: &MemHost) -> Result<JournalSet, NoMemory>
    ensures below { IfOk result (λ journal. (j : ℕ) → has journal.live j ≡ true → j < (mem_state host.now).count) }
    ensures ready { IfOk result (λ journal. (journal.going ≡ false) × (journal.buffer.items ≡ []) × IsFit journal × (journal.last ≡ 0)) }
{
    let live = DirSet::first(host.count());
    JournalSet::reserve(alloc, live, DirSet::none(), FirstTxid(Txid(1)), LAYOUT)
}

/// The last id of the directory's chain, if its namespace is the empty one.
pub fn reached(alloc: Global, host: &mut MemHost, i: DirNo) -> Option<u64> {
    if host.count() <= i.0 {
        return None;
    }
    let version = version_read(VERSION).ok()?;
    let loaded = load_dir::<MemHost, PlainTree>(alloc, host, i, Sub::Current, &version).ok()?;
    if loaded.tree.counters().inode != 16385 {
        return None;
    }
    Some(loaded.id.0)
}
