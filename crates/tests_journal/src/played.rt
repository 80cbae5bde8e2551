// A journal over directories in memory that plays scripts.
ghost use Rattle.std.specs.Prelude.{◌≡◌, ◌<◌, ◌≤◌, ℕ, true, false, [], IfOk, IfSome};
ghost use Rattle.nn_base.specs.DirSets.{has};
ghost use Rattle.nn_memhost.specs.Mem.{mem_state};
ghost use Rattle.nn_record.specs.Ops.{IsOp};
ghost use Rattle.nn_journal.specs.Places.{IsFit};

use crate::folder::LAYOUT;
use nn_base::{DirNo, DirSet, FileName, FirstTxid, Label, NoMemory, Path, Sub, Txid};
use nn_host::Host;
use nn_journal::JournalSet;
use nn_memhost::{MemHost, Part};
use nn_record::Op;
use std::alloc::Global;
use tests_kit::give;

const VERSION: &[u8] =
    b"namespaceID=7\nclusterID=c1\ncTime=0\nstorageType=NAME_NODE\nblockpoolID=BP-7\nlayoutVersion=-1001\n";

// No script gives as many ids.
const MOST_IDS: u64 = 1_000_000;

/// A call of the journal; a directory stands as its number.
#[derive(Clone, Copy, Debug, PartialEq, Eq)]
pub enum Do {
    /// `start_segment`.
    Start,
    /// `log` of a mkdir of this path.
    Log(&'static [u8]),
    /// `sync`.
    Sync,
    /// `roll`.
    Roll,
    /// `end_segment`.
    End,
    /// `drop_dir`.
    Drop(u8),
    /// `take_back`.
    TakeBack(u8),
    /// `unhold`.
    Unhold(u8),
}

/// A journal with its directories, and where it is between two segments: what its calls ask for is so at any time.
#[derive(Drop)]
pub struct Played {
    host: MemHost,
    journal: JournalSet,
    started: bool,
    logged: bool,
    ghost below: { (j : ℕ) → has journal.live j ≡ true → j < (mem_state host).count },
    ghost fit: { IsFit journal },
    ghost going: { journal.going ≡ started },
    ghost empty: { logged ≡ false → journal.buffer.items ≡ [] },
}

impl Played {
    /// So many directories, of which the second has a saved state, and a journal over them whose next id is 1. The calls
    /// fail as the list says.
    pub fn new(alloc: Global, count: u8, fails: Vec<(u64, Part)>) -> Option<Played> {
        let host = made(alloc, count, fails)?;
        match over(alloc, &host) {
            Ok(journal) => Some(Played {
                host,
                journal,
                started: false,
                logged: false,
            }),
            Err(_) => None,
        }
    }

    /// The directories and the journal.
    pub fn parts(self) -> (MemHost, JournalSet) {
        (self.host, self.journal)
    }

    /// Plays the script up to a call that leaves no directory, or that can't be made. Whether all were made.
    pub fn play(&mut self, alloc: Global, script: &[Do]) -> bool {
        for step in script {
            if !self.does(alloc, *step) {
                return false;
            }
        }
        true
    }

    /// Logs records of this path, as many as have room, and syncs them. Whether that left a directory.
    pub fn fill(&mut self, alloc: Global, path: &[u8]) -> bool {
        for _ in 0..1_000 {
            if !self.log(alloc, path) {
                return self.sync();
            }
        }
        false
    }

    fn does(&mut self, alloc: Global, step: Do) -> bool {
        match step {
            Do::Start => self.start(),
            Do::Log(path) => self.log(alloc, path),
            Do::Sync => self.sync(),
            Do::Roll => self.roll(),
            Do::End => self.end(),
            Do::Drop(i) => self.drop(DirNo(i)),
            Do::TakeBack(i) => self.take_back(DirNo(i)),
            Do::Unhold(i) => self.unhold(DirNo(i)),
        }
    }

    fn start(&mut self) -> bool {
        if self.started || self.logged || self.journal.last().0 >= MOST_IDS {
            return false;
        }
        self.started = true;
        self.journal.start_segment(&mut self.host).is_ok()
    }

    fn log(&mut self, alloc: Global, path: &[u8]) -> bool {
        let Some(op) = mkdir(alloc, path) else {
            return false;
        };
        if !self.journal.has_room() || self.journal.last().0 >= MOST_IDS {
            return false;
        }
        self.logged = true;
        self.journal.log(&op);
        true
    }

    fn sync(&mut self) -> bool {
        if !self.started || self.journal.last().0 >= MOST_IDS {
            return false;
        }
        self.logged = false;
        self.journal.sync(&mut self.host).is_ok()
    }

    fn roll(&mut self) -> bool {
        if !self.started || self.logged || self.journal.last().0 >= MOST_IDS {
            return false;
        }
        self.journal.roll(&mut self.host).is_ok()
    }

    fn end(&mut self) -> bool {
        if !self.started || self.logged || self.journal.last().0 >= MOST_IDS {
            return false;
        }
        self.started = false;
        self.journal.end_segment(&mut self.host).is_ok()
    }

    fn drop(&mut self, i: DirNo) -> bool {
        if i.0 >= 8 || !self.journal.live(i) || self.logged || self.journal.last().0 >= MOST_IDS {
            return false;
        }
        self.journal.drop_dir(&mut self.host, i).is_ok()
    }

    fn take_back(&mut self, i: DirNo) -> bool {
        if i.0 >= 8 || i.0 >= self.host.count() {
            return false;
        }
        self.journal.take_back(i);
        true
    }

    fn unhold(&mut self, i: DirNo) -> bool {
        if i.0 >= 8 {
            return false;
        }
        self.journal.unhold(i);
        true
    }
}

// So many directories with a VERSION, whose calls fail as the list says.
fn made(alloc: Global, count: u8, fails: Vec<(u64, Part)>) -> Option<MemHost> {
    if count > 8 {
        return None;
    }
    let mut host = MemHost::new(alloc, count, fails).ok()?;
    for i in 0..count {
        let dir = DirNo(i);
        give(&mut host, dir, Sub::Current, FileName::Version, VERSION).ok()?;
    }
    Some(host)
}

// A journal over all directories of a host, the second of which has a saved state. Its next id is 1.
fn over(alloc: Global, host: &MemHost) -> Result<JournalSet, NoMemory>
    ensures below { IfOk result (λ journal. (j : ℕ) → has journal.live j ≡ true → j < (mem_state host.now).count) }
    ensures ready { IfOk result (λ journal. (journal.going ≡ false) × (journal.buffer.items ≡ []) × IsFit journal) }
{
    let live = DirSet::first(host.count());
    let holders = live.and(DirSet::none().with(DirNo(1)));
    JournalSet::reserve(alloc, live, holders, FirstTxid(Txid(1)), LAYOUT)
}

// mkdir of this path.
fn mkdir(alloc: Global, path: &[u8]) -> Option<Op>
    ensures { IfSome result (λ op. IsOp op) }
{
    Some(Op::Mkdir {
        inode: 16386,
        path: Path::parse(alloc, path).ok()?,
        time: 0,
        owner: Label::of(b"hdfs")?,
        group: Label::of(b"supergroup")?,
        mode: 0o755,
    })
}
