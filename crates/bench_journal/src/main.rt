//! What the journal costs on real folders: records of a mkdir are logged and synced in batches in each of some name
//! directories, and the segment is ended. The arguments are how many records, how many a batch, and the directories, whose
//! `current` is there. Without directories nothing is done.
#![tactic(auto)]

ghost use Rattle.std.specs.Prelude.{◌≡◌, ◌<◌, ◌≤◌, ℕ, true, false, [], IfOk, IfSome, length};
ghost use Rattle.nn_base.specs.DirSets.{has};
ghost use Rattle.nn_record.specs.Ops.{IsOp};
ghost use Rattle.nn_journal.specs.Places.{IsFit};

use nn_base::limits::{LAYOUT, MOST_DIRS};
use nn_base::{DirNo, DirSet, FirstTxid, Label, NoMemory, Path, Txid};
use nn_files::FileHost;
use nn_host::Host;
use nn_journal::{JournalSet, NoneLeft};
use nn_record::Op;
use std::alloc::Global;
use std::process::ExitCode;
use std::{env, io};

// The record of `mkdir /user/hdfs/part-00001`. None stands for want of memory.
fn mkdir(alloc: Global) -> Option<Op>
    ensures { IfSome result IsOp }
{
    let path = Path::parse(alloc, b"/user/hdfs/part-00001").ok()?;
    let owner = Label::of(b"hdfs")?;
    let group = Label::of(b"supergroup")?;
    Some(Op::Mkdir {
        inode: 16386,
        path,
        time: 1_700_000_000_000,
        owner,
        group,
        mode: 0o755,
    })
}

// A journal over the first so many directories, whose next id is 1.
fn over(alloc: Global, count: u8) -> Result<JournalSet, NoMemory>
    requires few { count ≤ 8 }
    ensures below { IfOk result (λ journal. (j : ℕ) → has journal.live j ≡ true → j < count) }
    ensures ready { IfOk result (λ journal. (journal.going ≡ false) × (journal.buffer.items ≡ []) × IsFit journal) }
{
    let live = DirSet::first(count);
    JournalSet::reserve(alloc, live, DirSet::none(), FirstTxid(Txid(1)), LAYOUT)
}

// Whether the journal may give more ids.
fn is_low(journal: &JournalSet) -> bool
    ensures { result ≡ true → journal.now.last < 2000000000 }
{
    journal.last().0 < 2_000_000_000
}

// Puts so many records behind the segment in progress, and syncs them in batches. A batch that fills the buffer is synced
// before it is whole.
fn put_records<H: Host>(
    host: &mut H,
    journal: &mut JournalSet,
    op: &Op,
    count: u32,
    batch: u32,
) -> Result<(), NoneLeft>
    requires op { IsOp op.now }
    requires below { (j : ℕ) → has journal.old.live j ≡ true → j < (H.state host.old).count }
    requires going { (journal.old.going ≡ true) × IsFit journal.old }
    ensures below { (j : ℕ) → has journal.new.live j ≡ true → j < (H.state host.new).count }
    ensures going { (journal.new.going ≡ true) × IsFit journal.new }
{
    let batch = batch.max(1);
    'records: for k in 0..count {
        put_record(host, journal, op, k % batch == batch - 1)?;
    }
    sync(host, journal)
}

fn put_record<H: Host>(
    host: &mut H,
    journal: &mut JournalSet,
    op: &Op,
    is_last: bool,
) -> Result<(), NoneLeft>
    requires op { IsOp op.now }
    requires below { (j : ℕ) → has journal.old.live j ≡ true → j < (H.state host.old).count }
    requires going { (journal.old.going ≡ true) × IsFit journal.old }
    ensures below { (j : ℕ) → has journal.new.live j ≡ true → j < (H.state host.new).count }
    ensures going { (journal.new.going ≡ true) × IsFit journal.new }
{
    if !journal.has_room() || !is_low(journal) {
        return Err(NoneLeft);
    }
    journal.log(op);
    if is_last || !journal.has_room() {
        return sync(host, journal);
    }
    Ok(())
}

fn sync<H: Host>(host: &mut H, journal: &mut JournalSet) -> Result<(), NoneLeft>
    requires below { (j : ℕ) → has journal.old.live j ≡ true → j < (H.state host.old).count }
    requires going { (journal.old.going ≡ true) × IsFit journal.old }
    ensures below { (j : ℕ) → has journal.new.live j ≡ true → j < (H.state host.new).count }
    ensures going { (journal.new.going ≡ true) × IsFit journal.new }
    ensures empty { IfOk result (λ _. journal.new.buffer.items ≡ []) }
{
    if !is_low(journal) {
        return Err(NoneLeft);
    }
    journal.sync(host)
}

// A segment of so many records.
fn segment<H: Host>(
    host: &mut H,
    journal: &mut JournalSet,
    op: &Op,
    count: u32,
    batch: u32,
) -> Result<(), NoneLeft>
    requires op { IsOp op.now }
    requires below { (j : ℕ) → has journal.old.live j ≡ true → j < (H.state host.old).count }
    requires ready { (journal.old.going ≡ false) × (journal.old.buffer.items ≡ []) × IsFit journal.old }
{
    if !is_low(journal) {
        return Err(NoneLeft);
    }
    journal.start_segment(host)?;
    put_records(host, journal, op, count, batch)?;
    sync(host, journal)?;
    if !is_low(journal) {
        return Err(NoneLeft);
    }
    journal.end_segment(host)
}

// How many records, how many a batch, and the directories.
#[derive(Drop)]
struct Asked {
    count: u32,
    batch: u32,
    dirs: Vec<String>,
}

fn words_of(rt: &HostRuntime, alloc: Global) -> io::Result<Asked> {
    let mut words = env::args(rt)?;
    let count = number(words.nth(1));
    let batch = number(words.next());
    let mut dirs = Vec::new(alloc);
    for word in words {
        dirs.push(word)?;
    }
    Ok(Asked { count, batch, dirs })
}

fn number(word: Option<String>) -> u32 {
    match word {
        Some(word) => word.parse::<u32>().unwrap_or(0),
        None => 0,
    }
}

// Writes the segment in these directories: whether each of them took all of it.
fn write(rt: HostRuntime, alloc: Global, asked: Asked) -> Result<bool, NoMemory> {
    let Asked { count, batch, dirs } = asked;
    if dirs.len() > MOST_DIRS {
        return Ok(false);
    }
    let Some(op) = mkdir(alloc) else {
        return Ok(false);
    };
    let mut host = FileHost::open(rt, alloc, dirs)?;
    let mut journal = over(alloc, host.count())?;
    let written = segment(&mut host, &mut journal, &op, count, batch);
    Ok(written.is_ok() && (0..host.count()).all(|i| journal.live(DirNo(i))))
}

fn main(rt: HostRuntime) -> ExitCode {
    let alloc = rt.alloc();
    let asked = match words_of(&rt, alloc) {
        Ok(asked) => asked,
        Err(_) => return ExitCode::FAILURE,
    };
    if asked.dirs.is_empty() {
        return ExitCode::SUCCESS;
    }
    match write(rt, alloc, asked) {
        Ok(true) => ExitCode::SUCCESS,
        Ok(false) => ExitCode::FAILURE,
        Err(NoMemory) => ExitCode::FAILURE,
    }
}
