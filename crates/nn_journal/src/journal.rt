// The journal over all live directories: its calls.
ghost use Rattle.std.specs.Prelude.{◌≡◌, ◌↔◌, ◌+◌, ◌*◌, ◌≢◌, ◌⊎◌, ◌<◌, ◌≤◌, ◌++◌, ◌^◌, ◌==◌, ◌&&◌, ◌||◌, not, ℕ, true, false, [], OnOk, OnErr, IfOk, vec_len, vec_capacity};
ghost use Rattle.nn_base.specs.DirSets.{Members, has, count_of};
ghost use Rattle.nn_base.specs.Limits.{most_record};
ghost use Rattle.nn_record.specs.Ops.{IsOp};
ghost use Rattle.nn_record.specs.Spelling.{spelling, IsRecord};
ghost use Rattle.nn_segment.specs.Segment.{header};
ghost use Rattle.nn_journal.specs.Finalizing.{Finalizes, FinalizesLogged};
ghost use Rattle.nn_journal.specs.Rolling.{CallsWithin, DropsAhead};
ghost use Rattle.nn_journal.specs.Places.{BringsAhead, BringsLoggedAhead, IsFit, Went, most_buffer, full_segment, place_of};

use nn_base::limits::{MOST_RECORD, MOST_SEGMENT};
use nn_base::{DirNo, DirSet, FirstTxid, NoMemory, Txid};
use nn_host::Host;
use nn_record::{Op, Record};
use nn_segment::header_put;
use std::alloc::Global;

/// How many bytes of records may be logged and not yet synced.
const MOST_BUFFER: usize = 1_048_576;

/// A segment above this many bytes is ended by the sync that made it so: with a whole buffer more, and its last record, it
/// is still no longer than a segment may be.
pub(crate) const FULL_SEGMENT: usize = MOST_SEGMENT - MOST_BUFFER - 64;

/// No directory is live any more.
#[derive(Clone, Copy, Debug, PartialEq, Eq)]
pub struct NoneLeft;

/// The journal over all live directories (HDFS's `FSEditLog` with its `JournalSet`).
#[derive(Drop)]
pub struct JournalSet {
    /// Which directories are live: still written to.
    pub(crate) live: DirSet,
    /// Which of them have a saved state, and are served first.
    pub(crate) holders: DirSet,
    /// The bytes of the records that were logged and not yet synced.
    pub(crate) buffer: Vec<u8>,
    /// Whether a segment is in progress.
    pub(crate) going: bool,
    /// The first id of the segment in progress.
    pub(crate) first: FirstTxid,
    /// The last id given.
    pub(crate) last: Txid,
    /// How many bytes of the segment in progress are synced.
    pub(crate) size: usize,
    /// The first bytes of each segment, which say the layout.
    pub(crate) header: [u8; 8],
}

impl JournalSet {
    /// A journal over these directories, whose next record has this id. No segment is in progress. It takes all the
    /// memory that its calls will ever need.
    pub fn reserve(
        alloc: Global,
        live: DirSet,
        holders: DirSet,
        next: FirstTxid,
        layout: i32,
    ) -> Result<JournalSet, NoMemory>
        ensures sets { IfOk result (λ journal. (journal.live ≡ live) × (journal.holders ≡ holders)) }
        ensures last { IfOk result (λ journal. journal.last + 1 ≡ next) }
        ensures going { IfOk result (λ journal. journal.going ≡ false) }
        ensures header { IfOk result (λ journal. journal.header ≡ header layout) }
        ensures empty { IfOk result (λ journal. journal.buffer.items ≡ []) }
        ensures fit { IfOk result (λ journal. IsFit journal) }
    {
        let buffer = Vec::with_capacity(alloc, MOST_BUFFER)?;
        Ok(JournalSet {
            live,
            holders,
            buffer,
            going: false,
            first: next,
            last: Txid(next.0.0 - 1),
            size: 0,
            header: header_put(layout),
        })
    }

    /// Whether this directory is live: still written to.
    pub fn live(&self, i: DirNo) -> bool
        ensures { result ≡ has self.now.live i.0 }
    {
        self.live.has(i)
    }

    /// The last id given, those of logged records included.
    pub fn last(&self) -> Txid
        ensures { result ≡ self.now.last }
    {
        self.last
    }

    /// Whether one more record may be logged before the next `sync`: whether the longest record still has room.
    pub fn has_room(&self) -> bool
        ensures { (result ≡ true) ↔ (vec_len self.now.buffer + most_record ≤ most_buffer) }
    {
        self.buffer.len() <= MOST_BUFFER - MOST_RECORD
    }

    /// Logs a record that does this, with the next id. Nothing is written before the next `sync`.
    pub fn log(&mut self, op: &Op)
        requires op { IsOp op.now }
        requires room { vec_len self.old.buffer + most_record ≤ most_buffer }
        requires fit { IsFit self.old }
        requires ids { self.old.last + 64 < 2 ^ 63 }
        ensures text { self.new.buffer.items ≡ self.old.buffer.items ++ spelling (record { id = self.old.last + 1; op = op.now }) }
        ensures record { IsRecord (record { id = self.old.last + 1; op = op.now }) }
        ensures last { self.new.last ≡ self.old.last + 1 }
        ensures fit { IsFit self.new }
        ensures kept { (self.new.live ≡ self.old.live) × (self.new.holders ≡ self.old.holders) × (self.new.going ≡ self.old.going) × (self.new.first ≡ self.old.first) × (self.new.size ≡ self.old.size) × (self.new.header ≡ self.old.header) }
    {
        let id = Txid(self.last.0 + 1);
        Record::put_op(id, op, &mut self.buffer);
        self.last = id;
    }

    /// Begins a segment in each live directory, and writes its first id into `seen_txid` there. Where that drops one, the
    /// others roll.
    pub fn start_segment<H: Host>(&mut self, host: &mut H) -> Result<(), NoneLeft>
        requires below { (j : ℕ) → has self.old.live j ≡ true → j < (H.state host.old).count }
        requires going { self.old.going ≡ false }
        requires empty { self.old.buffer.items ≡ [] }
        requires fit { IsFit self.old }
        requires ids { self.old.last + 64 < 2 ^ 63 }
        ensures brought { BringsAhead H.told (place_of self.old) (place_of self.new) self.old.holders self.old.live self.new.live (H.state host.old) (H.state host.new) }
        ensures begins { self.new.first ≡ self.new.last }
        ensures rose { self.old.last < self.new.last }
        ensures next { self.new.live ≡ self.old.live → self.new.last ≡ self.old.last + 1 }
        ensures calls { CallsWithin H.told 7 self.old.live self.new.live (H.state host.old) (H.state host.new) }
        ensures last { self.new.last + 2 * count_of self.new.live ≤ self.old.last + 2 + 2 * count_of self.old.live }
        ensures went { Went H.told self.old.live self.new.live (H.state host.old) (H.state host.new) }
        ensures left { OnErr result ((j : ℕ) → has self.new.live j ≡ false) }
        ensures some { OnOk result ((j : ℕ) × (has self.new.live j ≡ true)) }
        ensures kept { (self.new.holders ≡ self.old.holders) × (self.new.header ≡ self.old.header) × (self.new.going ≡ true) × (self.new.buffer.items ≡ []) × IsFit self.new }
        ensures below { (j : ℕ) → has self.new.live j ≡ true → j < (H.state host.new).count }
    {
        let before = self.live;
        self.start_all(host);
        let again = self.lacks(&before);
        self.settle(host, again)
    }

    /// Writes the records that were logged in each live directory and makes them last, holders first. Where that drops one,
    /// or leaves the segment full, the journal rolls. With an empty buffer nothing is called.
    pub fn sync<H: Host>(&mut self, host: &mut H) -> Result<(), NoneLeft>
        requires below { (j : ℕ) → has self.old.live j ≡ true → j < (H.state host.old).count }
        requires going { self.old.going ≡ true }
        requires fit { IsFit self.old }
        requires ids { self.old.last + 64 < 2 ^ 63 }
        ensures brought { BringsLoggedAhead H.told self.old.buffer.items (place_of self.old) (place_of self.new) self.old.holders self.old.live self.new.live (H.state host.old) (H.state host.new) }
        ensures onward { self.old.last ≤ self.new.last }
        ensures idle { self.old.buffer.items ≡ [] → (H.state host.new ≡ H.state host.old) × (place_of self.new ≡ place_of self.old) × (self.new.live ≡ self.old.live) }
        ensures stays { self.new.live ≡ self.old.live → self.old.size + vec_len self.old.buffer ≤ full_segment → (self.new.last ≡ self.old.last) × (self.new.first ≡ self.old.first) × (self.new.size ≡ self.old.size + vec_len self.old.buffer) }
        ensures ended { (self.new.live ≢ self.old.live) ⊎ (full_segment < self.old.size + vec_len self.old.buffer) → FinalizesLogged H.told self.old.buffer.items (place_of self.old) self.old.live self.new.live (H.state host.old) (H.state host.new) }
        ensures last { self.new.last + 2 * count_of self.new.live ≤ self.old.last + 2 + 2 * count_of self.old.live }
        ensures calls { self.old.size + vec_len self.old.buffer ≤ full_segment → CallsWithin H.told 2 self.old.live self.new.live (H.state host.old) (H.state host.new) }
        ensures calls_full { CallsWithin H.told 12 self.old.live self.new.live (H.state host.old) (H.state host.new) }
        ensures went { Went H.told self.old.live self.new.live (H.state host.old) (H.state host.new) }
        ensures left { OnErr result ((j : ℕ) → has self.new.live j ≡ false) }
        ensures some { OnOk result ((j : ℕ) × (has self.new.live j ≡ true)) }
        ensures kept { (self.new.holders ≡ self.old.holders) × (self.new.header ≡ self.old.header) × (self.new.going ≡ true) × (self.new.buffer.items ≡ []) × IsFit self.new }
        ensures below { (j : ℕ) → has self.new.live j ≡ true → j < (H.state host.new).count }
    {
        if self.buffer.is_empty() {
            return self.left();
        }
        let before = self.live;
        self.write_all(host);
        let again = self.must_roll(&before);
        self.settle(host, again)
    }

    /// Ends the segment in progress in each live directory: its mark is appended and synced, and then it gets its last name.
    /// Where that drops one, another is begun and ended in the rest.
    pub fn end_segment<H: Host>(&mut self, host: &mut H) -> Result<(), NoneLeft>
        requires below { (j : ℕ) → has self.old.live j ≡ true → j < (H.state host.old).count }
        requires going { self.old.going ≡ true }
        requires empty { self.old.buffer.items ≡ [] }
        requires fit { IsFit self.old }
        requires ids { self.old.last + 64 < 2 ^ 63 }
        ensures brought { BringsAhead H.told (place_of self.old) (place_of self.new) self.old.holders self.old.live self.new.live (H.state host.old) (H.state host.new) }
        ensures ended { Finalizes H.told (place_of self.old) self.old.live self.new.live (H.state host.old) (H.state host.new) }
        ensures rose { self.old.last < self.new.last }
        ensures next { self.new.live ≡ self.old.live → self.new.last ≡ self.old.last + 1 }
        ensures calls { CallsWithin H.told 3 self.old.live self.new.live (H.state host.old) (H.state host.new) }
        ensures last { self.new.last + 2 * count_of self.new.live ≤ self.old.last + 2 + 2 * count_of self.old.live }
        ensures went { Went H.told self.old.live self.new.live (H.state host.old) (H.state host.new) }
        ensures left { OnErr result ((j : ℕ) → has self.new.live j ≡ false) }
        ensures some { OnOk result ((j : ℕ) × (has self.new.live j ≡ true)) }
        ensures kept { (self.new.holders ≡ self.old.holders) × (self.new.header ≡ self.old.header) × (self.new.going ≡ false) × (self.new.buffer.items ≡ []) × IsFit self.new }
        ensures below { (j : ℕ) → has self.new.live j ≡ true → j < (H.state host.new).count }
    {
        let before = self.live;
        self.end_all(host);
        let again = self.lacks(&before);
        self.settle(host, again)
    }

    /// Ends the segment in progress and begins the next in each live directory, and again as long as one is dropped.
    pub fn roll<H: Host>(&mut self, host: &mut H) -> Result<(), NoneLeft>
        requires below { (j : ℕ) → has self.old.live j ≡ true → j < (H.state host.old).count }
        requires going { self.old.going ≡ true }
        requires empty { self.old.buffer.items ≡ [] }
        requires fit { IsFit self.old }
        requires ids { self.old.last + 64 < 2 ^ 63 }
        ensures brought { BringsAhead H.told (place_of self.old) (place_of self.new) self.old.holders self.old.live self.new.live (H.state host.old) (H.state host.new) }
        ensures ended { Finalizes H.told (place_of self.old) self.old.live self.new.live (H.state host.old) (H.state host.new) }
        ensures calls { CallsWithin H.told 10 self.old.live self.new.live (H.state host.old) (H.state host.new) }
        ensures begins { self.new.first ≡ self.new.last }
        ensures rose { self.old.last < self.new.last }
        ensures last { self.new.last + 2 * count_of self.new.live ≤ self.old.last + 2 + 2 * count_of self.old.live }
        ensures went { Went H.told self.old.live self.new.live (H.state host.old) (H.state host.new) }
        ensures left { OnErr result ((j : ℕ) → has self.new.live j ≡ false) }
        ensures some { OnOk result ((j : ℕ) × (has self.new.live j ≡ true)) }
        ensures kept { (self.new.holders ≡ self.old.holders) × (self.new.header ≡ self.old.header) × (self.new.going ≡ true) × (self.new.buffer.items ≡ []) × IsFit self.new }
        ensures below { (j : ℕ) → has self.new.live j ≡ true → j < (H.state host.new).count }
    {
        self.rounds(host)
    }

    /// Drops a live directory that isn't to be written any more, without touching it, and goes on ahead of it as `drop_dirs` does.
    pub fn drop_dir<H: Host>(&mut self, host: &mut H, i: DirNo) -> Result<(), NoneLeft>
        requires below { (j : ℕ) → has self.old.live j ≡ true → j < (H.state host.old).count }
        requires dir { i.0 < 8 }
        requires live { has self.old.live i.0 ≡ true }
        requires empty { self.old.buffer.items ≡ [] }
        requires fit { IsFit self.old }
        requires ids { self.old.last + 64 < 2 ^ 63 }
        ensures brought { (gone : Members) × ((j : ℕ) → has gone j ≡ (j == i.0)) × DropsAhead H.told gone (place_of self.old) (place_of self.new) self.old.holders self.old.live self.new.live (H.state host.old) (H.state host.new) }
        ensures rose { self.old.last < self.new.last }
        ensures last { self.new.last + 2 * count_of self.new.live ≤ self.old.last + 2 * count_of self.old.live }
        ensures left { OnErr result ((j : ℕ) → has self.new.live j ≡ false) }
        ensures some { OnOk result ((j : ℕ) × (has self.new.live j ≡ true)) }
        ensures kept { (self.new.holders ≡ self.old.holders) × (self.new.header ≡ self.old.header) × (self.new.going ≡ self.old.going) × (self.new.buffer.items ≡ []) × IsFit self.new }
        ensures below { (j : ℕ) → has self.new.live j ≡ true → j < (H.state host.new).count }
    {
        self.drop_dirs(host, DirSet::none().with(i))
    }

    /// Drops these directories, at least one of which is live, without touching them. The rest rolls, or begins a segment and ends it
    /// where none is in progress, so that each of those ends strictly below.
    pub fn drop_dirs<H: Host>(&mut self, host: &mut H, gone: DirSet) -> Result<(), NoneLeft>
        requires below { (j : ℕ) → has self.old.live j ≡ true → j < (H.state host.old).count }
        requires live { (j : ℕ) × (has gone j ≡ true) × (has self.old.live j ≡ true) }
        requires empty { self.old.buffer.items ≡ [] }
        requires fit { IsFit self.old }
        requires ids { self.old.last + 64 < 2 ^ 63 }
        ensures brought { DropsAhead H.told gone (place_of self.old) (place_of self.new) self.old.holders self.old.live self.new.live (H.state host.old) (H.state host.new) }
        ensures rose { self.old.last < self.new.last }
        ensures last { self.new.last + 2 * count_of self.new.live ≤ self.old.last + 2 * count_of self.old.live }
        ensures left { OnErr result ((j : ℕ) → has self.new.live j ≡ false) }
        ensures some { OnOk result ((j : ℕ) × (has self.new.live j ≡ true)) }
        ensures kept { (self.new.holders ≡ self.old.holders) × (self.new.header ≡ self.old.header) × (self.new.going ≡ self.old.going) × (self.new.buffer.items ≡ []) × IsFit self.new }
        ensures below { (j : ℕ) → has self.new.live j ≡ true → j < (H.state host.new).count }
    {
        self.live = self.live.and_not(gone);
        self.rounds(host)
    }

    /// Makes a directory live again, as no holder. It isn't touched: it stands where the live ones do, and no segment is in
    /// progress.
    pub fn take_back(&mut self, i: DirNo)
        requires { i.0 < 8 }
        ensures live { (j : ℕ) → has self.new.live j ≡ ((j == i.0) || has self.old.live j) }
        ensures holders { (j : ℕ) → has self.new.holders j ≡ (not (j == i.0) && has self.old.holders j) }
        ensures kept { (place_of self.new ≡ place_of self.old) × (self.new.buffer ≡ self.old.buffer) }
    {
        self.live = self.live.with(i);
        self.holders = self.holders.without(i);
    }

    /// A directory has no saved state any more: it is no holder. It isn't touched, and stays live if it is.
    pub fn unhold(&mut self, i: DirNo)
        requires { i.0 < 8 }
        ensures holders { (j : ℕ) → has self.new.holders j ≡ (not (j == i.0) && has self.old.holders j) }
        ensures kept { (self.new.live ≡ self.old.live) × (place_of self.new ≡ place_of self.old) × (self.new.buffer ≡ self.old.buffer) }
    {
        self.holders = self.holders.without(i);
    }
}
