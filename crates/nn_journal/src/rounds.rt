// The journal over all live directories: the steps that its calls are made of.
ghost use Rattle.std.specs.Prelude.{◌≡◌, ◌≢◌, ◌⊎◌, ◌+◌, ◌*◌, ◌<◌, ◌≤◌, ◌++◌, ◌^◌, ℕ, true, false, [], length, OnOk, OnErr, vec_len, vec_capacity};
ghost use Rattle.nn_base.specs.DirSets.{has, count_of};
ghost use Rattle.nn_record.specs.Spelling.{spelling, IsRecord};
ghost use Rattle.nn_journal.specs.Among.{SteppedAll};
ghost use Rattle.nn_host.specs.Moments.{moment};
ghost use Rattle.nn_journal.specs.Finalizing.{Finalizes};
ghost use Rattle.nn_journal.specs.Rolling.{CallsWithin, HasSettled};
ghost use Rattle.nn_journal.specs.Places.{Brings, BringsAhead, Went, end_record, start_record, most_buffer, most_unended, full_segment, place_of};
ghost use Rattle.nn_segment_file.specs.declared.step.Step.TheVariants.{Start, Write, End};

use crate::among::step_all;
use crate::journal::{FULL_SEGMENT, JournalSet, NoneLeft};
use nn_base::{DirSet, FirstTxid, Txid};
use nn_host::Host;
use nn_record::{Op, Record};
use nn_segment_file::Step;

fn put(bytes: &[u8], out: &mut Vec<u8>)
    requires room { vec_len out.old + length bytes.now ≤ vec_capacity out.old }
    ensures items { out.new.items ≡ out.old.items ++ bytes.now }
    ensures len { vec_len out.new ≡ vec_len out.old + length bytes.now }
    ensures capacity { vec_capacity out.old ≤ vec_capacity out.new }
{
    if out.extend_from_slice(bytes).is_err() {
        unreachable!()
    }
}

impl JournalSet {
    /// Writes the records that were logged in each live directory.
    pub(crate) fn write_all<H: Host>(&mut self, host: &mut H)
        requires below { (j : ℕ) → has self.old.live j ≡ true → j < (H.state host.old).count }
        requires room { most_buffer ≤ vec_capacity self.old.buffer }
        requires small { self.old.size + vec_len self.old.buffer ≤ most_unended }
        ensures stepped { SteppedAll H.told Write self.old.first self.old.buffer.items self.old.holders self.old.live self.new.live (H.state host.old) (H.state host.new) }
        ensures size { self.new.size ≡ self.old.size + vec_len self.old.buffer }
        ensures place { (self.new.going ≡ self.old.going) × (self.new.first ≡ self.old.first) × (self.new.last ≡ self.old.last) }
        ensures empty { self.new.buffer.items ≡ [] }
        ensures room { most_buffer ≤ vec_capacity self.new.buffer }
        ensures kept { (self.new.holders ≡ self.old.holders) × (self.new.header ≡ self.old.header) }
        ensures below { (j : ℕ) → has self.new.live j ≡ true → j < (H.state host.new).count }
    {
        step_all(
            host,
            &mut self.live,
            &self.holders,
            &Step::Write,
            &self.first,
            &self.buffer,
        );
        self.size += self.buffer.len();
        self.buffer.clear();
    }

    /// Ends the segment in progress in each live directory.
    pub(crate) fn end_all<H: Host>(&mut self, host: &mut H)
        requires below { (j : ℕ) → has self.old.live j ≡ true → j < (H.state host.old).count }
        requires empty { self.old.buffer.items ≡ [] }
        requires room { most_buffer ≤ vec_capacity self.old.buffer }
        requires ids { self.old.last + 2 < 2 ^ 63 }
        requires order { self.old.first ≤ self.old.last }
        ensures stepped { SteppedAll H.told (End (self.old.last + 1)) self.old.first (spelling (end_record (self.old.last + 1))) self.old.holders self.old.live self.new.live (H.state host.old) (H.state host.new) }
        ensures record { IsRecord (end_record (self.old.last + 1)) }
        ensures place { (self.new.going ≡ false) × (self.new.first ≡ self.old.first) × (self.new.last ≡ self.old.last + 1) × (self.new.size ≡ self.old.size) }
        ensures empty { self.new.buffer.items ≡ [] }
        ensures room { most_buffer ≤ vec_capacity self.new.buffer }
        ensures kept { (self.new.holders ≡ self.old.holders) × (self.new.header ≡ self.old.header) }
        ensures below { (j : ℕ) → has self.new.live j ≡ true → j < (H.state host.new).count }
    {
        let end = Txid(self.last.0 + 1);
        Record::put_op(end, &Op::EndLogSegment, &mut self.buffer);
        step_all(
            host,
            &mut self.live,
            &self.holders,
            &Step::End(end),
            &self.first,
            &self.buffer,
        );
        self.buffer.clear();
        self.going = false;
        self.last = end;
    }

    /// Begins a segment in each live directory.
    pub(crate) fn start_all<H: Host>(&mut self, host: &mut H)
        requires below { (j : ℕ) → has self.old.live j ≡ true → j < (H.state host.old).count }
        requires empty { self.old.buffer.items ≡ [] }
        requires room { most_buffer ≤ vec_capacity self.old.buffer }
        requires ids { self.old.last + 2 < 2 ^ 63 }
        ensures stepped { SteppedAll H.told Start (self.old.last + 1) (self.old.header ++ spelling (start_record (self.old.last + 1))) self.old.holders self.old.live self.new.live (H.state host.old) (H.state host.new) }
        ensures record { IsRecord (start_record (self.old.last + 1)) }
        ensures place { (self.new.going ≡ true) × (self.new.first ≡ self.old.last + 1) × (self.new.last ≡ self.old.last + 1) }
        ensures size { self.new.size ≡ length (self.old.header ++ spelling (start_record (self.old.last + 1))) }
        ensures small { self.new.size ≤ full_segment }
        ensures empty { self.new.buffer.items ≡ [] }
        ensures room { most_buffer ≤ vec_capacity self.new.buffer }
        ensures kept { (self.new.holders ≡ self.old.holders) × (self.new.header ≡ self.old.header) }
        ensures below { (j : ℕ) → has self.new.live j ≡ true → j < (H.state host.new).count }
    {
        let start = Txid(self.last.0 + 1);
        put(&self.header, &mut self.buffer);
        Record::put_op(start, &Op::StartLogSegment, &mut self.buffer);
        self.first = FirstTxid(start);
        step_all(
            host,
            &mut self.live,
            &self.holders,
            &Step::Start,
            &self.first,
            &self.buffer,
        );
        self.size = self.buffer.len();
        self.buffer.clear();
        self.going = true;
        self.last = start;
    }

    /// Ends the segment in progress and begins the next, or begins one and ends it where none is in progress: so each live
    /// directory gets two ids that no directory that is dropped before has.
    fn round<H: Host>(&mut self, host: &mut H)
        requires below { (j : ℕ) → has self.old.live j ≡ true → j < (H.state host.old).count }
        requires empty { self.old.buffer.items ≡ [] }
        requires room { most_buffer ≤ vec_capacity self.old.buffer }
        requires ids { self.old.last + 4 < 2 ^ 63 }
        requires order { self.old.going ≡ true → self.old.first ≤ self.old.last }
        requires small { self.old.size ≤ most_unended }
        ensures brings { Brings H.told (place_of self.old) (place_of self.new) self.new.last self.old.holders self.old.live self.new.live (H.state host.old) (H.state host.new) }
        ensures ended { Finalizes H.told (place_of self.old) self.old.live self.new.live (H.state host.old) (H.state host.new) }
        ensures calls { H.told → moment (H.state host.new) ≤ moment (H.state host.old) + 10 * count_of self.old.live }
        ensures went { Went H.told self.old.live self.new.live (H.state host.old) (H.state host.new) }
        ensures place { (self.new.going ≡ self.old.going) × (self.new.last ≡ self.old.last + 2) × (self.new.first ≤ self.new.last) × (self.new.size ≤ full_segment) }
        ensures begins { self.new.going ≡ true → self.new.first ≡ self.new.last }
        ensures empty { self.new.buffer.items ≡ [] }
        ensures room { most_buffer ≤ vec_capacity self.new.buffer }
        ensures kept { (self.new.holders ≡ self.old.holders) × (self.new.header ≡ self.old.header) }
        ensures below { (j : ℕ) → has self.new.live j ≡ true → j < (H.state host.new).count }
    {
        if self.going {
            self.end_all(host);
            self.start_all(host);
        } else {
            self.start_all(host);
            self.end_all(host);
        }
    }

    /// Goes on by rounds until none drops a directory, so that each that was dropped ends below each live one.
    pub(crate) fn rounds<H: Host>(&mut self, host: &mut H) -> Result<(), NoneLeft>
        requires below { (j : ℕ) → has self.old.live j ≡ true → j < (H.state host.old).count }
        requires empty { self.old.buffer.items ≡ [] }
        requires room { most_buffer ≤ vec_capacity self.old.buffer }
        requires ids { self.old.last + 32 < 2 ^ 63 }
        requires order { self.old.going ≡ true → self.old.first ≤ self.old.last }
        requires small { self.old.size ≤ most_unended }
        ensures rose { self.old.last < self.new.last }
        ensures brought { BringsAhead H.told (place_of self.old) (place_of self.new) self.old.holders self.old.live self.new.live (H.state host.old) (H.state host.new) }
        ensures ended { Finalizes H.told (place_of self.old) self.old.live self.new.live (H.state host.old) (H.state host.new) }
        ensures calls { CallsWithin H.told 10 self.old.live self.new.live (H.state host.old) (H.state host.new) }
        ensures ids { self.new.last + 2 * count_of self.new.live ≤ self.old.last + 2 + 2 * count_of self.old.live }
        ensures went { Went H.told self.old.live self.new.live (H.state host.old) (H.state host.new) }
        ensures left { OnErr result ((j : ℕ) → has self.new.live j ≡ false) }
        ensures some { OnOk result ((j : ℕ) × (has self.new.live j ≡ true)) }
        ensures begins { self.new.going ≡ true → self.new.first ≡ self.new.last }
        ensures place { (self.new.going ≡ self.old.going) × (self.new.first ≤ self.new.last) × (self.new.size ≤ full_segment) }
        ensures empty { self.new.buffer.items ≡ [] }
        ensures room { most_buffer ≤ vec_capacity self.new.buffer }
        ensures kept { (self.new.holders ≡ self.old.holders) × (self.new.header ≡ self.old.header) }
        ensures below { (j : ℕ) → has self.new.live j ≡ true → j < (H.state host.new).count }
    {
        let mut again = true;
        while again {
            let before = self.live;
            self.round(host);
            again = self.lacks(&before);
        }
        self.left()
    }

    /// What follows a step in all live directories: rounds, where it dropped one.
    pub(crate) fn settle<H: Host>(&mut self, host: &mut H, again: bool) -> Result<(), NoneLeft>
        requires below { (j : ℕ) → has self.old.live j ≡ true → j < (H.state host.old).count }
        requires empty { self.old.buffer.items ≡ [] }
        requires room { most_buffer ≤ vec_capacity self.old.buffer }
        requires ids { self.old.last + 32 < 2 ^ 63 }
        requires order { self.old.first ≤ self.old.last }
        requires small { self.old.size ≤ most_unended }
        requires full { again ≡ false → self.old.size ≤ full_segment }
        ensures settled { HasSettled again H.told (place_of self.old) (place_of self.new) self.old.holders self.old.live self.new.live (H.state host.old) (H.state host.new) }
        ensures went { Went H.told self.old.live self.new.live (H.state host.old) (H.state host.new) }
        ensures left { OnErr result ((j : ℕ) → has self.new.live j ≡ false) }
        ensures some { OnOk result ((j : ℕ) × (has self.new.live j ≡ true)) }
        ensures place { (self.new.going ≡ self.old.going) × (self.new.first ≤ self.new.last) × (self.new.size ≤ full_segment) }
        ensures empty { self.new.buffer.items ≡ [] }
        ensures room { most_buffer ≤ vec_capacity self.new.buffer }
        ensures kept { (self.new.holders ≡ self.old.holders) × (self.new.header ≡ self.old.header) }
        ensures below { (j : ℕ) → has self.new.live j ≡ true → j < (H.state host.new).count }
    {
        if again {
            return self.rounds(host);
        }
        self.left()
    }

    /// Whether a directory that was live before no longer is, or the segment in progress is full.
    pub(crate) fn must_roll(&self, before: &DirSet) -> bool
        ensures yes { result ≡ true → (self.now.live ≢ before.now) ⊎ (full_segment < self.now.size) }
        ensures no { result ≡ false → (self.now.live ≡ before.now) × (self.now.size ≤ full_segment) }
    {
        if self.lacks(before) {
            return true;
        }
        self.size > FULL_SEGMENT
    }

    /// Whether other directories are live than before.
    pub(crate) fn lacks(&self, before: &DirSet) -> bool
        ensures yes { result ≡ true → self.now.live ≢ before.now }
        ensures no { result ≡ false → self.now.live ≡ before.now }
    {
        let same = self.live == *before;
        !same
    }

    /// `NoneLeft` where no directory is live.
    pub(crate) fn left(&self) -> Result<(), NoneLeft>
        ensures left { OnErr result ((j : ℕ) → has self.now.live j ≡ false) }
        ensures some { OnOk result ((j : ℕ) × (has self.now.live j ≡ true)) }
    {
        if self.live.is_empty() {
            return Err(NoneLeft);
        }
        Ok(())
    }
}
