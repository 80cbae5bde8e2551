// Reads a script line by line.
ghost use Rattle.std.specs.Prelude.{◌≡◌, ◌<◌, ◌≤◌, ◌+◌, ◌++◌, ◌==◌, [], length, take, true, false};
ghost use Rattle.std.specs.Prelude.{IfOk, OnOk, OnErr, vec_len, vec_capacity};
ghost use Rattle.std.specs.List.{position};
ghost use Rattle.std.specs.Str.Lines.{strip_carriage_return};
ghost use Rattle.nn_base.specs.Limits.{most_piece, most_script};
ghost use Rattle.nn_host.specs.Calls.{next_count};
ghost use Rattle.nn_reader.specs.Reading.{most_kept, front_of, kept_of, past_of, IsBehind};

use memchr::memchr;
use nn_base::NoMemory;
use nn_base::limits::{MOST_LINE, MOST_PIECE, MOST_SCRIPT};
use nn_host::{Failed, Source};
use std::alloc::Global;

/// Of a line so many bytes are kept. One that is longer is too long even without a carriage return.
const KEPT: usize = MOST_LINE + 2;

/// What a reader has read.
#[derive(Clone, Copy, Debug, PartialEq, Eq)]
pub enum Next {
    /// A line that ended with a newline.
    Line,
    /// The last line, which no newline ends, and which isn't empty.
    Last,
    /// Nothing: the script is at its end.
    End,
    /// Bytes that no newline ends within the most that a script may have, and the script goes on
    /// behind them.
    TooLong,
}

/// Reads a script line by line, in chunks, and takes from its source at most one byte more than a
/// script may have.
#[derive(Drop)]
pub struct LineReader {
    chunk: Vec<u8>,
    at: usize,
    end: usize,
    room: usize,
    line: Vec<u8>,
    ghost order: { at ≤ end },
    ghost within: { end ≤ vec_len chunk },
    ghost size: { vec_len chunk ≡ most_piece },
    ghost front: { vec_len line ≤ most_kept },
    ghost space: { most_kept ≤ vec_capacity line },
}

impl LineReader {
    ghost use Rattle.nn_reader.specs.Reader.{ahead, budget, IsNextLine, PartRead, HasRead, Refilled, Stopped};

    /// A reader that has taken nothing. All the memory that it needs is taken here.
    pub fn new(alloc: Global) -> Result<LineReader, NoMemory>
        ensures ahead { IfOk result (λ reader. ahead reader ≡ []) }
        ensures budget { IfOk result (λ reader. budget reader ≡ most_script) }
    {
        let chunk = vec![in alloc; 0; MOST_PIECE]?;
        let line = Vec::with_capacity(alloc, KEPT)?;
        Ok(LineReader {
            chunk,
            at: 0,
            end: 0,
            room: MOST_SCRIPT,
            line,
        })
    }

    /// What was read last, without its newline and the carriage return before that. Of a line above
    /// 65,536 bytes only a front is here, which reads as the whole does.
    pub fn line(&self) -> &[u8]
        ensures { result.now ≡ self.now.line.items }
    {
        &self.line
    }

    /// Reads the next line.
    pub fn next<S: Source>(&mut self, source: &mut S) -> Result<Next, Failed>
        ensures ok { IfOk result (λ next. IsNextLine S.told next
            (ahead self.old ++ S.left source.old) (ahead self.new ++ S.left source.new)
            (budget self.old) (budget self.new) self.new.line.items) }
        ensures spent { IfOk result (λ next. next ≡ Next.TooLong → ahead self.new ≡ []) }
        ensures err { OnErr result (Stopped S.told (ahead self.old ++ S.left source.old)
            (S.left source.new) (budget self.old)) }
        ensures counted_ok { OnOk result (S.faults source.new ≡ S.faults source.old) }
        ensures counted_err { OnErr result
            (S.faults source.new ≡ next_count (S.faults source.old)) }
    {
        self.line.clear();
        'parts: loop {
            if self.read_ahead() {
                self.drop_carriage_return();
                return Ok(Next::Line);
            }
            if self.room == 0 {
                let more = one_more(source)?;
                return Ok(self.past_room(more));
            }
            let some = self.refill(source)?;
            if !some {
                return Ok(self.last());
            }
        }
    }

    // Reads what was taken up to the next newline and past it, or all of it where there is none.
    fn read_ahead(&mut self) -> bool
        ensures read { PartRead result (ahead self.old) (ahead self.new)
            self.old.line.items self.new.line.items }
        ensures room { self.new.room ≡ self.old.room }
    {
        let ahead = &self.chunk[self.at..self.end];
        match newline_in(ahead) {
            Some(count) => {
                keep(&mut self.line, &ahead[..count]);
                self.at += count + 1;
                true
            }
            None => {
                keep(&mut self.line, ahead);
                self.at = self.end;
                false
            }
        }
    }

    fn drop_carriage_return(&mut self)
        ensures line { self.new.line.items ≡ strip_carriage_return self.old.line.items }
        ensures ahead { ahead self.new ≡ ahead self.old }
        ensures room { self.new.room ≡ self.old.room }
    {
        if let Some(b'\r') = self.line.last() {
            self.line.truncate(self.line.len() - 1);
        }
    }

    // Takes the next chunk; false where there is none.
    fn refill<S: Source>(&mut self, source: &mut S) -> Result<bool, Failed>
        requires read { ahead self.old ≡ [] }
        requires room { 0 < self.old.room }
        ensures ok { IfOk result (λ some. Refilled S.told some (S.left source.old)
            (S.left source.new) (ahead self.new) self.old.room self.new.room) }
        ensures line { self.new.line.items ≡ self.old.line.items }
        ensures err { S.told → OnErr result (S.left source.new ≡ S.left source.old) }
        ensures counted_ok { OnOk result (S.faults source.new ≡ S.faults source.old) }
        ensures counted_err { OnErr result
            (S.faults source.new ≡ next_count (S.faults source.old)) }
    {
        let count = take_front(source, &mut self.chunk, self.room.min(MOST_PIECE))?;
        self.at = 0;
        self.end = count;
        self.room -= count;
        Ok(count > 0)
    }

    // What is read where all the bytes that a script may have are read, by whether there is one more.
    fn past_room(&self, more: bool) -> Next
        ensures { result ≡ past_of more self.now.line.items }
    {
        if more { Next::TooLong } else { self.last() }
    }

    // What stands behind the last newline, if anything does.
    fn last(&self) -> Next
        ensures { result ≡ kept_of self.now.line.items }
    {
        if self.line.is_empty() {
            Next::End
        } else {
            Next::Last
        }
    }
}

// Takes one byte, where there is one.
fn one_more<S: Source>(source: &mut S) -> Result<bool, Failed>
    ensures ok { IfOk result (λ more. IsBehind S.told more (S.left source.old) (S.left source.new)) }
    ensures err { S.told → OnErr result (S.left source.new ≡ S.left source.old) }
    ensures counted_ok { OnOk result (S.faults source.new ≡ S.faults source.old) }
    ensures counted_err { OnErr result (S.faults source.new ≡ next_count (S.faults source.old)) }
{
    let mut byte = [0];
    let count = source.take(&mut byte)?;
    if count == 0 { Ok(false) } else { Ok(true) }
}

// Takes at most so many bytes to the front of the chunk.
fn take_front<S: Source>(source: &mut S, chunk: &mut [u8], most: usize) -> Result<usize, Failed>
    requires within { most ≤ length chunk.old }
    ensures ok { S.told → IfOk result (λ count.
        S.left source.old ≡ take count chunk.new ++ S.left source.new) }
    ensures none { S.told → IfOk result (λ count.
        0 < most → count ≡ 0 → S.left source.old ≡ []) }
    ensures most { IfOk result (λ count. count ≤ most) }
    ensures err { S.told → OnErr result (S.left source.new ≡ S.left source.old) }
    ensures counted_ok { OnOk result (S.faults source.new ≡ S.faults source.old) }
    ensures counted_err { OnErr result (S.faults source.new ≡ next_count (S.faults source.old)) }
{
    let count = source.take(&mut chunk[..most])?;
    Ok(count)
}

fn newline_in(bytes: &[u8]) -> Option<usize>
    ensures { result ≡ position (λ byte. byte == 10) bytes.now }
{
    memchr(b'\n', bytes)
}

// Appends what is kept of a part of a line.
fn keep(line: &mut Vec<u8>, part: &[u8])
    requires front { vec_len line.old ≤ most_kept }
    requires space { most_kept ≤ vec_capacity line.old }
    ensures line { line.new.items ≡ front_of (line.old.items ++ part.now) }
    ensures front { vec_len line.new ≤ most_kept }
    ensures space { most_kept ≤ vec_capacity line.new }
{
    let room = KEPT.saturating_sub(line.len());
    let most = room.min(part.len());
    match line.extend_from_slice(&part[..most]) {
        Ok(()) => (),
        Err(_) => unreachable!(),
    }
}
