// What a line is answered.
ghost use Rattle.std.specs.Prelude.{◌≡◌, ◌≤◌, ◌+◌, ◌++◌, length, vec_len, vec_capacity};
ghost use Rattle.nn_script.specs.Spelling.{answer_text, spaced, syntax_words};
ghost use Rattle.nn_script.specs.Spelling.{refusal_word, path_word, unrestored_word, IsSaid, max_answer};

use crate::Syntax;
use crate::append::{put, put_number, put_word};
use nn_base::PathFault;
use nn_ops::OpRefusal;

/// The most bytes that the last line of an answer has: `ok COUNT` with a count of 20 digits.
pub const MAX_ANSWER: usize = 24;

/// The last line of an answer.
#[derive(Clone, Copy, Debug, PartialEq, Eq)]
pub enum Answer {
    /// `ok`: it was done
    Done,
    /// `ok COUNT`: that many nodes were listed
    Count(u64),
    /// `refused WORD`: the command isn't taken, and nothing is changed. It is never for want of
    /// memory.
    Refused(OpRefusal),
    /// `refused dry`: there are no directories
    Dry,
    /// `refused later`: a run can't do this to its directories yet
    Later,
    /// `refused WORD`: no directory is taken back, and none becomes live
    NotRestored(Unrestored),
    /// `syntax WORD`: the line says no command. It is never for want of memory.
    Unread(Syntax),
}

/// Why a line `restore` takes no directory back.
#[derive(Clone, Copy, Debug, PartialEq, Eq)]
pub enum Unrestored {
    /// `no-such-dir`: its number isn't below the count of directories
    NoSuchDir,
    /// `missing`: it has no usable root
    Missing,
    /// `inconsistent`: its files contradict each other, as the table of analyzeStorage says
    Inconsistent,
    /// `failed`: a call on it failed, and it stays dropped
    Failed,
}

impl Answer {
    /// Appends the line to a buffer that has room for it, which takes no memory.
    pub fn text(self, out: &mut Vec<u8>)
        requires said { IsSaid self }
        requires room { vec_len out.old + max_answer ≤ vec_capacity out.old }
        ensures text { out.new.items ≡ out.old.items ++ answer_text self }
        ensures short { length (answer_text self) ≤ max_answer }
        ensures room { vec_capacity out.old ≤ vec_capacity out.new }
    {
        match self {
            Answer::Done => put(b"ok", out),
            Answer::Count(count) => {
                put(b"ok", out);
                put_number(count, out);
            }
            Answer::Refused(refusal) => {
                put(b"refused", out);
                put_word(refusal_word(refusal).as_bytes(), out);
            }
            Answer::Dry => put(b"refused dry", out),
            Answer::Later => put(b"refused later", out),
            Answer::NotRestored(why) => {
                put(b"refused", out);
                put_word(unrestored_word(why).as_bytes(), out);
            }
            Answer::Unread(fault) => {
                put(b"syntax", out);
                put_fault(fault, out);
            }
        }
        put(b"\n", out);
    }
}

fn put_fault(fault: Syntax, out: &mut Vec<u8>)
    requires room { vec_len out.old + 15 ≤ vec_capacity out.old }
    ensures text { out.new.items ≡ out.old.items ++ spaced (syntax_words fault) }
    ensures size { vec_len out.new ≤ vec_len out.old + 15 }
    ensures room { vec_capacity out.old ≤ vec_capacity out.new }
{
    match fault {
        Syntax::Long => put_word(b"long", out),
        Syntax::Byte => put_word(b"byte", out),
        Syntax::Words => put_word(b"words", out),
        Syntax::Unknown => put_word(b"unknown", out),
        Syntax::Number => put_word(b"number", out),
        Syntax::Mode => put_word(b"mode", out),
        Syntax::Escape => put_word(b"escape", out),
        Syntax::Name => put_word(b"name", out),
        Syntax::Path(fault) => {
            put_word(b"path", out);
            put_word(path_word(fault).as_bytes(), out);
        }
        Syntax::Memory => (),
    }
}

fn path_word(fault: PathFault) -> &'static str
    ensures word { result.now ≡ path_word fault }
    ensures short { length result.now ≤ 9 }
{
    match fault {
        PathFault::Empty => "empty",
        PathFault::Relative => "relative",
        PathFault::LongPath => "long-path",
        PathFault::BadName => "bad-name",
        PathFault::LongName => "long-name",
        PathFault::Deep => "deep",
        PathFault::Memory => "",
    }
}

fn unrestored_word(why: Unrestored) -> &'static str
    ensures word { result.now ≡ unrestored_word why }
    ensures short { length result.now ≤ 12 }
{
    match why {
        Unrestored::NoSuchDir => "no-such-dir",
        Unrestored::Missing => "missing",
        Unrestored::Inconsistent => "inconsistent",
        Unrestored::Failed => "failed",
    }
}

fn refusal_word(refusal: OpRefusal) -> &'static str
    ensures word { result.now ≡ refusal_word refusal }
    ensures short { length result.now ≤ 9 }
{
    match refusal {
        OpRefusal::Exists => "exists",
        OpRefusal::NotFound => "not-found",
        OpRefusal::NotDir => "not-dir",
        OpRefusal::IsDir => "is-dir",
        OpRefusal::Under => "under",
        OpRefusal::Root => "root",
        OpRefusal::Closed => "closed",
        OpRefusal::Quota => "quota",
        OpRefusal::Limit => "limit",
        OpRefusal::Memory => "",
    }
}
