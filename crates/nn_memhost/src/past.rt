// The record of calls.
ghost use Rattle.std.specs.Prelude.{◌≡◌, ◌≤◌, ◌++◌, ◌∷◌, [], true, false, take, length};
ghost use Rattle.nn_memhost.specs.Part.{part_at, taken_of};
ghost use Rattle.nn_memhost.specs.Past.{NotedSaying};

use crate::asked::Asked;
use crate::counts::Counts;
use nn_base::DirNo;

/// What a call that fails leaves behind.
#[derive(Clone, Copy, Debug, PartialEq, Eq)]
pub enum Part {
    /// Nothing of it was done.
    Nothing,
    /// The first half of the bytes, rounded down; of a call without bytes nothing.
    Half,
    /// All of it was done.
    All,
}

/// What was asked, of a directory or of the output.
#[derive(Drop)]
pub enum Request {
    On(DirNo, Asked),
    Say(Vec<u8>),
}

/// A recorded call: what was asked, what it left if it failed, and the counts of faults before it.
#[derive(Drop)]
pub struct Logged {
    pub request: Request,
    pub failed: Option<Part>,
    pub before: Counts,
}

/// What the call of this number is to leave, if the list says that it fails; the first mention counts.
pub fn part_of(fails: &[(u64, Part)], call: u64) -> Option<Part>
    ensures { result ≡ part_at call fails.now }
{
    for (number, part) in fails {
        if *number == call {
            return Some(*part);
        }
    }
    None
}

/// How many of these bytes the output takes.
pub fn taken(failed: Option<Part>, bytes: &[u8]) -> usize
    ensures count { result ≡ taken_of failed bytes.now }
    ensures within { result ≤ length bytes.now }
{
    match failed {
        None | Some(Part::All) => bytes.len(),
        Some(Part::Half) => bytes.len() / 2,
        Some(Part::Nothing) => 0,
    }
}

/// Writes the call down, if there is memory for it.
pub fn keep(calls: &mut Vec<Logged>, logged: Logged) -> bool
    ensures kept { result ≡ true → calls.new.items ≡ calls.old.items ++ logged ∷ [] }
    ensures not_kept { result ≡ false → calls.new.items ≡ calls.old.items }
{
    calls.push(logged).is_ok()
}

/// Writes down that these bytes were handed to the output, and puts those behind `said` that it takes. Without memory
/// for both it does neither.
pub fn utter(
    calls: &mut Vec<Logged>,
    said: &mut Vec<u8>,
    bytes: &[u8],
    failed: Option<Part>,
    before: Counts,
) -> bool
    ensures noted { result ≡ true → NotedSaying bytes.now failed before calls.old.items calls.new.items }
    ensures said { result ≡ true → said.new.items ≡ said.old.items ++ take (taken_of failed bytes.now) bytes.now }
    ensures not_noted { result ≡ false → calls.new.items ≡ calls.old.items }
    ensures unsaid { result ≡ false → said.new.items ≡ said.old.items }
{
    let alloc = *said.allocator();
    let Ok(copy) = Vec::from_slice(alloc, bytes) else {
        return false;
    };
    let earlier = said.len();
    let more = &bytes[..taken(failed, bytes)];
    if said.extend_from_slice(more).is_err() {
        return false;
    }
    let logged = Logged {
        request: Request::Say(copy),
        failed,
        before,
    };
    if !keep(calls, logged) {
        said.truncate(earlier);
        return false;
    }
    true
}
