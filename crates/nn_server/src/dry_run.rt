// Running a script on a namespace in memory alone.
ghost use Rattle.std.specs.Prelude.{◌≡◌, []};
ghost use Rattle.nn_base.specs.Limits.{most_script};
ghost use Rattle.nn_script.specs.Answers.{first_state};
ghost use Rattle.nn_server.specs.Scene.{scene};
ghost use Rattle.nn_reader.specs.Reader.{ahead, budget};
ghost use Rattle.nn_server.specs.Came.{CameTo};
ghost use Rattle.nn_server.specs.Codes.{dry_status};
ghost use Rattle.nn_server.specs.Dry.{DryRan, dry_end};

use crate::session::{Session, Unsaid};
use nn_arena::ArenaTree;
use nn_base::NoMemory;
use nn_host::{Failed, Host, Source};
use nn_reader::{LineReader, Next};
use nn_tree::Tree;
use std::alloc::Global;

/// How a run over a script ends.
#[derive(Clone, Copy, Debug, PartialEq, Eq)]
pub enum DryEnd {
    /// All lines were answered, and the script was read to its end.
    Done,
    /// A call of the source failed.
    SourceFault,
    /// The script has more than 2^26 bytes.
    ScriptTooLong,
    /// Memory ran out.
    Memory,
    /// The output failed: nothing more was said.
    OutFault,
}

/// Answers the script of a source, line by line, on the empty namespace and at the time 0. It touches
/// no directory: the lines that need one are answered `refused dry`.
///
/// A line is answered as soon as it was taken whole. An answer goes out in one call of the output, and
/// a listing of more than 65,536 bytes in several; where the output doesn't fail, what was said are
/// whole answers. The last line of a status is left to the caller.
#[tactic(auto, using(crate::proofs::DryLemmas::ending_unbegun))]
pub fn dry<H: Host, S: Source>(alloc: Global, host: &mut H, source: &mut S) -> DryEnd
    ensures { CameTo H.told (H.state host.old) (H.state host.new) dry_status
        (DryRan H.told S.told (S.left source.old) (S.left source.new) (S.faults source.old) (S.faults source.new)
        (H.state host.old) (H.state host.new)) result }
{
    let mut reader = match LineReader::new(alloc) {
        Ok(reader) => reader,
        Err(NoMemory) => return DryEnd::Memory,
    };
    let mut session: Session<ArenaTree> = match Session::new(alloc) {
        Ok(session) => session,
        Err(NoMemory) => return DryEnd::Memory,
    };
    answer_all(alloc, host, source, &mut reader, &mut session)
}

// Answers the lines that a reader which has read nothing reads.
fn answer_all<H: Host, S: Source, T: Tree>(
    alloc: Global,
    host: &mut H,
    source: &mut S,
    reader: &mut LineReader,
    session: &mut Session<T>,
) -> DryEnd
    requires ahead { ahead reader.old ≡ [] }
    requires budget { budget reader.old ≡ most_script }
    requires first { scene (T.meaning session.old.tree) session.old.time ≡ first_state }
    ensures { CameTo H.told (H.state host.old) (H.state host.new) dry_status
        (DryRan H.told S.told (S.left source.old) (S.left source.new) (S.faults source.old) (S.faults source.new)
        (H.state host.old) (H.state host.new)) result }
{
    'lines: loop {
        match reader.next(source) {
            Ok(Next::Line) => match session.answer(alloc, host, reader.line()) {
                Ok(()) => (),
                Err(unsaid) => return dry_end(unsaid),
            },
            Ok(Next::Last) => match session.answer(alloc, host, reader.line()) {
                Ok(()) => return DryEnd::Done,
                Err(unsaid) => return dry_end(unsaid),
            },
            Ok(Next::End) => return DryEnd::Done,
            Ok(Next::TooLong) => return DryEnd::ScriptTooLong,
            Err(Failed) => return DryEnd::SourceFault,
        }
    }
}

// How a run ends whose last answer wasn't said whole.
fn dry_end(unsaid: Unsaid) -> DryEnd
    ensures { result ≡ dry_end unsaid }
{
    match unsaid {
        Unsaid::Memory => DryEnd::Memory,
        Unsaid::Output => DryEnd::OutFault,
    }
}
