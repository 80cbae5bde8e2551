// A run from its start on.
ghost use Rattle.std.specs.Prelude.{◌≡◌, ◌+◌, ◌<◌, ◌≤◌, ◌^◌, ℕ, [], IfOk, IfErr, vec_capacity};
ghost use Rattle.nn_base.specs.Limits.{most_script};
ghost use Rattle.std.specs.String.{string_bytes};
ghost use Rattle.nn_host.specs.Moments.{State};
ghost use Rattle.nn_host.specs.Runs.{Unspoken};
ghost use Rattle.nn_run.specs.Course.{started_line};
ghost use Rattle.nn_reader.specs.Reader.{ahead, budget};
ghost use Rattle.nn_reader.specs.Script.{OnTheWay};
ghost use Rattle.nn_generate.specs.Generated.{max_file};
ghost use Rattle.nn_tree.specs.Imaged.{IsImaged};
ghost use Rattle.nn_core.specs.Ready.{IsReady};
ghost use Rattle.nn_server.specs.Came.{CameTo};
ghost use Rattle.nn_serve.specs.Ended.{run_status, run_reached};
ghost use Rattle.nn_serve.specs.Ran.{RunRan};
ghost use Rattle.nn_serve.specs.Filled.{CameFilled};
ghost use Rattle.nn_serve.specs.Serving.{HasBegun, EndsSo};
ghost use Rattle.nn_serve.specs.Turns.{SaysStarted};

use crate::ending::{RunEnd, unstarted};
use crate::filling::fill;
use crate::serving::serve;
use nn_arena::ArenaTree;
use nn_base::{NoMemory, Txid};
use nn_begin::start;
use nn_core::Core;
use nn_generate::MAX_FILE;
use nn_host::{Failed, Host, Source};
use nn_journal::Opened;
use nn_reader::LineReader;
use nn_tree::Tree;
use std::alloc::Global;

/// Runs the script of a source over all directories of the host: brings them to one namespace, says `started N`, and answers
/// one line after another, each once its record is synced in all live directories. `at` is what time it is at first, in
/// milliseconds. At the end of the script the last segment is ended.
///
/// A directory in which a call fails is dropped until a line takes it back, and the run goes on while one is left. The last line of a status is left to
/// the caller.
pub fn run<H: Host, S: Source>(alloc: Global, host: &mut H, source: &mut S, at: u64) -> RunEnd
    requires { at < 2 ^ 63 }
    ensures { CameTo H.told (H.state host.old) (H.state host.new) run_status (λ lines trace. RunRan H.told S.told at (S.left source.old) (S.left source.new) (S.faults source.old) (S.faults source.new) (H.state host.old) (H.state host.new) lines) result }
{
    // The memory for lines is taken before the first change of a directory.
    let mut reader = match LineReader::new(alloc) {
        Ok(reader) => reader,
        Err(NoMemory) => return RunEnd::Memory,
    };
    let begun: Begun<ArenaTree> = match begin(alloc, host, at) {
        Ok(begun) => begun,
        Err(end) => return end,
    };
    go_on(alloc, host, source, &mut reader, begun)
}

/// Runs the lines of so many generated files over all directories of the host, as `run` does those of a script, but says none of
/// their answers. Right before its end, once the last segment was ended, it says `commands C ok O`: how many commands there were,
/// and how many of them were taken. `at` is what time it is, in milliseconds.
pub fn run_generated<H: Host>(alloc: Global, host: &mut H, files: u32, at: u64) -> RunEnd
    requires early { at < 2 ^ 63 }
    requires few { files ≤ 500000 }
    ensures { CameFilled H.told at files (H.state host.old) (H.state host.new) result }
{
    // The memory for lines is taken before the first change of a directory.
    let mut lines = match Vec::with_capacity(alloc, MAX_FILE) {
        Ok(lines) => lines,
        Err(_) => return RunEnd::Memory,
    };
    let begun: Begun<ArenaTree> = match begin(alloc, host, at) {
        Ok(begun) => begun,
        Err(end) => return end,
    };
    fill_on(alloc, host, files, &mut lines, begun)
}

// Says that a run has started, and does the lines of generated files.
fn fill_on<H: Host, T: Tree>(
    alloc: Global,
    host: &mut H,
    files: u32,
    lines: &mut Vec<u8>,
    begun: Begun<T>,
) -> RunEnd
    requires buffer { max_file ≤ vec_capacity lines.old }
    requires few { files ≤ 500000 }
    requires ready { IsReady begun.core.journal begun.core.count (H.state host.old) }
    requires room { begun.last < 2 ^ 62 }
    requires last { begun.core.journal.last ≡ begun.last + 1 }
    requires imaged { IsImaged (T.meaning begun.core.tree) }
    ensures { (at : ℕ) (origin : State) → begun.core.time ≡ at → HasBegun H.told at begun.core.count begun.core.version (T.meaning begun.core.tree) begun.core.journal begun.last origin (H.state host.old) →
        CameFilled H.told at files origin (H.state host.new) result }
{
    let mut core = begun.core;
    match say_started(alloc, host, begun.last) {
        Ok(()) => fill(alloc, host, &mut core, files, lines),
        Err(end) => end,
    }
}

// Says that a run has started, and answers the lines that a reader which has read nothing reads.
fn go_on<H: Host, S: Source, T: Tree>(
    alloc: Global,
    host: &mut H,
    source: &mut S,
    reader: &mut LineReader,
    begun: Begun<T>,
) -> RunEnd
    requires ahead { ahead reader.old ≡ [] }
    requires budget { budget reader.old ≡ most_script }
    requires ready { IsReady begun.core.journal begun.core.count (H.state host.old) }
    requires room { begun.last < 2 ^ 62 }
    requires last { begun.core.journal.last ≡ begun.last + 1 }
    requires imaged { IsImaged (T.meaning begun.core.tree) }
    ensures { (at : ℕ) (origin : State) → begun.core.time ≡ at → HasBegun H.told at begun.core.count begun.core.version (T.meaning begun.core.tree) begun.core.journal begun.last origin (H.state host.old) →
        CameTo H.told origin (H.state host.new) run_status (λ lines trace. RunRan H.told S.told at (S.left source.old) (S.left source.new) (S.faults source.old) (S.faults source.new) origin (H.state host.new) lines) result }
{
    let mut core = begun.core;
    match say_started(alloc, host, begun.last) {
        Ok(()) => serve(alloc, host, source, reader, &mut core),
        Err(end) => end,
    }
}

// A run that has started and said nothing yet, and the last id of its namespace.
#[derive(Drop)]
struct Begun<T: Tree> {
    core: Core<T>,
    last: Txid,
}

// Starts over all directories, of which the last id is told.
fn begin<H: Host, T: Tree>(alloc: Global, host: &mut H, at: u64) -> Result<Begun<T>, RunEnd>
    requires early { at < 2 ^ 63 }
    ensures ok { IfOk result (λ it. HasBegun H.told at it.core.count it.core.version (T.meaning it.core.tree) it.core.journal it.last (H.state host.old) (H.state host.new)) }
    ensures time { IfOk result (λ it. it.core.time ≡ at) }
    ensures imaged { IfOk result (λ it. IsImaged (T.meaning it.core.tree)) }
    ensures err { IfErr result (λ end. EndsSo H.told at (H.state host.old) (H.state host.new) [] end) }
    ensures early { IfErr result (λ end. run_reached end ≡ OnTheWay) }
    ensures quiet { IfErr result (λ end. Unspoken H.told (H.state host.old) (H.state host.new)) }
{
    let opened: Opened<T> = match start(alloc, host) {
        Ok(opened) => opened,
        Err(fault) => return Err(unstarted(fault)),
    };
    let last = opened.last;
    match Core::new(
        alloc,
        opened.tree,
        opened.journal,
        opened.version,
        at,
        host.count(),
    ) {
        Ok(core) => Ok(Begun { core, last }),
        Err(NoMemory) => Err(RunEnd::Memory),
    }
}

// Says that the run has started, from this id on.
fn say_started<H: Host>(alloc: Global, host: &mut H, last: Txid) -> Result<(), RunEnd>
    requires { last < 2 ^ 63 }
    ensures { SaysStarted H.told last (H.state host.old) (H.state host.new) result }
{
    let line = match started_line(alloc, last) {
        Ok(line) => line,
        Err(NoMemory) => return Err(RunEnd::Memory),
    };
    match host.say(line.as_bytes()) {
        Ok(()) => Ok(()),
        Err(Failed) => Err(RunEnd::OutFault),
    }
}

fn started_line(alloc: Global, last: Txid) -> Result<String, NoMemory>
    ensures { IfOk result (λ line. string_bytes line ≡ started_line last) }
{
    let line = format!(in alloc; "started {}\n", last.0)?;
    Ok(line)
}
