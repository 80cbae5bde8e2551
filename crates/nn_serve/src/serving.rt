// The lines of a script, answered one after another.
ghost use Rattle.std.specs.Prelude.{◌≡◌, ◌+◌, ◌*◌, ◌<◌, ◌≤◌, ◌^◌, ℕ, [], OnOk, IfOk, IfSome};
ghost use Rattle.nn_base.specs.DirSets.{count_of};
ghost use Rattle.nn_base.specs.Limits.{most_script};
ghost use Rattle.nn_host.specs.Moments.{State};
ghost use Rattle.nn_tree.specs.Imaged.{IsImaged};
ghost use Rattle.nn_reader.specs.Reader.{ahead, budget};
ghost use Rattle.nn_script.specs.Reading.{reading_of};
ghost use Rattle.nn_core.specs.Ready.{IsReady};
ghost use Rattle.nn_core.specs.Events.{IsEvent};
ghost use Rattle.nn_server.specs.Came.{CameTo};
ghost use Rattle.nn_serve.specs.Ended.{run_status};
ghost use Rattle.nn_serve.specs.Ran.{RunRan};
ghost use Rattle.nn_serve.specs.Serving.{IsServing, HasRoom};
ghost use Rattle.nn_serve.specs.Turns.{read_of, Turns, Closes};

use crate::ending::{RunEnd, run_end};
use nn_base::NoMemory;
use nn_core::{Core, End, Event};
use nn_host::{Failed, Host, Source};
use nn_journal::NoneLeft;
use nn_reader::{LineReader, Next};
use nn_script::{Syntax, line_read};
use nn_tree::Tree;
use std::alloc::Global;

// Answers the lines that a reader which has read nothing reads, and ends the last segment behind them.
pub(crate) fn serve<H: Host, S: Source, T: Tree>(
    alloc: Global,
    host: &mut H,
    source: &mut S,
    reader: &mut LineReader,
    core: &mut Core<T>,
) -> RunEnd
    requires ahead { ahead reader.old ≡ [] }
    requires budget { budget reader.old ≡ most_script }
    requires ready { IsReady core.old.journal core.old.count (H.state host.old) }
    requires ids { core.old.journal.last ≤ 2 ^ 62 }
    requires imaged { IsImaged (T.meaning core.old.tree) }
    ensures { (at : ℕ) (origin : State) → IsServing H.told at core.old.count core.old.version (T.meaning core.old.tree) core.old.time core.old.journal [] origin (H.state host.old) → HasRoom H.told origin core.old.journal most_script →
        CameTo H.told origin (H.state host.new) run_status (λ lines trace. RunRan H.told S.told at (S.left source.old) (S.left source.new) (S.faults source.old) (S.faults source.new) origin (H.state host.new) lines) result }
{
    'lines: loop {
        match reader.next(source) {
            Ok(Next::Line) => match answer(alloc, host, core, reader.line()) {
                Ok(()) => (),
                Err(end) => return run_end(end),
            },
            Ok(Next::Last) => match answer(alloc, host, core, reader.line()) {
                Ok(()) => return close(host, core),
                Err(end) => return run_end(end),
            },
            Ok(Next::End) => return close(host, core),
            Ok(Next::TooLong) => return RunEnd::ScriptTooLong,
            Err(Failed) => return RunEnd::SourceFault,
        }
    }
}

// Answers a line, if it has an answer.
fn answer<H: Host, T: Tree>(
    alloc: Global,
    host: &mut H,
    core: &mut Core<T>,
    line: &[u8],
) -> Result<(), End>
    requires ready { IsReady core.old.journal core.old.count (H.state host.old) }
    requires ids { core.old.journal.last + 128 < 2 ^ 63 }
    requires imaged { IsImaged (T.meaning core.old.tree) }
    ensures turns { Turns H.told line.now core.old.count core.old.version (T.meaning core.old.tree) (T.meaning core.new.tree) core.old.time core.new.time core.old.journal core.new.journal (H.state host.old) (H.state host.new) result }
    ensures ready { OnOk result (IsReady core.new.journal core.old.count (H.state host.new)) }
    ensures last { core.new.journal.last + 2 * count_of core.new.journal.live ≤ core.old.journal.last + 8 + 2 * count_of core.old.journal.live }
    ensures same { (core.new.count ≡ core.old.count) × (core.new.version ≡ core.old.version) }
    ensures imaged { IsImaged (T.meaning core.new.tree) }
{
    match read_event(alloc, line) {
        Ok(Some(event)) => core.step(alloc, host, event),
        Ok(None) => Ok(()),
        Err(NoMemory) => Err(End::Memory),
    }
}

// What a line asks for, if it has an answer.
fn read_event(alloc: Global, line: &[u8]) -> Result<Option<Event>, NoMemory>
    ensures reads { IfOk result (λ event. reading_of line.now ≡ read_of event) }
    ensures event { IfOk result (λ event. IfSome event IsEvent) }
{
    match line_read(alloc, line) {
        Ok(Some(command)) => Ok(Some(Event::Line(command))),
        Ok(None) => Ok(None),
        Err(Syntax::Memory) => Err(NoMemory),
        Err(fault) => Ok(Some(Event::Bad(fault))),
    }
}

// Ends the last segment.
fn close<H: Host, T: Tree>(host: &mut H, core: &mut Core<T>) -> RunEnd
    requires ready { IsReady core.old.journal core.old.count (H.state host.old) }
    requires ids { core.old.journal.last + 128 < 2 ^ 63 }
    ensures { Closes H.told core.old.count core.old.version (T.meaning core.old.tree) core.old.time core.old.journal (H.state host.old) (H.state host.new) result }
{
    match core.end(host) {
        Ok(()) => RunEnd::Ended,
        Err(NoneLeft) => RunEnd::NoneLeft,
    }
}
