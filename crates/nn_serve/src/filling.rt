// The lines of generated files, done one after another without a word.
ghost use Rattle.std.specs.Prelude.{◌≡◌, ◌+◌, ◌*◌, ◌<◌, ◌≤◌, ◌^◌, ◌∷◌, ◌==◌, ℕ, [], IfOk, OnOk, length, vec_capacity};
ghost use Rattle.std.specs.List.{position};
ghost use Rattle.std.specs.String.{string_bytes};
ghost use Rattle.nn_base.specs.DirSets.{count_of};
ghost use Rattle.nn_base.specs.Limits.{most_script};
ghost use Rattle.nn_host.specs.Moments.{State};
ghost use Rattle.nn_tree.specs.Imaged.{IsImaged};
ghost use Rattle.nn_generate.specs.Generated.{file_lines, script_of, max_file};
ghost use Rattle.nn_script.specs.Lines.{lines_of};
ghost use Rattle.nn_core.specs.Ready.{IsReady};
ghost use Rattle.nn_fill.specs.Filled.{AreGood, IsChangeLine};
ghost use Rattle.nn_fill.specs.Tally.{count_line};
ghost use Rattle.nn_serve.specs.Filled.{CameFilled};
ghost use Rattle.nn_serve.specs.Filling.{IsFilling, Fills, SaysTally, SaysLittle};
ghost use Rattle.nn_serve.specs.Serving.{IsServing, HasRoom};

use crate::ending::{RunEnd, run_end};
use crate::tally::Tally;
use nn_base::NoMemory;
use nn_core::{Core, End};
use nn_generate::generate;
use nn_host::{Failed, Host};
use nn_journal::NoneLeft;
use nn_script::{ScriptCommand, Syntax, line_read};
use nn_tree::Tree;
use std::alloc::Global;

// Does the lines of so many generated files, of which nothing is said, ends the last segment, and says how many commands there
// were and how many of them were taken. The lines of a file are made in a buffer that has room for them.
pub(crate) fn fill<H: Host, T: Tree>(
    alloc: Global,
    host: &mut H,
    core: &mut Core<T>,
    files: u32,
    lines: &mut Vec<u8>,
) -> RunEnd
    requires room { max_file ≤ vec_capacity lines.old }
    requires few { files ≤ 500000 }
    requires ready { IsReady core.old.journal core.old.count (H.state host.old) }
    requires ids { core.old.journal.last ≤ 2 ^ 62 }
    requires imaged { IsImaged (T.meaning core.old.tree) }
    ensures { (at : ℕ) (origin : State) → IsServing H.told at core.old.count core.old.version (T.meaning core.old.tree) core.old.time core.old.journal [] origin (H.state host.old) → HasRoom H.told origin core.old.journal most_script → SaysLittle H.told origin (H.state host.old) →
        CameFilled H.told at files origin (H.state host.new) result }
{
    let mut tally = Tally::none();
    'files: for k in 0..files {
        match do_file(alloc, host, core, k, lines, &mut tally) {
            Ok(()) => (),
            Err(end) => return run_end(end),
        }
    }
    finish(alloc, host, core, tally)
}

// Does the lines of file k.
fn do_file<H: Host, T: Tree>(
    alloc: Global,
    host: &mut H,
    core: &mut Core<T>,
    k: u32,
    lines: &mut Vec<u8>,
    tally: &mut Tally,
) -> Result<(), End>
    requires room { max_file ≤ vec_capacity lines.old }
    requires few { tally.old.commands + max_file < 2 ^ 63 }
    requires ready { IsReady core.old.journal core.old.count (H.state host.old) }
    requires ids { core.old.journal.last + 2 * count_of core.old.journal.live + 8 * max_file + 128 < 2 ^ 63 }
    requires imaged { IsImaged (T.meaning core.old.tree) }
    ensures fills { Fills H.told (lines_of (file_lines k)) core.old.count core.old.version (T.meaning core.old.tree) (T.meaning core.new.tree) core.old.time core.new.time core.old.journal core.new.journal tally.old tally.new (H.state host.old) (H.state host.new) result }
    ensures ready { OnOk result (IsReady core.new.journal core.old.count (H.state host.new)) }
    ensures last { core.new.journal.last + 2 * count_of core.new.journal.live ≤ core.old.journal.last + 2 * count_of core.old.journal.live + 8 * max_file }
    ensures same { (core.new.count ≡ core.old.count) × (core.new.version ≡ core.old.version) }
    ensures imaged { IsImaged (T.meaning core.new.tree) }
    ensures room { max_file ≤ vec_capacity lines.new }
    ensures few { tally.new.commands ≤ tally.old.commands + max_file }
{
    lines.clear();
    match generate(k, lines) {
        Ok(()) => do_lines(alloc, host, core, lines, tally),
        Err(NoMemory) => unreachable!(),
    }
}

// Does the lines of a text.
fn do_lines<H: Host, T: Tree>(
    alloc: Global,
    host: &mut H,
    core: &mut Core<T>,
    text: &[u8],
    tally: &mut Tally,
) -> Result<(), End>
    requires good { AreGood text.now }
    requires few { tally.old.commands + length text.now < 2 ^ 63 }
    requires ready { IsReady core.old.journal core.old.count (H.state host.old) }
    requires ids { core.old.journal.last + 2 * count_of core.old.journal.live + 8 * length text.now + 128 < 2 ^ 63 }
    requires imaged { IsImaged (T.meaning core.old.tree) }
    ensures fills { Fills H.told (lines_of text.now) core.old.count core.old.version (T.meaning core.old.tree) (T.meaning core.new.tree) core.old.time core.new.time core.old.journal core.new.journal tally.old tally.new (H.state host.old) (H.state host.new) result }
    ensures ready { OnOk result (IsReady core.new.journal core.old.count (H.state host.new)) }
    ensures last { core.new.journal.last + 2 * count_of core.new.journal.live ≤ core.old.journal.last + 2 * count_of core.old.journal.live + 8 * length text.now }
    ensures same { (core.new.count ≡ core.old.count) × (core.new.version ≡ core.old.version) }
    ensures imaged { IsImaged (T.meaning core.new.tree) }
    ensures few { tally.new.commands ≤ tally.old.commands + length text.now }
{
    let mut rest = text;
    'lines: while let Some(end) = newline_in(rest) {
        match do_line(alloc, host, core, &rest[..end], tally) {
            Ok(()) => (),
            Err(end) => return Err(end),
        }
        rest = &rest[end + 1..];
    }
    Ok(())
}

fn newline_in(text: &[u8]) -> Option<usize>
    ensures { result ≡ position (λ byte. byte == 10) text.now }
{
    text.iter().position(|byte| *byte == b'\n')
}

// Does the change that a line asks for, and counts it.
fn do_line<H: Host, T: Tree>(
    alloc: Global,
    host: &mut H,
    core: &mut Core<T>,
    line: &[u8],
    tally: &mut Tally,
) -> Result<(), End>
    requires change { IsChangeLine line.now }
    requires few { tally.old.commands < 2 ^ 63 }
    requires ready { IsReady core.old.journal core.old.count (H.state host.old) }
    requires ids { core.old.journal.last + 128 < 2 ^ 63 }
    requires imaged { IsImaged (T.meaning core.old.tree) }
    ensures fills { Fills H.told (line.now ∷ []) core.old.count core.old.version (T.meaning core.old.tree) (T.meaning core.new.tree) core.old.time core.new.time core.old.journal core.new.journal tally.old tally.new (H.state host.old) (H.state host.new) result }
    ensures ready { OnOk result (IsReady core.new.journal core.old.count (H.state host.new)) }
    ensures last { core.new.journal.last + 2 * count_of core.new.journal.live ≤ core.old.journal.last + 2 * count_of core.old.journal.live + 8 }
    ensures same { (core.new.count ≡ core.old.count) × (core.new.version ≡ core.old.version) }
    ensures imaged { IsImaged (T.meaning core.new.tree) }
    ensures few { tally.new.commands ≤ tally.old.commands + 1 }
{
    match line_read(alloc, line) {
        Ok(Some(ScriptCommand::Namespace(change))) => match core.perform(alloc, host, change) {
            Ok(refusal) => {
                *tally = tally.with(refusal.is_none());
                Ok(())
            }
            Err(end) => Err(end),
        },
        Err(Syntax::Memory) => Err(End::Memory),
        _ => unreachable!(),
    }
}

// Ends the last segment, and says how many commands there were.
fn finish<H: Host, T: Tree>(alloc: Global, host: &mut H, core: &mut Core<T>, tally: Tally) -> RunEnd
    requires ready { IsReady core.old.journal core.old.count (H.state host.old) }
    requires ids { core.old.journal.last + 128 < 2 ^ 63 }
    requires few { tally.commands < 2 ^ 63 }
    ensures { (at files : ℕ) (origin : State) → IsFilling H.told at files core.old.count core.old.version (T.meaning core.old.tree) core.old.time core.old.journal (lines_of (script_of files)) tally origin (H.state host.old) → HasRoom H.told origin core.old.journal 0 →
        CameFilled H.told at files origin (H.state host.new) result }
{
    match core.end(host) {
        Ok(()) => match say_tally(alloc, host, tally) {
            Ok(()) => RunEnd::Ended,
            Err(end) => end,
        },
        Err(NoneLeft) => RunEnd::NoneLeft,
    }
}

// Says how many commands there were, and how many of them were taken.
fn say_tally<H: Host>(alloc: Global, host: &mut H, tally: Tally) -> Result<(), RunEnd>
    requires { tally.commands < 2 ^ 63 }
    ensures { SaysTally H.told tally (H.state host.old) (H.state host.new) result }
{
    let line = match tally_line(alloc, tally) {
        Ok(line) => line,
        Err(NoMemory) => return Err(RunEnd::Memory),
    };
    match host.say(line.as_bytes()) {
        Ok(()) => Ok(()),
        Err(Failed) => Err(RunEnd::OutFault),
    }
}

fn tally_line(alloc: Global, tally: Tally) -> Result<String, NoMemory>
    ensures { IfOk result (λ line. string_bytes line ≡ count_line tally.commands tally.taken) }
{
    let line = format!(in alloc; "commands {} ok {}\n", tally.commands, tally.taken)?;
    Ok(line)
}
